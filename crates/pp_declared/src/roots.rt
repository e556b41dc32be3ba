//! The roots of all units, and the root of each constructor.

ghost use Rattle.std.specs.Prelude.{◌≡◌, ◌<◌, ◌^◌, ◌&&◌, length, map, not, slice_get, IfOk};
ghost use Rattle.pp_declared.specs.Declare.{extends_whole, is_open_to, owner_at, owner_of};
ghost use Rattle.pp_declared.specs.Declares.{are_params, class_names, is_bare, is_param, typed_root};
ghost use Rattle.pp_declared.specs.Shown.{class_in, class_ins};
ghost use Rattle.pp_fault.specs.Part.{Tells};
ghost use Rattle.pp_names.specs.Places.{has};
ghost use Rattle.pp_sorts.specs.Words.{words_of};
ghost use Rattle.pp_tree.specs.Shown.{class_of, type_of, type_trees};

use crate::ClassAt;
use crate::well_formed::has_name;
use pp_fault::{Halt, Rule, broken};
use pp_list::at;
use pp_names::NameTable;
use pp_sorts::TypeScope;
use pp_tree::TypeText;
use pp_typed::TypedRoot;
use std::alloc::Global;

/// The roots, as they are written and as they are typed, and the table of their names.
#[derive(Drop)]
pub(crate) struct Roots<'r, 'a> {
    pub classes: &'r [ClassAt<'a>],
    pub typed: &'r [TypedRoot],
    pub names: &'r NameTable,
    ghost typed_roots: { typed.now ≡ map typed_root (class_ins classes.now) },
    ghost named: { names.now ≡ class_names (class_ins classes.now) },
}

impl<'r, 'a> Roots<'r, 'a> {
    /// The types that a declaration with these type parameters may name.
    #[tactic(auto, using(crate::proofs::Owned::names_of_roots))]
    pub fn scope<'s>(&'s self, params: &'s [&'s str], source: u32) -> TypeScope<'s>
        requires { length params.now < 2 ^ 32 }
        ensures roots { result.roots.now ≡ map typed_root (class_ins self.now.classes.now) }
        ensures params { result.params.now ≡ params.now }
        ensures source { result.source ≡ source }
    {
        TypeScope {
            names: self.names,
            roots: self.typed,
            params,
            source,
        }
    }
}

/// The place of the root of a constructor. It refuses what isn't an open root as `Unknown`, at what is extended, and
/// a root that isn't extended with exactly the constructor's type parameters as `Arity`, at the constructor.
#[tactic(auto, using(crate::proofs::Owned::found_within))]
pub(crate) fn owner_of(alloc: Global, roots: &Roots, c: &ClassAt) -> Result<u32, Halt>
    ensures told { Tells result (owner_of (class_ins roots.now.classes.now) (class_in c.now)) }
    ensures within { IfOk result (λ r. r < length roots.now.classes.now) }
{
    let (name, place) = match c.class.parent {
        Some(parent) => (parent.name, parent.at),
        None => (c.class.name, c.class.at),
    };
    match roots.names.find(name) {
        None => broken(alloc, Rule::Unknown, name, c.source, place),
        Some(r) => owner_at(alloc, roots, c, r),
    }
}

fn owner_at(alloc: Global, roots: &Roots, c: &ClassAt, r: u32) -> Result<u32, Halt>
    ensures told { Tells result
        (owner_at (class_ins roots.now.classes.now) (class_in c.now) r (class_of c.now.class).parent) }
    ensures same { IfOk result (λ q. q ≡ r) }
{
    match c.class.parent {
        None => Ok(r),
        Some(parent) => {
            if !may_extend(roots, c, parent.name, r) {
                return broken(alloc, Rule::Unknown, parent.name, c.source, parent.at);
            }
            if !extends_whole(roots, c, parent.args, r) {
                return broken(alloc, Rule::Arity, c.class.name, c.source, c.class.at);
            }
            Ok(r)
        }
    }
}

/// Whether the name is no type parameter of the constructor, and stands for an open root.
fn may_extend(roots: &Roots, c: &ClassAt, name: &str, r: u32) -> bool
    ensures { result ≡ (not (has name.now (words_of c.now.class.params.now))
        && is_open_to (class_in c.now) (slice_get (class_ins roots.now.classes.now) r)) }
{
    !has_name(c.class.params, name) && is_open_to(roots, c, r)
}

/// Whether a root is sealed, and of the constructor's source.
#[tactic(auto, using(crate::proofs::Owned::class_at))]
fn is_open_to(roots: &Roots, c: &ClassAt, r: u32) -> bool
    ensures { result ≡ is_open_to (class_in c.now) (slice_get (class_ins roots.now.classes.now) r) }
{
    match at(roots.classes, r as usize) {
        None => false,
        Some(root) => root.sealed && root.source == c.source,
    }
}

/// Whether a root has as many type parameters as the constructor, and these are exactly the arguments.
#[tactic(auto, using(crate::proofs::Owned::class_at))]
fn extends_whole(roots: &Roots, c: &ClassAt, args: &[TypeText], r: u32) -> bool
    ensures { result ≡ extends_whole (class_in c.now) (type_trees (map type_of args.now))
        (slice_get (class_ins roots.now.classes.now) r) }
{
    match at(roots.classes, r as usize) {
        None => false,
        Some(root) => {
            c.class.params.len() == root.class.params.len() && are_params(c.class.params, args)
        }
    }
}

/// Whether the written types are exactly these type parameters, in order.
#[tactic(auto, using(crate::proofs::Owned::params_step))]
fn are_params(params: &[&str], texts: &[TypeText]) -> bool
    ensures { result ≡ are_params (words_of params.now) (type_trees (map type_of texts.now)) }
{
    if params.len() != texts.len() {
        return false;
    }
    for i in 0..params.len() {
        if !is_param(params[i], &texts[i]) {
            return false;
        }
    }
    true
}

/// Whether the written type is this type parameter.
fn is_param(param: &str, text: &TypeText) -> bool
    ensures { result ≡ is_param param.now (type_of text.now) }
{
    param == text.name && is_bare(text.args)
}

/// Whether there are no written types.
fn is_bare(texts: &[TypeText]) -> bool
    ensures { result ≡ is_bare (type_trees (map type_of texts.now)) }
{
    texts.is_empty()
}
