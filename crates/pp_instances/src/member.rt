//! Instances.

ghost use Rattle.std.specs.Prelude.{◌≡◌, ◌↔◌, IsTrue, IfOk, fold, map};
ghost use Rattle.pp_typed.specs.Equal.{equal, pass_all};
ghost use Rattle.pp_instances.specs.Same.{same, same_decl, fed_decl, fed_member, fed_sort};
ghost use Rattle.pp_instances.specs.Uses.{at_args};
ghost use Rattle.pp_instances.specs.Decides.{same_laws, same_partial_laws, same_fed};

use crate::NoMemory;
use pp_generic::{are_same, copies, put};
use pp_list::Items;
use pp_text::Name;
use pp_typed::{GenericSort, GenericSorts};
use std::alloc::Global;
use std::hash::{Hash, Hasher};

/// A declaration: a function or a root, by its place among the functions or the roots.
#[derive(Clone, Copy, Debug)]
pub enum Decl {
    Function(u32),
    Root(u32),
}

/// A declaration at type arguments.
#[derive(Drop)]
pub struct Member {
    pub of: Decl,
    pub args: GenericSorts,
}

/// A function or a datatype of a program: the place of its declaration, its type arguments and its printed name.
#[derive(Drop)]
pub struct Instance {
    pub number: u32,
    pub args: GenericSorts,
    pub name: Name,
}

/// A list of instances.
pub type Instances = Items<Instance>;

impl Decl {
    /// Whether the two are the same declaration. It takes no memory.
    pub fn is(self, other: Decl) -> bool
        ensures { result ≡ same_decl self other }
    {
        match (self, other) {
            (Decl::Function(f), Decl::Function(g)) => f == g,
            (Decl::Root(r), Decl::Root(q)) => r == q,
            _ => false,
        }
    }

    fn hash_into<H: Hasher>(self, state: &mut H)
        ensures { state.new ≡ fold H.write state.old (fed_decl self) }
    {
        match self {
            Decl::Function(f) => {
                state.write_u8(0);
                state.write_u32(f);
            }
            Decl::Root(r) => {
                state.write_u8(1);
                state.write_u32(r);
            }
        }
    }
}

fn are_all_same(xs: &[GenericSort], ys: &[GenericSort]) -> bool
    ensures { IsTrue result ↔ (xs.now ≡ ys.now) }
{
    if xs.len() != ys.len() {
        return false;
    }
    for i in 0..xs.len() {
        if !are_same(&xs[i], &ys[i]) {
            return false;
        }
    }
    true
}

fn same_args(xs: &[GenericSort], ys: &[GenericSort]) -> bool
    ensures { result ≡ pass_all (map equal xs.now) ys.now }
{
    are_all_same(xs, ys)
}

fn hash_sort<H: Hasher>(sort: &GenericSort, state: &mut H)
    ensures { state.new ≡ fold H.write state.old (fed_sort sort.now) }
{
    match sort {
        GenericSort::Int => state.write_u8(0),
        GenericSort::Bool => state.write_u8(1),
        GenericSort::Param(i) => {
            state.write_u8(2);
            state.write_u32(*i);
        }
        GenericSort::Root(r, parts) => {
            state.write_u8(3);
            state.write_u32(*r);
            for part in parts.as_slice() {
                hash_sort(part, state);
            }
        }
    }
}

impl PartialEq for Member {
    ghost eq = { same };

    ghost laws = { same_partial_laws };

    fn eq(&self, other: &Member) -> bool {
        self.of.is(other.of) && same_args(self.args.as_slice(), other.args.as_slice())
    }
}

impl Eq for Member {
    ghost laws = { same_laws };
}

impl Hash for Member {
    ghost hash_input = { fed_member };

    ghost respects_eq = { same_fed };

    fn hash<H: Hasher>(&self, state: &mut H) {
        self.of.hash_into(state);
        for sort in self.args.as_slice() {
            hash_sort(sort, state);
        }
    }
}

impl Member {
    /// The member at these arguments in place of its parameters. The only error is want of memory.
    pub fn at_args(&self, alloc: Global, args: &[GenericSort]) -> Result<Member, NoMemory>
        ensures { IfOk result (λ m. m ≡ at_args args.now self.now) }
    {
        let mut sorts = Items::new(alloc);
        for sort in self.args.as_slice() {
            sorts.push(put(alloc, args, sort)?)?;
        }
        Ok(Member {
            of: self.of,
            args: sorts,
        })
    }

    /// A member that equals this one. The only error is want of memory.
    pub fn copy(&self, alloc: Global) -> Result<Member, NoMemory>
        ensures { IfOk result (λ m. m ≡ self.now) }
    {
        Ok(Member {
            of: self.of,
            args: copies(alloc, self.args.as_slice())?,
        })
    }
}
