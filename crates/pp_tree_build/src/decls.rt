//! Classes, functions and units.

ghost use Rattle.std.specs.Prelude.{◌≡◌, IfOk, flat_map, map, option_map};
ghost use Rattle.pp_tree.specs.Plain.{def};
ghost use Rattle.pp_tree.specs.Roots.{class_roots, contract_roots, def_roots, expr_root, post_roots, stands_before};
ghost use Rattle.pp_tree.specs.Roots.{too_high};
ghost use Rattle.pp_tree.specs.Shown.{class_of, decl_of, def_of, import_of, post_of, tree_of, unit_of};
ghost use Rattle.pp_tree_build.specs.Parts.{class_as, class_parts, claim_parts, def_parts};

use crate::checked::{Checked, Rooted};
use crate::kept::keep;
use crate::roots::{first_too_high, too_high, too_high_if_any};
use crate::rows::row;
use crate::types::tree_alone;
use crate::{Built, NoMemory};
use bumpalo::Bump;
use bumpalo::collections::into_bump_slice;
use pp_tree::{ClassDecl, Decl, DefDecl, Expr, Import, Param, Post, TypeText, Unit};

/// The parts of a class, a trait or a case object.
#[derive(Clone, Copy)]
pub struct ClassParts<'a, 'p> {
    /// The offset of its name, in bytes.
    pub at: u32,
    /// Its name.
    pub name: &'a str,
    /// The names of its type parameters.
    pub params: &'p [&'a str],
    /// Its fields.
    pub fields: &'p [&'a Built<Param<'a>>],
    /// What it extends, if that is written.
    pub parent: Option<&'a Built<TypeText<'a>>>,
    /// Whether it is a case object.
    pub object: bool,
}

/// What a class is: the root of a datatype, a constructor, or neither.
#[derive(Clone, Copy)]
pub enum ClassKind {
    /// The root of a datatype.
    Root,
    /// A constructor of a datatype.
    Ctor,
    /// Neither.
    Other,
}

/// The parts of a postcondition.
#[derive(Clone, Copy)]
pub struct Claim<'a> {
    /// The offset of the word `ensuring` or `holds`, in bytes.
    pub at: u32,
    /// The name of the result.
    pub name: &'a str,
    /// The type of the result, if that is written here.
    pub of: Option<&'a Built<TypeText<'a>>>,
    /// What is claimed.
    pub claim: &'a Built<Expr<'a>>,
}

/// The parts of a function.
#[derive(Clone, Copy)]
pub struct DefParts<'a, 'p> {
    /// The offset of its name, in bytes.
    pub at: u32,
    /// Its name.
    pub name: &'a str,
    /// The names of its type parameters.
    pub type_params: &'p [&'a str],
    /// Its parameters.
    pub params: &'p [&'a Built<Param<'a>>],
    /// Whether a list of parameters is written, be it an empty one.
    pub list: bool,
    /// The type of its result.
    pub result: &'a Built<TypeText<'a>>,
    /// What its `require` say, in their order.
    pub pre: &'p [&'a Built<Expr<'a>>],
    /// The components of its `decreases`.
    pub measure: &'p [&'a Built<Expr<'a>>],
    /// Its body.
    pub body: &'a Built<Expr<'a>>,
    /// Its postcondition, if it has one.
    pub post: Option<Claim<'a>>,
}

/// The place of the first root of a class that is too high.
fn class_deep(parts: &ClassParts) -> Option<u32>
    ensures { result ≡ too_high (class_roots (class_parts parts.now)) }
{
    first_too_high(parts.fields).or(too_high_if_any(parts.parent))
}

/// A class, a trait or a case object, without the place of what is too high.
fn class_decl<'a>(arena: &'a Bump, parts: &ClassParts<'a, '_>) -> Result<ClassDecl<'a>, NoMemory>
    ensures { IfOk result (λ c. class_of c ≡ class_parts parts.now) }
{
    let params = arena.try_alloc_slice_copy(parts.params)?;
    let fields = row(arena, parts.fields)?;
    Ok(ClassDecl {
        at: parts.at,
        name: parts.name,
        params,
        fields,
        parent: tree_alone(parts.parent),
        object: parts.object,
    })
}

/// The class as a declaration of its kind.
fn declared(kind: ClassKind, class: ClassDecl) -> Decl
    ensures { decl_of result ≡ class_as kind (class_of class.entry) }
{
    match kind {
        ClassKind::Root => Decl::Root(class),
        ClassKind::Ctor => Decl::Ctor(class),
        ClassKind::Other => Decl::Other(class),
    }
}

/// A class, a trait or a case object.
pub fn class<'a>(
    arena: &'a Bump,
    kind: ClassKind,
    parts: &ClassParts<'a, '_>,
) -> Result<&'a Checked<Decl<'a>>, NoMemory>
    ensures { IfOk result (λ d. decl_of d.now.tree ≡ class_as kind (class_parts parts.now)) }
{
    let deep = class_deep(parts);
    let tree = declared(kind, class_decl(arena, parts)?);
    keep(arena, Checked { tree, deep })
}

/// The place of the first root of a postcondition that is too high.
fn claim_deep(post: Option<Claim>) -> Option<u32>
    ensures { result ≡ too_high (post_roots (option_map claim_parts post.entry)) }
{
    match post {
        None => None,
        Some(claim) => too_high_if_any(claim.of).or(too_high(claim.claim)),
    }
}

/// Whether the first of these trees stands before the first of those.
fn stands_before(these: &[&Built<Expr>], those: &[&Built<Expr>]) -> bool
    ensures { result ≡ stands_before (map expr_root (map (λ b. tree_of b.now.tree) these.now))
        (map expr_root (map (λ b. tree_of b.now.tree) those.now)) }
{
    match (these.split_first(), those.split_first()) {
        (Some((one, _)), Some((other, _))) => one.tree.at < other.tree.at,
        _ => false,
    }
}

/// The place of the first root of contracts that is too high, in the order of the text.
fn contracts_deep(pre: &[&Built<Expr>], measure: &[&Built<Expr>]) -> Option<u32>
    ensures { result ≡ too_high (contract_roots (map expr_root (map (λ b. tree_of b.now.tree) pre.now))
        (map expr_root (map (λ b. tree_of b.now.tree) measure.now))) }
{
    let in_pre = first_too_high(pre);
    let in_measure = first_too_high(measure);
    if stands_before(measure, pre) {
        in_measure.or(in_pre)
    } else {
        in_pre.or(in_measure)
    }
}

/// The place of the first root of a function that is too high.
fn def_deep(parts: &DefParts) -> Option<u32>
    ensures { result ≡ too_high (def_roots (def_parts parts.now)) }
{
    let in_body = too_high(parts.body).or(claim_deep(parts.post));
    let in_contracts = contracts_deep(parts.pre, parts.measure).or(in_body);
    let in_result = too_high(parts.result).or(in_contracts);
    first_too_high(parts.params).or(in_result)
}

/// A postcondition that may be missing, without heights.
fn post_alone<'a>(post: Option<Claim<'a>>) -> Option<Post<'a>>
    ensures { option_map post_of result ≡ option_map claim_parts post.entry }
{
    match post {
        None => None,
        Some(claim) => Some(Post {
            at: claim.at,
            name: claim.name,
            of: tree_alone(claim.of),
            claim: claim.claim.tree,
        }),
    }
}

/// A function, without the place of what is too high.
fn def_decl<'a>(arena: &'a Bump, parts: &DefParts<'a, '_>) -> Result<DefDecl<'a>, NoMemory>
    ensures { IfOk result (λ d. def_of d ≡ def_parts parts.now) }
{
    let type_params = arena.try_alloc_slice_copy(parts.type_params)?;
    let params = row(arena, parts.params)?;
    let pre = row(arena, parts.pre)?;
    let measure = row(arena, parts.measure)?;
    Ok(DefDecl {
        at: parts.at,
        name: parts.name,
        type_params,
        params,
        list: parts.list,
        result: parts.result.tree,
        pre,
        measure,
        body: parts.body.tree,
        post: post_alone(parts.post),
    })
}

/// A function.
pub fn def<'a>(arena: &'a Bump, parts: &DefParts<'a, '_>) -> Result<&'a Checked<Decl<'a>>, NoMemory>
    ensures { IfOk result (λ d. decl_of d.now.tree ≡ def (def_parts parts.now)) }
{
    let deep = def_deep(parts);
    let tree = Decl::Def(def_decl(arena, parts)?);
    keep(arena, Checked { tree, deep })
}

/// The place of the first root of declarations that is too high.
fn first_deep<T: Rooted>(items: &[&Checked<T>]) -> Option<u32>
    ensures { result ≡ too_high (flat_map (λ c. T.roots_of c.now.tree) items.now) }
{
    for item in items {
        if item.deep.is_some() {
            return item.deep;
        }
    }
    None
}

/// The declarations alone, in the arena.
fn decl_row<'a, T: Rooted>(arena: &'a Bump, items: &[&Checked<T>]) -> Result<&'a [T], NoMemory>
    ensures { IfOk result (λ r. r.now ≡ map (λ c. c.now.tree) items.now) }
{
    let mut trees = Vec::new(arena);
    for item in items {
        trees.push(item.tree)?;
    }
    Ok(into_bump_slice(trees))
}

/// A unit.
pub fn unit<'a>(
    arena: &'a Bump,
    imports: &[Import<'a>],
    objects: &[&'a str],
    decls: &[&Checked<Decl<'a>>],
) -> Result<&'a Checked<Unit<'a>>, NoMemory>
    ensures { IfOk result (λ u. unit_of u.now.tree ≡
        record {
          imports = map import_of imports.now;
          objects = map (λ o. o.now) objects.now;
          decls =
              map (λ d. decl_of d.now.tree) decls.now;
        }) }
{
    let deep = first_deep(decls);
    let imports = arena.try_alloc_slice_copy(imports)?;
    let objects = arena.try_alloc_slice_copy(objects)?;
    let decls = decl_row(arena, decls)?;
    let tree = Unit {
        imports,
        objects,
        decls,
    };
    keep(arena, Checked { tree, deep })
}
