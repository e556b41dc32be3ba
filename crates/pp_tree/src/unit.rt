//! Functions, and the unit of one source.

use crate::{ClassDecl, Expr, Param, TypeText};

/// A postcondition: the offset of its word, the name of the result, the type that is written for it, and what it
/// claims.
/// `holds` claims the result itself, under the name `res`.
#[derive(Clone, Copy)]
pub struct Post<'a> {
    pub at: u32,
    pub name: &'a str,
    pub of: Option<TypeText<'a>>,
    pub claim: Expr<'a>,
}

/// A function: its name, the offset of that name, its type parameters and its parameters. `list` tells whether a
/// parameter list is written. `pre` has one expression for each `require`, `measure` the components of `decreases`.
#[derive(Clone, Copy)]
pub struct DefDecl<'a> {
    pub at: u32,
    pub name: &'a str,
    pub type_params: &'a [&'a str],
    pub params: &'a [Param<'a>],
    pub list: bool,
    pub result: TypeText<'a>,
    pub pre: &'a [Expr<'a>],
    pub measure: &'a [Expr<'a>],
    pub body: Expr<'a>,
    pub post: Option<Post<'a>>,
}

/// A declaration. A root is sealed, without the word `case`, without fields and without a parent; a constructor is a
/// case class or a case object; any other class or trait is `Other`.
#[derive(Clone, Copy)]
pub enum Decl<'a> {
    Root(ClassDecl<'a>),
    Ctor(ClassDecl<'a>),
    Other(ClassDecl<'a>),
    Def(DefDecl<'a>),
}

/// The import `X._` of an object: the object's name, and the offset of that name.
#[derive(Clone, Copy)]
pub struct Import<'a> {
    pub name: &'a str,
    pub at: u32,
}

/// What one source spells: its imports but for those of `stainless` and `leon`, the names of its objects, and the
/// declarations of these, in order.
#[derive(Clone, Copy)]
pub struct Unit<'a> {
    pub imports: &'a [Import<'a>],
    pub objects: &'a [&'a str],
    pub decls: &'a [Decl<'a>],
}
