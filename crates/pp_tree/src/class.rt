//! Classes, traits and case objects.

use crate::TypeText;

/// A parameter or a field: its name, the offset of that name, and its type.
#[derive(Clone, Copy)]
pub struct Param<'a> {
    pub at: u32,
    pub name: &'a str,
    pub of: TypeText<'a>,
}

/// A class, a trait or a case object: its name, the offset of that name, its type parameters, its fields, and the type
/// that it extends.
#[derive(Clone, Copy)]
pub struct ClassDecl<'a> {
    pub at: u32,
    pub name: &'a str,
    pub params: &'a [&'a str],
    pub fields: &'a [Param<'a>],
    pub parent: Option<TypeText<'a>>,
    pub object: bool,
}
