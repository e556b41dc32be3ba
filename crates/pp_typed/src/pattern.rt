//! Typed patterns.

use pp_list::Items;

/// A pattern: its source from 1, the offset of its first token, and whether it binds its value to a local.
#[cycle(typed_pattern)]
#[derive(Drop)]
pub struct TypedPattern {
    pub source: u32,
    pub at: u32,
    pub binds: bool,
    pub kind: TypedPatternKind,
}

/// What a pattern is. `Ctor` names a constructor by its place among the constructors.
#[cycle(typed_pattern)]
#[derive(Drop)]
pub enum TypedPatternKind {
    Any,
    Int(i32),
    Bool(bool),
    Ctor(u32, Items<TypedPattern>),
}

/// A list of patterns.
pub type TypedPatterns = Items<TypedPattern>;
