//! Patterns.

/// A pattern, the offset of its first token, and the name that it binds. A name that binds alone is `Any` with a name.
#[cycle(pattern)]
#[derive(Clone, Copy)]
pub struct Pattern<'a> {
    pub at: u32,
    pub name: Option<&'a str>,
    pub kind: PatternKind<'a>,
}

/// What a pattern is, but for the name that it binds. A constructor's name without parentheses is `Ctor` without
/// fields.
#[cycle(pattern)]
#[derive(Clone, Copy)]
pub enum PatternKind<'a> {
    Any,
    Int(i32),
    Bool(bool),
    Ctor(&'a str, &'a [Pattern<'a>]),
}
