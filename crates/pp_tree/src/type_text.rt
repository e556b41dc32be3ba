//! Types as they are written.

/// A type as it is written: its name, the offset of that name, and its arguments.
#[cycle(type_text)]
#[derive(Clone, Copy)]
pub struct TypeText<'a> {
    pub at: u32,
    pub name: &'a str,
    pub args: &'a [TypeText<'a>],
}
