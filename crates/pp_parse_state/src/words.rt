//! Names with a meaning of their own.

ghost use Rattle.std.specs.Prelude.{◌≡◌};
ghost use Rattle.pp_grammar.specs.Words.{role, bound_of, is_library, is_known_annotation, binds};
ghost use Rattle.pp_parse_state.specs.Words.{role_of};

/// What a name may stand for in an expression.
#[derive(Clone, Copy, Debug, PartialEq, Eq)]
pub enum Role {
    Plain,
    Require,
    Decreases,
    Ensuring,
    Holds,
    Assert,
    Int,
    Boolean,
}

/// What the name may stand for in an expression.
pub fn classify(name: &str) -> Role
    ensures { role_of result ≡ role name.now }
{
    match name {
        "require" => Role::Require,
        "decreases" => Role::Decreases,
        "ensuring" => Role::Ensuring,
        "holds" => Role::Holds,
        "assert" => Role::Assert,
        "Int" => Role::Int,
        "Boolean" => Role::Boolean,
        _ => Role::Plain,
    }
}

/// The bound of `Int` with this name.
pub fn bound_of(name: &str) -> Option<i32>
    ensures { result ≡ bound_of name.now }
{
    match name {
        "MinValue" => Some(i32::MIN),
        "MaxValue" => Some(i32::MAX),
        _ => None,
    }
}

/// Whether a path that begins so is that of a library whose imports are passed over.
pub fn is_library(name: &str) -> bool
    ensures { result ≡ is_library name.now }
{
    matches!(name, "stainless" | "leon")
}

/// Whether the annotation is passed over.
pub fn is_known_annotation(name: &str) -> bool
    ensures { result ≡ is_known_annotation name.now }
{
    matches!(name, "induct" | "inline")
}

/// Whether the name binds in a pattern where no `(` follows: its first character is `a` to `z` or `_`.
pub fn binds(name: &str) -> bool
    ensures { result ≡ binds name.now }
{
    match name.as_bytes() {
        [] => false,
        [first, ..] => (b'a' <= *first && *first <= b'z') || *first == b'_',
    }
}
