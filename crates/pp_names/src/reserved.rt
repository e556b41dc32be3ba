//! The words that can't be declared.

ghost use Rattle.std.specs.Prelude.{◌≡◌};
ghost use Rattle.pp_names.specs.Reserved.{is_reserved};

/// Whether the word can't be declared.
pub fn is_reserved(word: &str) -> bool
    ensures { result ≡ is_reserved word.now }
{
    matches!(
        word,
        "require" | "ensuring" | "holds" | "decreases" | "assert" | "Int" | "Boolean"
    )
}
