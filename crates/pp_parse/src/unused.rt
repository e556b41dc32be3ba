//! Reserved words that the grammar doesn't use.

ghost use Rattle.std.specs.Prelude.{◌≡◌};
ghost use Rattle.pp_grammar.specs.LeftOut.{first_unused, is_unused, is_used};

use pp_tokens::{Reserved, Token, TokenKind};

/// Whether the grammar uses the reserved word.
fn is_used(word: Reserved) -> bool
    ensures { result ≡ is_used word }
{
    match word {
        Reserved::Abstract | Reserved::Case | Reserved::Class | Reserved::Def => true,
        Reserved::Else | Reserved::Extends | Reserved::False | Reserved::Final => true,
        Reserved::If | Reserved::Import | Reserved::Match | Reserved::Object => true,
        Reserved::Package | Reserved::Sealed | Reserved::Trait | Reserved::True => true,
        Reserved::Val => true,
        _ => false,
    }
}

/// Whether the token is a reserved word that the grammar doesn't use.
fn is_unused(kind: TokenKind) -> bool
    ensures { result ≡ is_unused kind }
{
    match kind {
        TokenKind::Word(word) => !is_used(word),
        _ => false,
    }
}

/// The first of the tokens that is such a word.
pub(crate) fn first_unused(tokens: &[Token]) -> Option<Token>
    ensures { result ≡ first_unused tokens.now }
{
    for t in tokens {
        if is_unused(t.kind) {
            return Some(*t);
        }
    }
    None
}
