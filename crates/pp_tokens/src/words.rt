//! The texts of reserved words, operators and marks.

ghost use Rattle.std.specs.Prelude.{◌≡◌};
ghost use Rattle.pp_tokens.specs.Words.{spells, word_text, word_of};

use crate::token::Reserved;

/// The reserved words.
const WORDS: [Reserved; 40] = [
    Reserved::Abstract,
    Reserved::Case,
    Reserved::Catch,
    Reserved::Class,
    Reserved::Def,
    Reserved::Do,
    Reserved::Else,
    Reserved::Extends,
    Reserved::False,
    Reserved::Final,
    Reserved::Finally,
    Reserved::For,
    Reserved::ForSome,
    Reserved::If,
    Reserved::Implicit,
    Reserved::Import,
    Reserved::Lazy,
    Reserved::Macro,
    Reserved::Match,
    Reserved::New,
    Reserved::Null,
    Reserved::Object,
    Reserved::Override,
    Reserved::Package,
    Reserved::Private,
    Reserved::Protected,
    Reserved::Return,
    Reserved::Sealed,
    Reserved::Super,
    Reserved::This,
    Reserved::Throw,
    Reserved::Trait,
    Reserved::Try,
    Reserved::True,
    Reserved::Type,
    Reserved::Val,
    Reserved::Var,
    Reserved::While,
    Reserved::With,
    Reserved::Yield,
];

/// Whether the characters are those of the text, which is ASCII.
#[tactic(auto, using(crate::proofs::Spelling::spelling_steps))]
pub(crate) fn spells(cs: &[char], text: &str) -> bool
    ensures { result ≡ spells cs.now text.now }
{
    let bytes = text.as_bytes();
    if cs.len() != bytes.len() {
        return false;
    }
    for i in 0..cs.len() {
        if cs[i] != char::from(bytes[i]) {
            return false;
        }
    }
    true
}

impl Reserved {
    /// The text of the word.
    pub fn text(self) -> &'static str
        ensures { result.now ≡ word_text self }
    {
        match self {
            Reserved::Abstract => "abstract",
            Reserved::Case => "case",
            Reserved::Catch => "catch",
            Reserved::Class => "class",
            Reserved::Def => "def",
            Reserved::Do => "do",
            Reserved::Else => "else",
            Reserved::Extends => "extends",
            Reserved::False => "false",
            Reserved::Final => "final",
            Reserved::Finally => "finally",
            Reserved::For => "for",
            Reserved::ForSome => "forSome",
            Reserved::If => "if",
            Reserved::Implicit => "implicit",
            Reserved::Import => "import",
            Reserved::Lazy => "lazy",
            Reserved::Macro => "macro",
            Reserved::Match => "match",
            Reserved::New => "new",
            Reserved::Null => "null",
            Reserved::Object => "object",
            Reserved::Override => "override",
            Reserved::Package => "package",
            Reserved::Private => "private",
            Reserved::Protected => "protected",
            Reserved::Return => "return",
            Reserved::Sealed => "sealed",
            Reserved::Super => "super",
            Reserved::This => "this",
            Reserved::Throw => "throw",
            Reserved::Trait => "trait",
            Reserved::Try => "try",
            Reserved::True => "true",
            Reserved::Type => "type",
            Reserved::Val => "val",
            Reserved::Var => "var",
            Reserved::While => "while",
            Reserved::With => "with",
            Reserved::Yield => "yield",
        }
    }
}

/// The reserved word with these characters, if there is one.
pub(crate) fn word_of(cs: &[char]) -> Option<Reserved>
    ensures { result ≡ word_of cs.now }
{
    WORDS.iter().copied().find(|word| spells(cs, word.text()))
}
