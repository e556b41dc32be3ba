//! Tokens, and why a text has none.

ghost use Rattle.std.specs.Prelude.{◌≡◌};

use std::alloc::AllocError;

/// A token, and where it stands: from the offset `from` up to the offset `to`, in bytes from 0.
#[derive(Clone, Copy, Debug, PartialEq, Eq)]
pub struct Token {
    pub kind: TokenKind,
    pub from: u32,
    pub to: u32,
}

/// What a token is.
#[derive(Clone, Copy, Debug, PartialEq, Eq)]
pub enum TokenKind {
    /// A name that is no reserved word.
    Name,
    /// A reserved word.
    Word(Reserved),
    /// A decimal number, at most 2147483648.
    Number(u32),
    /// A hexadecimal number: its 32 bits, read as two's complement.
    Hex(u32),
    /// An operator.
    Op(Operator),
    /// A bracket or another mark.
    Mark(Bracket),
    /// An underscore alone.
    Hole,
    /// A newline that ends a statement: the first line feed between the two tokens.
    Newline,
    /// The end of the text, the last token of each.
    End,
}

/// The reserved words (Scala Language Specification 2.13, 1.1).
#[derive(Clone, Copy, Debug, PartialEq, Eq)]
pub enum Reserved {
    Abstract,
    Case,
    Catch,
    Class,
    Def,
    Do,
    Else,
    Extends,
    False,
    Final,
    Finally,
    For,
    ForSome,
    If,
    Implicit,
    Import,
    Lazy,
    Macro,
    Match,
    New,
    Null,
    Object,
    Override,
    Package,
    Private,
    Protected,
    Return,
    Sealed,
    Super,
    This,
    Throw,
    Trait,
    Try,
    True,
    Type,
    Val,
    Var,
    While,
    With,
    Yield,
}

/// The operators.
#[derive(Clone, Copy, Debug, PartialEq, Eq)]
pub enum Operator {
    /// `+`
    Plus,
    /// `-`
    Minus,
    /// `*`
    Times,
    /// `/`
    Over,
    /// `%`
    Percent,
    /// `==`
    Equal,
    /// `!=`
    Differs,
    /// `<`
    Less,
    /// `<=`
    AtMost,
    /// `>`
    More,
    /// `>=`
    AtLeast,
    /// `&&`
    AndAlso,
    /// `||`
    OrElse,
    /// `!`
    Not,
    /// `&`
    And,
    /// `|`
    Or,
    /// `^`
    Xor,
    /// `~`
    Flip,
    /// `<<`
    Shl,
    /// `>>`
    Shr,
    /// `>>>`
    Ushr,
    /// `=`
    Assign,
    /// `=>`
    Arrow,
    /// `:`
    Colon,
    /// `@`
    At,
}

/// The brackets and the other marks.
#[derive(Clone, Copy, Debug, PartialEq, Eq)]
pub enum Bracket {
    /// `(`
    OpenRound,
    /// `)`
    CloseRound,
    /// `[`
    OpenSquare,
    /// `]`
    CloseSquare,
    /// `{`
    OpenBrace,
    /// `}`
    CloseBrace,
    /// `,`
    Comma,
    /// `.`
    Dot,
    /// `;`
    Semicolon,
}

/// Why a text has no tokens. Each offset is that of the first lexical fault, in bytes from 0.
#[derive(Clone, Copy, Debug, PartialEq, Eq)]
pub enum LexFault {
    /// A character that begins no token, or a run of operator characters that is no operator.
    BadChar(u32),
    /// A number that is too great, has a leading zero, or is followed at once by what can't follow a number.
    BadNumber(u32),
    /// A block comment without an end, at its outermost `/*`.
    OpenComment(u32),
    /// There was no memory for the tokens.
    Memory,
}

impl From<AllocError> for LexFault {
    ghost use Rattle.pp_tokens.specs.declared.token.LexFault.TheVariants.{Memory};

    ghost from_gives = { λ _ fault. fault ≡ Memory };

    fn from(_error: AllocError) -> LexFault {
        LexFault::Memory
    }
}
