//! The tokens of a source.
//!
//! [`tokens`] cuts a text into white space, comments and tokens, with the longest part at each place, and keeps the
//! line feeds that end a statement. `specs/Front.antt` says what stands at the front of characters,
//! `specs/Cutting.antt` how a text is cut, `specs/Newlines.antt` which line feeds are tokens, and `specs/Tokens.antt`
//! what the call answers. `specs/Layout.antt` is the law above them: the parts put together give the text, and each is
//! right where it stands. The two passes and the list of characters between them may change freely.
#![tactic(auto)]

mod characters;
mod comments;
mod cutting;
mod front;
mod lex;
mod newlines;
mod numbers;
mod operators;
mod token;
mod words;

pub use lex::tokens;
pub use token::{Bracket, LexFault, Operator, Reserved, Token, TokenKind};
