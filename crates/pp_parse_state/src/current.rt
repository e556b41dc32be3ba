//! The token at which the parser is, and what it works with.

ghost use Rattle.std.specs.Prelude.{◌≡◌, IfOk, MatchBool};
ghost use Rattle.pp_tokens.specs.declared.token.Bracket.TheVariants.{CloseRound, OpenRound};
ghost use Rattle.pp_tokens.specs.declared.token.Operator.TheVariants.{Arrow, Colon};
ghost use Rattle.pp_tokens.specs.declared.token.TokenKind.TheVariants.{Mark, Name, Op};
ghost use Rattle.pp_tokens.specs.Spans.{IsSpan};
ghost use Rattle.pp_grammar.specs.Words.{role, word};
ghost use Rattle.pp_grammar.specs.Frames.{stop, unsupported_at};
ghost use Rattle.pp_grammar.specs.StepTypes.{refuse};
ghost use Rattle.pp_parse_state.specs.Shown.{Stops};
ghost use Rattle.pp_parse_state.specs.Words.{role_of};

use crate::words::{Role, classify};
use crate::{NoMemory, Stop};
use bumpalo::Bump;
use pp_tokens::{Bracket, Operator, Token, TokenKind};
use std::alloc::Global;

/// The token at which the parser is, the text in which it stands, and the arena in which the trees are built.
#[derive(Clone, Copy)]
pub struct Current<'a, 't> {
    pub alloc: Global,
    pub arena: &'a Bump,
    pub text: &'t str,
    pub token: Token,
}

impl<'a, 't> Current<'a, 't> {
    /// The token's text.
    pub fn text(&self) -> &'t str
        requires { IsSpan self.now.text.now self.now.token }
        ensures { result.now ≡ word self.now.text.now self.now.token }
    {
        &self.text[self.token.from as usize..self.token.to as usize]
    }

    /// The token's text, in the arena.
    pub fn word(&self) -> Result<&'a str, NoMemory>
        requires { IsSpan self.now.text.now self.now.token }
        ensures { IfOk result (λ w. w.now ≡ word self.now.text.now self.now.token) }
    {
        self.arena.try_alloc_str(self.text())
    }

    /// What the token means as a name.
    pub fn role(&self) -> Role
        requires { IsSpan self.now.text.now self.now.token }
        ensures { role_of result ≡ role (word self.now.text.now self.now.token) }
    {
        classify(self.text())
    }

    /// Whether the token is a name.
    pub fn is_name(&self) -> bool
        ensures { MatchBool result (self.now.token.kind ≡ Name) (¬ (self.now.token.kind ≡ Name)) }
    {
        matches!(self.token.kind, TokenKind::Name)
    }

    /// Whether the token is `=>`.
    pub fn is_arrow(&self) -> bool
        ensures { MatchBool result (self.now.token.kind ≡ Op Arrow) (¬ (self.now.token.kind ≡ Op Arrow)) }
    {
        matches!(self.token.kind, TokenKind::Op(Operator::Arrow))
    }

    /// Whether the token is a colon.
    pub fn is_colon(&self) -> bool
        ensures { MatchBool result (self.now.token.kind ≡ Op Colon) (¬ (self.now.token.kind ≡ Op Colon)) }
    {
        matches!(self.token.kind, TokenKind::Op(Operator::Colon))
    }

    /// Whether the token is a round bracket that opens.
    pub fn opens_round(&self) -> bool
        ensures { MatchBool result (self.now.token.kind ≡ Mark OpenRound) (¬ (self.now.token.kind ≡ Mark OpenRound)) }
    {
        matches!(self.token.kind, TokenKind::Mark(Bracket::OpenRound))
    }

    /// Whether the token is a round bracket that closes.
    pub fn closes_round(&self) -> bool
        ensures { MatchBool result (self.now.token.kind ≡ Mark CloseRound) (¬ (self.now.token.kind ≡ Mark CloseRound)) }
    {
        matches!(self.token.kind, TokenKind::Mark(Bracket::CloseRound))
    }

    /// The refusal of the token, a name that the language leaves out.
    pub fn unsupported(&self) -> Stop<'a>
        requires { IsSpan self.now.text.now self.now.token }
        ensures { Stops result (stop (unsupported_at (word self.now.text.now self.now.token) self.now.token.from)) }
    {
        match self.word() {
            Ok(word) => Stop::Unsupported(word, self.token.from),
            Err(_) => Stop::Memory,
        }
    }

    /// The refusal of the token, which can't stand here. A name `require` or `decreases` is unsupported wherever the
    /// grammar doesn't show it.
    pub fn refuse(&self) -> Stop<'a>
        requires { IsSpan self.now.text.now self.now.token }
        ensures { Stops result (refuse self.now.text.now self.now.token) }
    {
        if self.token.kind != TokenKind::Name {
            return Stop::Syntax(self.token.from);
        }
        match self.role() {
            Role::Require | Role::Decreases => self.unsupported(),
            _ => Stop::Syntax(self.token.from),
        }
    }
}
