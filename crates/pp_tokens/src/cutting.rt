//! The first pass: characters cut into parts.

ghost use Rattle.std.specs.Prelude.{◌≡◌, ◌++◌, ◌<◌, ◌^◌, MatchResult, OnOk};
ghost use Rattle.pp_tokens.specs.Characters.{width};
ghost use Rattle.pp_tokens.specs.Cutting.{placed, fault_at, IsCutResult};

use crate::characters::width;
use crate::front::{Fault, Front, at_front};
use crate::token::{LexFault, Token, TokenKind};
use std::alloc::{AllocError, Global};

/// The fault at the offset.
fn fault_at(fault: Fault, at: u32) -> LexFault
    ensures { result ≡ fault_at fault at }
{
    match fault {
        Fault::BadChar => LexFault::BadChar(at),
        Fault::BadNumber => LexFault::BadNumber(at),
        Fault::OpenComment => LexFault::OpenComment(at),
    }
}

/// Puts the token of these offsets behind the others, where there is one.
fn put(out: &mut Vec<Token>, kind: Option<TokenKind>, from: u32, to: u32) -> Result<(), AllocError>
    ensures { OnOk result (out.new.items ≡ out.old.items ++ placed kind from to) }
{
    if let Some(kind) = kind {
        out.push(Token { kind, from, to })?;
    }
    Ok(())
}

/// The tokens of the characters, with one for each line feed that no comment holds.
pub(crate) fn cut(alloc: Global, cs: &[char]) -> Result<Vec<Token>, LexFault>
    requires { width cs.now < 2 ^ 32 }
    ensures { IsCutResult (λ v. v.items) result cs.now }
{
    let mut out = Vec::new(alloc);
    let mut rest = cs;
    let mut at: usize = 0;
    while rest.len() > 0 {
        match at_front(rest) {
            Front::Takes(kind, n) => {
                let (text, behind) = rest.split_at(n);
                let to = at + width(text);
                put(&mut out, kind, at as u32, to as u32)?;
                at = to;
                rest = behind;
            }
            Front::Bad(fault) => return Err(fault_at(fault, at as u32)),
        }
    }
    put(&mut out, Some(TokenKind::End), at as u32, at as u32)?;
    Ok(out)
}
