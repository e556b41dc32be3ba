//! The steps in postconditions.

ghost use Rattle.std.specs.Prelude.{◌∷◌};
ghost use Rattle.pp_tokens.specs.Spans.{IsSpan};
ghost use Rattle.pp_grammar.specs.Frames.{claiming_hole, round};
ghost use Rattle.pp_grammar.specs.StepBodies.{on_late_name, on_late_round};
ghost use Rattle.pp_grammar.specs.StepExprs.{on_int, on_want};
ghost use Rattle.pp_grammar.specs.Words.{role};
ghost use Rattle.pp_parse_state.specs.declared.mode.Mode.TheVariants.{AfterClaim, AfterEnsuring, AfterLambdaClosed};
ghost use Rattle.pp_parse_state.specs.declared.mode.Mode.TheVariants.{AfterLambdaName, AfterLambdaRound};
ghost use Rattle.pp_parse_state.specs.declared.mode.Mode.TheVariants.{AfterLambdaRoundName, AfterLambdaTyped};
ghost use Rattle.pp_parse_state.specs.declared.mode.Mode.TheVariants.{WantLambda, WantLambdaOrSemi};
ghost use Rattle.pp_parse_state.specs.Shown.{Moves, frames, name_on, shown, step_in, under_name};
ghost use Rattle.pp_parse_state.specs.Words.{role_of};

use pp_parse_exprs::claims::on_claim_brace;
use pp_parse_exprs::names::{on_bare_name, on_int, on_name};
use pp_parse_exprs::operands::on_want;
use pp_parse_frames::contracts::misplaced_name;
use pp_parse_frames::opening::{behind_word, open};
use pp_parse_state::words::{Role, classify};
use pp_parse_state::{Around, Current, Frame, Mode, Move, Stack, Stop};
use pp_tokens::{Bracket, Operator, TokenKind};

/// Behind `ensuring`.
pub fn on_after_ensuring<'a>(
    cx: &Current<'a, '_>,
    stack: &mut Stack<'a>,
    at: u32,
) -> Result<Move, Stop<'a>>
    requires { IsSpan cx.now.text.now cx.now.token }
    ensures { Moves result stack.new (step_in cx.now.text.now cx.now.token (AfterEnsuring at) (shown stack.old)) }
{
    match cx.token.kind {
        TokenKind::Mark(Bracket::OpenRound) => {
            open(
                stack,
                Frame::PostOf(at, Around::Parentheses),
                Mode::WantLambda,
            )
        }
        TokenKind::Mark(Bracket::OpenBrace) => {
            open(
                stack,
                Frame::PostOf(at, Around::Braces),
                Mode::WantLambdaOrSemi,
            )
        }
        _ => Err(cx.refuse()),
    }
}

/// A claim with a hole begins.
fn on_claim<'a>(cx: &Current<'a, '_>, stack: &mut Stack<'a>) -> Result<Move, Stop<'a>>
    requires { IsSpan cx.now.text.now cx.now.token }
    ensures { Moves result stack.new (on_want cx.now.text.now cx.now.token (claiming_hole ∷ frames stack.old)
        cx.now.token.kind) }
{
    stack.push(Frame::ClaimingHole)?;
    on_want(cx, stack)
}

/// A lambda is wanted.
pub fn on_want_lambda<'a>(cx: &Current<'a, '_>, stack: &mut Stack<'a>) -> Result<Move, Stop<'a>>
    requires { IsSpan cx.now.text.now cx.now.token }
    ensures { Moves result stack.new (step_in cx.now.text.now cx.now.token WantLambda (shown stack.old)) }
{
    if cx.is_name() {
        return behind_word(cx, stack, Mode::AfterLambdaName(cx.token.from));
    }
    if cx.opens_round() {
        return Ok(Move::Go(Mode::AfterLambdaRound));
    }
    on_claim(cx, stack)
}

/// A lambda is wanted, and semis may stand before it.
pub fn on_want_lambda_or_semi<'a>(
    cx: &Current<'a, '_>,
    stack: &mut Stack<'a>,
) -> Result<Move, Stop<'a>>
    requires { IsSpan cx.now.text.now cx.now.token }
    ensures { Moves result stack.new (step_in cx.now.text.now cx.now.token WantLambdaOrSemi (shown stack.old)) }
{
    match cx.token.kind {
        TokenKind::Newline | TokenKind::Mark(Bracket::Semicolon) => {
            Ok(Move::Go(Mode::WantLambdaOrSemi))
        }
        _ => on_want_lambda(cx, stack),
    }
}

/// `Int` is the first operand of a claim with a hole: its name is no part of what is read on.
fn on_late_int<'a>(cx: &Current<'a, '_>, stack: &mut Stack<'a>, at: u32) -> Result<Move, Stop<'a>>
    requires { IsSpan cx.now.text.now cx.now.token }
    ensures { Moves result stack.new (on_int cx.now.text.now cx.now.token (under_name (shown stack.old)) at
        cx.now.token.kind) }
{
    stack.take_name();
    on_int(cx, at)
}

/// The name on the stack, which was read before, is the first operand of a claim with a hole.
fn on_late_name<'a>(
    cx: &Current<'a, '_>,
    stack: &mut Stack<'a>,
    at: u32,
    role: Role,
) -> Result<Move, Stop<'a>>
    requires { IsSpan cx.now.text.now cx.now.token }
    ensures { Moves result stack.new (on_late_name cx.now.text.now cx.now.token (under_name (shown stack.old)) at
        (name_on (shown stack.old)) (role_of role) cx.now.token.kind) }
{
    match role {
        Role::Plain => on_name(cx, stack, at),
        Role::Int => on_late_int(cx, stack, at),
        _ => Err(misplaced_name(at, stack.name(), role)),
    }
}

/// The name on the stack, which was read before, begins a claim with a hole.
fn on_claim_name<'a>(cx: &Current<'a, '_>, stack: &mut Stack<'a>, at: u32) -> Result<Move, Stop<'a>>
    requires { IsSpan cx.now.text.now cx.now.token }
    ensures { Moves result stack.new (on_late_name cx.now.text.now cx.now.token
        (claiming_hole ∷ under_name (shown stack.old)) at (name_on (shown stack.old))
        (role (name_on (shown stack.old))) cx.now.token.kind) }
{
    stack.push(Frame::ClaimingHole)?;
    on_late_name(cx, stack, at, classify(stack.name()))
}

/// Behind the first name of a lambda.
pub fn on_lambda_name<'a>(
    cx: &Current<'a, '_>,
    stack: &mut Stack<'a>,
    at: u32,
) -> Result<Move, Stop<'a>>
    requires { IsSpan cx.now.text.now cx.now.token }
    ensures { Moves result stack.new (step_in cx.now.text.now cx.now.token (AfterLambdaName at) (shown stack.old)) }
{
    if cx.is_arrow() {
        stack.put_given_type(None)?;
        return open(stack, Frame::Claiming, Mode::Want);
    }
    if cx.is_colon() {
        return open(stack, Frame::ResultNameType, Mode::WantType);
    }
    on_claim_name(cx, stack, at)
}

/// A claim with a hole begins with a round bracket.
fn on_round_claim<'a>(cx: &Current<'a, '_>, stack: &mut Stack<'a>) -> Result<Move, Stop<'a>>
    requires { IsSpan cx.now.text.now cx.now.token }
    ensures { Moves result stack.new (on_want cx.now.text.now cx.now.token (round ∷ claiming_hole ∷ frames stack.old)
        cx.now.token.kind) }
{
    stack.push(Frame::ClaimingHole)?;
    stack.push(Frame::Round)?;
    on_want(cx, stack)
}

/// Behind the first `(` of a lambda.
pub fn on_lambda_round<'a>(cx: &Current<'a, '_>, stack: &mut Stack<'a>) -> Result<Move, Stop<'a>>
    requires { IsSpan cx.now.text.now cx.now.token }
    ensures { Moves result stack.new (step_in cx.now.text.now cx.now.token AfterLambdaRound (shown stack.old)) }
{
    if cx.is_name() {
        return behind_word(cx, stack, Mode::AfterLambdaRoundName(cx.token.from));
    }
    on_round_claim(cx, stack)
}

/// The name on the stack, which was read before, begins, behind a round bracket, a claim with a hole.
fn on_round_claim_name<'a>(
    cx: &Current<'a, '_>,
    stack: &mut Stack<'a>,
    at: u32,
) -> Result<Move, Stop<'a>>
    requires { IsSpan cx.now.text.now cx.now.token }
    ensures { Moves result stack.new (on_late_name cx.now.text.now cx.now.token
        (round ∷ claiming_hole ∷ under_name (shown stack.old)) at (name_on (shown stack.old))
        (role (name_on (shown stack.old))) cx.now.token.kind) }
{
    stack.push(Frame::ClaimingHole)?;
    stack.push(Frame::Round)?;
    on_late_name(cx, stack, at, classify(stack.name()))
}

/// Behind `(` and a name of a lambda.
pub fn on_lambda_round_name<'a>(
    cx: &Current<'a, '_>,
    stack: &mut Stack<'a>,
    at: u32,
) -> Result<Move, Stop<'a>>
    requires { IsSpan cx.now.text.now cx.now.token }
    ensures { Moves result stack.new (step_in cx.now.text.now cx.now.token (AfterLambdaRoundName at) (shown stack.old)) }
{
    if cx.closes_round() {
        return Ok(Move::Go(Mode::AfterLambdaClosed(at)));
    }
    if cx.is_colon() {
        return open(stack, Frame::ResultNameTypeInRound, Mode::WantType);
    }
    on_round_claim_name(cx, stack, at)
}

/// `(NAME)` was the first operand of a claim with a hole.
fn on_late_round<'a>(
    cx: &Current<'a, '_>,
    stack: &mut Stack<'a>,
    at: u32,
    role: Role,
) -> Result<Move, Stop<'a>>
    requires { IsSpan cx.now.text.now cx.now.token }
    ensures { Moves result stack.new (on_late_round cx.now.text.now cx.now.token (under_name (shown stack.old)) at
        (name_on (shown stack.old)) (role_of role) cx.now.token.kind) }
{
    match role {
        Role::Plain => on_bare_name(cx, stack, at),
        _ => Err(misplaced_name(at, stack.name(), role)),
    }
}

/// `(NAME)` begins a claim with a hole.
fn on_claim_round<'a>(
    cx: &Current<'a, '_>,
    stack: &mut Stack<'a>,
    at: u32,
) -> Result<Move, Stop<'a>>
    requires { IsSpan cx.now.text.now cx.now.token }
    ensures { Moves result stack.new (on_late_round cx.now.text.now cx.now.token
        (claiming_hole ∷ under_name (shown stack.old)) at (name_on (shown stack.old))
        (role (name_on (shown stack.old))) cx.now.token.kind) }
{
    stack.push(Frame::ClaimingHole)?;
    on_late_round(cx, stack, at, classify(stack.name()))
}

/// Behind `(NAME)` of a lambda.
pub fn on_lambda_closed<'a>(
    cx: &Current<'a, '_>,
    stack: &mut Stack<'a>,
    at: u32,
) -> Result<Move, Stop<'a>>
    requires { IsSpan cx.now.text.now cx.now.token }
    ensures { Moves result stack.new (step_in cx.now.text.now cx.now.token (AfterLambdaClosed at) (shown stack.old)) }
{
    if cx.is_arrow() {
        stack.put_given_type(None)?;
        return open(stack, Frame::Claiming, Mode::Want);
    }
    on_claim_round(cx, stack, at)
}

/// Behind `(NAME: TYPE)` of a lambda.
pub fn on_lambda_typed<'a>(cx: &Current<'a, '_>, stack: &mut Stack<'a>) -> Result<Move, Stop<'a>>
    requires { IsSpan cx.now.text.now cx.now.token }
    ensures { Moves result stack.new (step_in cx.now.text.now cx.now.token AfterLambdaTyped (shown stack.old)) }
{
    match cx.token.kind {
        TokenKind::Op(Operator::Arrow) => {
            let of = stack.take_type();
            stack.put_given_type(Some(of))?;
            open(stack, Frame::Claiming, Mode::Want)
        }
        _ => Err(cx.refuse()),
    }
}

/// Behind a claim in braces, and semis.
pub fn on_after_claim<'a>(cx: &Current<'a, '_>, stack: &mut Stack<'a>) -> Result<Move, Stop<'a>>
    requires { IsSpan cx.now.text.now cx.now.token }
    ensures { Moves result stack.new (step_in cx.now.text.now cx.now.token AfterClaim (shown stack.old)) }
{
    match cx.token.kind {
        TokenKind::Newline | TokenKind::Mark(Bracket::Semicolon) => Ok(Move::Go(Mode::AfterClaim)),
        TokenKind::Mark(Bracket::CloseBrace) => on_claim_brace(cx, stack),
        _ => Err(cx.refuse()),
    }
}
