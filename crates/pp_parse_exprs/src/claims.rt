//! The steps behind a claim, a requirement or a measure.

ghost use Rattle.pp_tokens.specs.Spans.{IsSpan};
ghost use Rattle.pp_grammar.specs.StepExprs.{on_claim_brace, on_claim_round, on_claim_semi, on_hole_end, on_measured};
ghost use Rattle.pp_grammar.specs.StepExprs.{on_required};
ghost use Rattle.pp_parse_state.specs.declared.frame.Frame.TheVariants.{ClaimingHole};
ghost use Rattle.pp_parse_state.specs.Parts.{top_expr_list, top_given_type};
ghost use Rattle.pp_parse_state.specs.Shown.{Moves, expr_on, frames_of, name_on, shown, under_expr, with_frame};
ghost use Rattle.pp_parse_state.specs.Shown.{without_expr_list};
ghost use Rattle.pp_parse_frames.specs.Taken.{under_claim};

use pp_parse_frames::contracts::{RES, add_measure, add_requirement, claim};
use pp_parse_frames::opening::open;
use pp_parse_state::{Around, Current, Frame, Mode, Move, Stack, Stop};
use pp_tokens::{Bracket, TokenKind};

/// The claim of a postcondition in round brackets ends.
pub fn on_claim_round<'a>(cx: &Current<'a, '_>, stack: &mut Stack<'a>) -> Result<Move, Stop<'a>>
    requires { IsSpan cx.now.text.now cx.now.token }
    ensures { Moves result stack.new (on_claim_round cx.now.text.now cx.now.token
        (under_claim (shown stack.old)) (name_on (shown stack.old)) (top_given_type (shown stack.old).parts)
        (expr_on (shown stack.old))) }
{
    match stack.pop() {
        Some(Frame::PostOf(at, Around::Parentheses)) => {
            claim(stack, at)?;
            Ok(Move::Go(Mode::AfterBody))
        }
        _ => Err(cx.refuse()),
    }
}

/// The claim of a postcondition in braces ends.
pub fn on_claim_brace<'a>(cx: &Current<'a, '_>, stack: &mut Stack<'a>) -> Result<Move, Stop<'a>>
    requires { IsSpan cx.now.text.now cx.now.token }
    ensures { Moves result stack.new (on_claim_brace cx.now.text.now cx.now.token
        (under_claim (shown stack.old)) (name_on (shown stack.old)) (top_given_type (shown stack.old).parts)
        (expr_on (shown stack.old))) }
{
    match stack.pop() {
        Some(Frame::PostOf(at, Around::Braces)) => {
            claim(stack, at)?;
            Ok(Move::Go(Mode::AfterBody))
        }
        _ => Err(cx.refuse()),
    }
}

/// A newline or a semicolon behind the claim of a postcondition in braces.
pub fn on_claim_semi<'a>(cx: &Current<'a, '_>, stack: &mut Stack<'a>) -> Result<Move, Stop<'a>>
    requires { IsSpan cx.now.text.now cx.now.token }
    ensures { Moves result stack.new (on_claim_semi cx.now.text.now cx.now.token
        (under_claim (shown stack.old)) (name_on (shown stack.old)) (top_given_type (shown stack.old).parts)
        (expr_on (shown stack.old))) }
{
    match stack.pop() {
        Some(Frame::PostOf(at, Around::Braces)) => {
            open(stack, Frame::PostOf(at, Around::Braces), Mode::AfterClaim)
        }
        _ => Err(cx.refuse()),
    }
}

/// `require(..)` is read.
pub fn on_required<'a>(cx: &Current<'a, '_>, stack: &mut Stack<'a>) -> Result<Move, Stop<'a>>
    requires { IsSpan cx.now.text.now cx.now.token }
    ensures { Moves result stack.new (on_required cx.now.text.now cx.now.token (under_expr (shown stack.old))
        (expr_on (shown stack.old))) }
{
    match stack.pop() {
        Some(Frame::HeadBraces) => {
            add_requirement(stack)?;
            open(stack, Frame::HeadBraces, Mode::AfterStat)
        }
        _ => Err(cx.refuse()),
    }
}

/// `decreases(..)` is read, with its components.
pub fn on_measured<'a>(
    cx: &Current<'a, '_>,
    stack: &mut Stack<'a>,
    at: u32,
) -> Result<Move, Stop<'a>>
    requires { IsSpan cx.now.text.now cx.now.token }
    ensures { Moves result stack.new (on_measured cx.now.text.now cx.now.token
        (frames_of (without_expr_list (shown stack.old))) at (top_expr_list (shown stack.old).parts)) }
{
    match stack.pop() {
        Some(Frame::HeadBraces) => {
            add_measure(stack, at)?;
            open(stack, Frame::HeadBraces, Mode::AfterStat)
        }
        _ => Err(cx.refuse()),
    }
}

/// An expression with the hole ends: it is a claim.
pub fn on_hole_end<'a>(cx: &Current<'a, '_>, stack: &mut Stack<'a>) -> Result<Move, Stop<'a>>
    requires { IsSpan cx.now.text.now cx.now.token }
    ensures { Moves result stack.new (on_hole_end cx.now.text.now cx.now.token (under_expr (shown stack.old))
        (expr_on (shown stack.old)) cx.now.token.kind) }
{
    match stack.pop() {
        Some(Frame::ClaimingHole) => on_hole_claim(cx, stack),
        _ => Err(cx.refuse()),
    }
}

/// The claim with a hole ends.
fn on_hole_claim<'a>(cx: &Current<'a, '_>, stack: &mut Stack<'a>) -> Result<Move, Stop<'a>>
    requires { IsSpan cx.now.text.now cx.now.token }
    ensures { Moves result stack.new (on_hole_end cx.now.text.now cx.now.token
        (under_expr (with_frame ClaimingHole (shown stack.old))) (expr_on (shown stack.old)) cx.now.token.kind) }
{
    stack.put_name(RES)?;
    stack.put_given_type(None)?;
    match cx.token.kind {
        TokenKind::Mark(Bracket::CloseRound) => on_claim_round(cx, stack),
        TokenKind::Mark(Bracket::CloseBrace) => on_claim_brace(cx, stack),
        TokenKind::Mark(Bracket::Semicolon) | TokenKind::Newline => on_claim_semi(cx, stack),
        _ => Err(cx.refuse()),
    }
}
