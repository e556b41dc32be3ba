//! The steps behind a whole expression, at a token that ends it.

ghost use Rattle.pp_tokens.specs.Spans.{IsSpan};
ghost use Rattle.pp_grammar.specs.Joining.{seal};
ghost use Rattle.pp_grammar.specs.StepExprs.{on_brace_closed, on_case_ended, on_comma, on_end, on_expr_end};
ghost use Rattle.pp_grammar.specs.StepExprs.{on_head_closed, on_match_closed, on_next_case, on_round_closed};
ghost use Rattle.pp_grammar.specs.StepExprs.{on_sealed_brace, on_sealed_case, on_semi, on_semicolon};
ghost use Rattle.pp_parse_state.specs.Parts.{top_contracts};
ghost use Rattle.pp_parse_state.specs.Shown.{Moves, expr_on, frames_of, shown, under_expr, with_frame};
ghost use Rattle.pp_parse_state.specs.Shown.{without_contracts, without_expr};
ghost use Rattle.pp_parse_frames.specs.Taken.{case_on, under_case};

use crate::claims::{
    on_claim_brace, on_claim_round, on_claim_semi, on_hole_end, on_measured, on_required,
};
use crate::matches::on_else;
use pp_parse_frames::heads::def_ends;
use pp_parse_frames::lists::{apply, list_case, list_expr, whole_match};
use pp_parse_frames::opening::open;
use pp_parse_state::{Current, Frame, Mode, Move, Stack, Stop, seal};
use pp_tokens::{Bracket, Reserved, TokenKind};

/// A round bracket closes behind an expression.
fn on_round_closed<'a>(cx: &Current<'a, '_>, stack: &mut Stack<'a>) -> Result<Move, Stop<'a>>
    requires { IsSpan cx.now.text.now cx.now.token }
    ensures { Moves result stack.new (on_round_closed cx.now.text.now cx.now.token (under_expr (shown stack.old))
        (expr_on (shown stack.old))) }
{
    let Some(frame) = stack.pop() else {
        return Err(cx.refuse());
    };
    match frame {
        Frame::Round | Frame::TupleOrRound => Ok(Move::Go(Mode::Have(false))),
        Frame::Args(at) => {
            list_expr(stack)?;
            apply(cx, stack, at)?;
            Ok(Move::Go(Mode::Have(false)))
        }
        Frame::IfTest(at) => open(stack, Frame::IfThen(at), Mode::WantThen),
        Frame::Asserting(at) => open(stack, Frame::AfterAssert(at), Mode::AfterStat),
        Frame::Requiring => on_required(cx, stack),
        Frame::Measuring(at) => {
            list_expr(stack)?;
            on_measured(cx, stack, at)
        }
        Frame::InTuple => {
            list_expr(stack)?;
            Ok(Move::Go(Mode::AfterTuple))
        }
        Frame::Claiming => on_claim_round(cx, stack),
        _ => Err(cx.refuse()),
    }
}

/// A comma stands behind an expression.
fn on_comma<'a>(cx: &Current<'a, '_>, stack: &mut Stack<'a>) -> Result<Move, Stop<'a>>
    requires { IsSpan cx.now.text.now cx.now.token }
    ensures { Moves result stack.new (on_comma cx.now.text.now cx.now.token (under_expr (shown stack.old))
        (expr_on (shown stack.old))) }
{
    let Some(frame) = stack.pop() else {
        return Err(cx.refuse());
    };
    match frame {
        Frame::Args(_) | Frame::Measuring(_) | Frame::InTuple => {
            list_expr(stack)?;
            open(stack, frame, Mode::Want)
        }
        Frame::TupleOrRound => {
            stack.put_expr_list(Vec::new(cx.alloc))?;
            list_expr(stack)?;
            open(stack, Frame::InTuple, Mode::Want)
        }
        _ => Err(cx.refuse()),
    }
}

/// The braces at the head of a body are closed: with contracts they are no expression any more.
fn on_head_closed<'a>(cx: &Current<'a, '_>, stack: &mut Stack<'a>) -> Result<Move, Stop<'a>>
    requires { IsSpan cx.now.text.now cx.now.token }
    ensures { Moves result stack.new (on_head_closed cx.now.text.now cx.now.token
        (frames_of (without_contracts (without_expr (shown stack.old)))) (top_contracts (shown stack.old).parts)
        (top_contracts (shown stack.old).parts).first (expr_on (shown stack.old))) }
{
    match stack.pop() {
        Some(Frame::BodyOf) => {
            let contracts = stack.take_contracts();
            if contracts.first.is_none() {
                return open(stack, Frame::BodyOf, Mode::Have(false));
            }
            stack.take_contracts();
            stack.put_contracts(contracts)?;
            open(stack, Frame::BodyOf, Mode::HaveContracted)
        }
        _ => Err(cx.refuse()),
    }
}

/// The last case of a match is read.
fn on_match_closed<'a>(cx: &Current<'a, '_>, stack: &mut Stack<'a>) -> Result<Move, Stop<'a>>
    requires { IsSpan cx.now.text.now cx.now.token }
    ensures { Moves result stack.new (on_match_closed cx.now.text.now cx.now.token
        (under_case (shown stack.old)) (case_on (shown stack.old))) }
{
    match stack.pop() {
        Some(Frame::CasesOf(at)) => {
            list_case(cx, stack)?;
            whole_match(cx, stack, at)?;
            Ok(Move::Go(Mode::HaveMatched))
        }
        _ => Err(cx.refuse()),
    }
}

/// A case of a match is read, and the next one begins.
fn on_next_case<'a>(cx: &Current<'a, '_>, stack: &mut Stack<'a>) -> Result<Move, Stop<'a>>
    requires { IsSpan cx.now.text.now cx.now.token }
    ensures { Moves result stack.new (on_next_case cx.now.text.now cx.now.token
        (under_case (shown stack.old)) (case_on (shown stack.old))) }
{
    match stack.pop() {
        Some(Frame::CasesOf(at)) => {
            list_case(cx, stack)?;
            open(stack, Frame::CasesOf(at), Mode::WantPattern)
        }
        _ => Err(cx.refuse()),
    }
}

/// The expression is the last of a block, a body or a claim in braces.
fn on_brace_closed<'a>(cx: &Current<'a, '_>, stack: &mut Stack<'a>) -> Result<Move, Stop<'a>>
    requires { IsSpan cx.now.text.now cx.now.token }
    ensures { Moves result stack.new (on_brace_closed cx.now.text.now cx.now.token (under_expr (shown stack.old))
        (expr_on (shown stack.old))) }
{
    let Some(frame) = stack.pop() else {
        return Err(cx.refuse());
    };
    match frame {
        Frame::Braces => Ok(Move::Go(Mode::Have(false))),
        Frame::HeadBraces => on_head_closed(cx, stack),
        Frame::Arm => on_match_closed(cx, stack),
        Frame::Claiming => on_claim_brace(cx, stack),
        Frame::BodyOf => def_ends(cx, stack, None),
        _ => Err(cx.refuse()),
    }
}

/// The expression is the last of a case before another one.
fn on_case_ended<'a>(cx: &Current<'a, '_>, stack: &mut Stack<'a>) -> Result<Move, Stop<'a>>
    requires { IsSpan cx.now.text.now cx.now.token }
    ensures { Moves result stack.new (on_case_ended cx.now.text.now cx.now.token (under_expr (shown stack.old))
        (expr_on (shown stack.old))) }
{
    match stack.pop() {
        Some(Frame::Arm) => on_next_case(cx, stack),
        _ => Err(cx.refuse()),
    }
}

/// A semicolon or a newline behind an expression.
fn on_semi<'a>(cx: &Current<'a, '_>, stack: &mut Stack<'a>) -> Result<Move, Stop<'a>>
    requires { IsSpan cx.now.text.now cx.now.token }
    ensures { Moves result stack.new (on_semi cx.now.text.now cx.now.token (under_expr (shown stack.old))
        (expr_on (shown stack.old))) }
{
    match stack.pop() {
        Some(frame) => on_semi_above(cx, stack, frame),
        None => Err(cx.refuse()),
    }
}

/// A semicolon or a newline behind an expression, above the frame.
fn on_semi_above<'a>(
    cx: &Current<'a, '_>,
    stack: &mut Stack<'a>,
    frame: Frame,
) -> Result<Move, Stop<'a>>
    requires { IsSpan cx.now.text.now cx.now.token }
    ensures { Moves result stack.new (on_semi cx.now.text.now cx.now.token
        (under_expr (with_frame frame (shown stack.old))) (expr_on (shown stack.old))) }
{
    match frame {
        Frame::ValValue(at) => open(stack, Frame::AfterVal(at), Mode::WantStat),
        Frame::Claiming => on_claim_semi(cx, stack),
        Frame::BodyOf => def_ends(cx, stack, None),
        Frame::AfterVal(_)
        | Frame::AfterAssert(_)
        | Frame::Braces
        | Frame::HeadBraces
        | Frame::Arm => open(stack, frame, Mode::AfterLast),
        _ => Err(cx.refuse()),
    }
}

/// A semicolon behind an expression.
fn on_semicolon<'a>(cx: &Current<'a, '_>, stack: &mut Stack<'a>) -> Result<Move, Stop<'a>>
    requires { IsSpan cx.now.text.now cx.now.token }
    ensures { Moves result stack.new (on_semicolon cx.now.text.now cx.now.token (under_expr (shown stack.old))
        (expr_on (shown stack.old))) }
{
    let Some(frame) = stack.pop() else {
        return Err(cx.refuse());
    };
    match frame {
        Frame::IfThen(_) => open(stack, frame, Mode::WantElse),
        _ => on_semi_above(cx, stack, frame),
    }
}

/// A brace closes behind the last expression and the statements before it.
pub fn on_sealed_brace<'a>(cx: &Current<'a, '_>, stack: &mut Stack<'a>) -> Result<Move, Stop<'a>>
    requires { IsSpan cx.now.text.now cx.now.token }
    ensures { Moves result stack.new (on_sealed_brace cx.now.text.now cx.now.token
        (seal (under_expr (shown stack.old)) (expr_on (shown stack.old)))) }
{
    seal(cx.arena, stack)?;
    on_brace_closed(cx, stack)
}

/// Another case begins behind the last expression and the statements before it.
pub fn on_sealed_case<'a>(cx: &Current<'a, '_>, stack: &mut Stack<'a>) -> Result<Move, Stop<'a>>
    requires { IsSpan cx.now.text.now cx.now.token }
    ensures { Moves result stack.new (on_sealed_case cx.now.text.now cx.now.token
        (seal (under_expr (shown stack.old)) (expr_on (shown stack.old)))) }
{
    seal(cx.arena, stack)?;
    on_case_ended(cx, stack)
}

/// An expression without the hole ends.
fn on_expr_end<'a>(cx: &Current<'a, '_>, stack: &mut Stack<'a>) -> Result<Move, Stop<'a>>
    requires { IsSpan cx.now.text.now cx.now.token }
    ensures { Moves result stack.new (on_expr_end cx.now.text.now cx.now.token (under_expr (shown stack.old))
        (expr_on (shown stack.old)) cx.now.token.kind) }
{
    match cx.token.kind {
        TokenKind::Mark(Bracket::CloseRound) => on_round_closed(cx, stack),
        TokenKind::Mark(Bracket::Comma) => on_comma(cx, stack),
        TokenKind::Mark(Bracket::CloseBrace) => on_sealed_brace(cx, stack),
        TokenKind::Mark(Bracket::Semicolon) => on_semicolon(cx, stack),
        TokenKind::Newline => on_semi(cx, stack),
        TokenKind::Word(Reserved::Else) => on_else(cx, stack),
        TokenKind::Word(Reserved::Case) => on_sealed_case(cx, stack),
        _ => Err(cx.refuse()),
    }
}

/// An expression ends, with the hole or without it.
pub fn on_end<'a>(
    cx: &Current<'a, '_>,
    stack: &mut Stack<'a>,
    holed: bool,
) -> Result<Move, Stop<'a>>
    requires { IsSpan cx.now.text.now cx.now.token }
    ensures { Moves result stack.new (on_end cx.now.text.now cx.now.token (under_expr (shown stack.old))
        (expr_on (shown stack.old)) holed cx.now.token.kind) }
{
    if holed {
        return on_hole_end(cx, stack);
    }
    on_expr_end(cx, stack)
}
