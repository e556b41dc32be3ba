//! The steps behind a match, and behind the words `match` and `else`.

ghost use Rattle.pp_tokens.specs.Spans.{IsSpan};
ghost use Rattle.pp_grammar.specs.StepExprs.{on_else, on_match_dot};
ghost use Rattle.pp_parse_state.specs.declared.mode.Mode.TheVariants.{AfterMatch, AfterMatchedDot, HaveMatched};
ghost use Rattle.pp_parse_state.specs.declared.mode.Mode.TheVariants.{WantCase, WantElse};
ghost use Rattle.pp_parse_state.specs.declared.stack.Stack.{Stack};
ghost use Rattle.pp_parse_state.specs.Shown.{Moves, expr_on, shown, step_in, under_expr};

use crate::closing::on_end;
use crate::infix::{ANY, on_post_word};
use pp_parse_frames::opening::open;
use pp_parse_state::{Current, Frame, Mode, Move, Stack, Stop, unwind};
use pp_tokens::{Bracket, Reserved, TokenKind};

/// A dot behind a match: it stands only where the match is the body of a function.
fn on_match_dot<'a>(cx: &Current<'a, '_>, stack: &mut Stack<'a>) -> Result<Move, Stop<'a>>
    requires { IsSpan cx.now.text.now cx.now.token }
    ensures { Moves result stack.new (on_match_dot cx.now.text.now cx.now.token (under_expr (shown stack.old))
        (expr_on (shown stack.old))) }
{
    match stack.pop() {
        Some(Frame::BodyOf) => open(stack, Frame::BodyOf, Mode::AfterMatchedDot),
        _ => Err(cx.refuse()),
    }
}

/// Behind a match, which only what ends an expression may follow.
pub fn on_have_matched<'a>(cx: &Current<'a, '_>, stack: &mut Stack<'a>) -> Result<Move, Stop<'a>>
    requires { IsSpan cx.now.text.now cx.now.token }
    ensures { Moves result stack.new (step_in cx.now.text.now cx.now.token HaveMatched (shown stack.old)) }
{
    match cx.token.kind {
        TokenKind::Mark(Bracket::Dot) => on_match_dot(cx, stack),
        TokenKind::Name => on_post_word(cx, stack, false, cx.role()),
        _ => {
            let holed = unwind(cx.arena, stack, ANY, false)?;
            on_end(cx, stack, holed)
        }
    }
}

/// Behind a match and a dot.
pub fn on_matched_dot<'a>(cx: &Current<'a, '_>, stack: &mut Stack<'a>) -> Result<Move, Stop<'a>>
    requires { IsSpan cx.now.text.now cx.now.token }
    ensures { Moves result stack.new (step_in cx.now.text.now cx.now.token AfterMatchedDot (shown stack.old)) }
{
    match cx.token.kind {
        TokenKind::Name => on_post_word(cx, stack, false, cx.role()),
        _ => Err(cx.refuse()),
    }
}

/// Behind `match`.
pub fn on_match_word<'a>(
    cx: &Current<'a, '_>,
    stack: &mut Stack<'a>,
    at: u32,
) -> Result<Move, Stop<'a>>
    requires { IsSpan cx.now.text.now cx.now.token }
    ensures { Moves result stack.new (step_in cx.now.text.now cx.now.token (AfterMatch at) (shown stack.old)) }
{
    match cx.token.kind {
        TokenKind::Mark(Bracket::OpenBrace) => {
            stack.put_case_list(Vec::new(cx.alloc))?;
            open(stack, Frame::CasesOf(at), Mode::WantCase)
        }
        _ => Err(cx.refuse()),
    }
}

/// The first case of a match is wanted.
pub fn on_want_case<'a>(cx: &Current<'a, '_>) -> Result<Move, Stop<'a>>
    requires { IsSpan cx.now.text.now cx.now.token }
    ensures { (s : Stack) → Moves result s (step_in cx.now.text.now cx.now.token WantCase (shown s)) }
{
    match cx.token.kind {
        TokenKind::Word(Reserved::Case) => Ok(Move::Go(Mode::WantPattern)),
        _ => Err(cx.refuse()),
    }
}

/// `else` stands behind an expression.
pub fn on_else<'a>(cx: &Current<'a, '_>, stack: &mut Stack<'a>) -> Result<Move, Stop<'a>>
    requires { IsSpan cx.now.text.now cx.now.token }
    ensures { Moves result stack.new (on_else cx.now.text.now cx.now.token (under_expr (shown stack.old))
        (expr_on (shown stack.old))) }
{
    match stack.pop() {
        Some(Frame::IfThen(at)) => open(stack, Frame::IfRest(at), Mode::Want),
        _ => Err(cx.refuse()),
    }
}

/// Behind a semicolon in the first branch of an `if`.
pub fn on_want_else<'a>(cx: &Current<'a, '_>, stack: &mut Stack<'a>) -> Result<Move, Stop<'a>>
    requires { IsSpan cx.now.text.now cx.now.token }
    ensures { Moves result stack.new (step_in cx.now.text.now cx.now.token WantElse (shown stack.old)) }
{
    match cx.token.kind {
        TokenKind::Word(Reserved::Else) => on_else(cx, stack),
        _ => Err(cx.refuse()),
    }
}
