//! The steps where an operand is wanted.

ghost use Rattle.std.specs.Prelude.{◌∷◌, cond, false, nat_le};
ghost use Rattle.pp_tokens.specs.Spans.{IsSpan};
ghost use Rattle.pp_grammar.specs.Frames.{go, have, prefixing, want};
ghost use Rattle.pp_grammar.specs.Joining.{floor};
ghost use Rattle.pp_grammar.specs.StepExprs.{on_negative, on_number, on_operand_name, on_want};
ghost use Rattle.pp_parse_state.specs.declared.mode.Mode.TheVariants.{AfterIf, AfterMinus, Want, WantThen};
ghost use Rattle.pp_parse_state.specs.Shown.{Moves, frames, shown, step_in};
ghost use Rattle.pp_parse_state.specs.Words.{role_of};
ghost use Rattle.pp_tokens.specs.declared.token.TokenKind.TheVariants.{Hole, Op, Word as Reserve};
ghost use Rattle.pp_tokens.specs.declared.token.Reserved.TheVariants.{If};
ghost use Rattle.pp_tokens.specs.declared.token.Operator.TheVariants.{Minus};
ghost use Rattle.pp_grammar.specs.Words.{tightest};
ghost use Rattle.pp_tree.specs.Plain.{bool as plain_bool};
ghost use Rattle.pp_grammar.specs.StepTypes.{refuse};

use pp_parse_frames::contracts::RES;
use pp_parse_frames::opening::{behind_expr, behind_word, open};
use pp_parse_state::numbers::{is_signed, negative_of, number_of};
use pp_parse_state::operators::TIGHTEST;
use pp_parse_state::words::Role;
use pp_parse_state::{Current, Frame, Mode, Move, Stack, Stop};
use pp_tokens::{Bracket, Operator, Reserved, TokenKind};
use pp_tree::UnaryOp;
use pp_tree_build::{bool, int, name};

/// A number as an operand.
fn on_number<'a>(
    cx: &Current<'a, '_>,
    stack: &mut Stack<'a>,
    value: Option<i32>,
) -> Result<Move, Stop<'a>>
    requires { IsSpan cx.now.text.now cx.now.token }
    ensures { Moves result stack.new (on_number cx.now.text.now cx.now.token (frames stack.old) value) }
{
    match value {
        Some(n) => behind_expr(stack, int(cx.arena, cx.token.from, n)?, Mode::Have(false)),
        None => Err(cx.refuse()),
    }
}

/// A name as an operand.
pub fn on_operand_name<'a>(
    cx: &Current<'a, '_>,
    stack: &mut Stack<'a>,
    role: Role,
) -> Result<Move, Stop<'a>>
    requires { IsSpan cx.now.text.now cx.now.token }
    ensures { Moves result stack.new (on_operand_name cx.now.text.now cx.now.token (frames stack.old) (role_of role)) }
{
    let from = cx.token.from;
    match role {
        Role::Plain => behind_word(cx, stack, Mode::AfterName(from)),
        Role::Int => Ok(Move::Go(Mode::AfterInt(from))),
        _ => Err(cx.refuse()),
    }
}

/// A truth value as an operand.
fn on_bool<'a>(cx: &Current<'a, '_>, stack: &mut Stack<'a>, value: bool) -> Result<Move, Stop<'a>>
    ensures { Moves result stack.new (go (frames stack.old) (have (plain_bool cx.now.token.from value) false)) }
{
    behind_expr(
        stack,
        bool(cx.arena, cx.token.from, value)?,
        Mode::Have(false),
    )
}

/// An operand is wanted, with or without a prefix.
pub fn on_want<'a>(cx: &Current<'a, '_>, stack: &mut Stack<'a>) -> Result<Move, Stop<'a>>
    requires { IsSpan cx.now.text.now cx.now.token }
    ensures { Moves result stack.new (step_in cx.now.text.now cx.now.token Want (shown stack.old)) }
{
    match cx.token.kind {
        TokenKind::Number(_) => on_number(cx, stack, number_of(cx.token.kind)),
        TokenKind::Hex(_) => on_number(cx, stack, number_of(cx.token.kind)),
        TokenKind::Name => on_operand_name(cx, stack, cx.role()),
        TokenKind::Word(Reserved::True) => on_bool(cx, stack, true),
        TokenKind::Word(Reserved::False) => on_bool(cx, stack, false),
        TokenKind::Hole => on_hole(cx, stack),
        TokenKind::Op(Operator::Minus) => on_minus_sign(cx, stack),
        TokenKind::Op(Operator::Not) => on_prefix(cx, stack, UnaryOp::Not),
        TokenKind::Op(Operator::Flip) => on_prefix(cx, stack, UnaryOp::Flip),
        TokenKind::Mark(Bracket::OpenRound) => open(stack, Frame::Round, Mode::Want),
        TokenKind::Mark(Bracket::OpenBrace) => open(stack, Frame::Braces, Mode::WantStat),
        TokenKind::Word(Reserved::If) => on_if_word(cx, stack),
        _ => Err(cx.refuse()),
    }
}

/// A number whose sign stands at the offset.
fn on_negative<'a>(
    cx: &Current<'a, '_>,
    stack: &mut Stack<'a>,
    at: u32,
    value: Option<i32>,
) -> Result<Move, Stop<'a>>
    requires { IsSpan cx.now.text.now cx.now.token }
    ensures { Moves result stack.new (on_negative cx.now.text.now cx.now.token (frames stack.old) at value) }
{
    match value {
        Some(n) => behind_expr(stack, int(cx.arena, at, n)?, Mode::HaveNegative),
        None => Err(cx.refuse()),
    }
}

/// Behind a minus sign: it is part of a number directly behind it.
pub fn on_minus<'a>(
    cx: &Current<'a, '_>,
    stack: &mut Stack<'a>,
    at: u32,
    end: u32,
) -> Result<Move, Stop<'a>>
    requires { IsSpan cx.now.text.now cx.now.token }
    ensures { Moves result stack.new (step_in cx.now.text.now cx.now.token (AfterMinus at end) (shown stack.old)) }
{
    if is_signed(end, cx.token) {
        return on_negative(cx, stack, at, negative_of(cx.token.kind));
    }
    stack.push(Frame::Prefixing(at, UnaryOp::Neg))?;
    on_want(cx, stack)
}

/// Behind `if`.
pub fn on_if<'a>(cx: &Current<'a, '_>, stack: &mut Stack<'a>, at: u32) -> Result<Move, Stop<'a>>
    requires { IsSpan cx.now.text.now cx.now.token }
    ensures { Moves result stack.new (step_in cx.now.text.now cx.now.token (AfterIf at) (shown stack.old)) }
{
    match cx.token.kind {
        TokenKind::Mark(Bracket::OpenRound) => open(stack, Frame::IfTest(at), Mode::Want),
        _ => Err(cx.refuse()),
    }
}

/// The first branch of an `if` is wanted.
pub fn on_want_then<'a>(cx: &Current<'a, '_>, stack: &mut Stack<'a>) -> Result<Move, Stop<'a>>
    requires { IsSpan cx.now.text.now cx.now.token }
    ensures { Moves result stack.new (step_in cx.now.text.now cx.now.token WantThen (shown stack.old)) }
{
    match cx.token.kind {
        TokenKind::Newline => Ok(Move::Go(Mode::WantThen)),
        _ => on_want(cx, stack),
    }
}

/// The hole as an operand.
fn on_hole<'a>(cx: &Current<'a, '_>, stack: &mut Stack<'a>) -> Result<Move, Stop<'a>>
    requires { IsSpan cx.now.text.now cx.now.token }
    ensures { Moves result stack.new (on_want cx.now.text.now cx.now.token (frames stack.old) Hole) }
{
    if !stack.takes_hole() {
        return Err(cx.refuse());
    }
    behind_expr(stack, name(cx.arena, cx.token.from, RES)?, Mode::Have(true))
}

/// A minus sign before an operand.
fn on_minus_sign<'a>(cx: &Current<'a, '_>, stack: &mut Stack<'a>) -> Result<Move, Stop<'a>>
    requires { IsSpan cx.now.text.now cx.now.token }
    ensures { Moves result stack.new (on_want cx.now.text.now cx.now.token (frames stack.old) (Op Minus)) }
{
    if stack.floor() > TIGHTEST {
        return Err(cx.refuse());
    }
    Ok(Move::Go(Mode::AfterMinus(cx.token.from, cx.token.to)))
}

/// Another prefix before an operand.
fn on_prefix<'a>(cx: &Current<'a, '_>, stack: &mut Stack<'a>, op: UnaryOp) -> Result<Move, Stop<'a>>
    requires { IsSpan cx.now.text.now cx.now.token }
    ensures { Moves result stack.new (cond (nat_le (floor (frames stack.old)) tightest) (go
        (prefixing cx.now.token.from op ∷ frames stack.old) want) (refuse cx.now.text.now cx.now.token)) }
{
    if stack.floor() > TIGHTEST {
        return Err(cx.refuse());
    }
    open(stack, Frame::Prefixing(cx.token.from, op), Mode::Want)
}

/// `if` where an operand is wanted.
fn on_if_word<'a>(cx: &Current<'a, '_>, stack: &mut Stack<'a>) -> Result<Move, Stop<'a>>
    requires { IsSpan cx.now.text.now cx.now.token }
    ensures { Moves result stack.new (on_want cx.now.text.now cx.now.token (frames stack.old) (Reserve If)) }
{
    if stack.floor() > 0 {
        return Err(cx.refuse());
    }
    Ok(Move::Go(Mode::AfterIf(cx.token.from)))
}
