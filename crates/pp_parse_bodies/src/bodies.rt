//! The steps in bodies.

ghost use Rattle.std.specs.Prelude.{option_map};
ghost use Rattle.pp_tokens.specs.Spans.{IsSpan};
ghost use Rattle.pp_grammar.specs.StepBodies.{on_contracted_end, on_contracted_name, on_contracted_operand};
ghost use Rattle.pp_grammar.specs.StepBodies.{on_contracted_operator, on_misplaced};
ghost use Rattle.pp_parse_state.specs.declared.mode.Mode.TheVariants.{AfterBody, AfterContractedDot, HaveContracted};
ghost use Rattle.pp_parse_state.specs.declared.mode.Mode.TheVariants.{WantBody};
ghost use Rattle.pp_parse_state.specs.declared.stack.Stack.{Stack};
ghost use Rattle.pp_parse_state.specs.Shown.{Moves, expr_on, shown, step_in, under_expr};
ghost use Rattle.pp_parse_state.specs.Values.{placed_of};
ghost use Rattle.pp_parse_state.specs.Words.{role_of};

use pp_parse_exprs::infix::on_post_word;
use pp_parse_exprs::operands::on_want;
use pp_parse_frames::heads::def_ends;
use pp_parse_frames::opening::open;
use pp_parse_state::operators::binary_of;
use pp_parse_state::words::Role;
use pp_parse_state::{Contracts, Current, Frame, Mode, Move, Placed, Stack, Stop};
use pp_tokens::{Bracket, Reserved, TokenKind};
use pp_tree::BinaryOp;

/// Behind the `=` of a function.
pub fn on_want_body<'a>(cx: &Current<'a, '_>, stack: &mut Stack<'a>) -> Result<Move, Stop<'a>>
    requires { IsSpan cx.now.text.now cx.now.token }
    ensures { Moves result stack.new (step_in cx.now.text.now cx.now.token WantBody (shown stack.old)) }
{
    match cx.token.kind {
        TokenKind::Mark(Bracket::OpenBrace) => {
            stack.put_contracts(Contracts::none(cx.alloc))?;
            open(stack, Frame::HeadBraces, Mode::WantStat)
        }
        _ => on_want(cx, stack),
    }
}

/// A block with contracts ends the body.
fn on_contracted_end<'a>(cx: &Current<'a, '_>, stack: &mut Stack<'a>) -> Result<Move, Stop<'a>>
    requires { IsSpan cx.now.text.now cx.now.token }
    ensures { Moves result stack.new (on_contracted_end cx.now.text.now cx.now.token (under_expr (shown stack.old))
        (expr_on (shown stack.old))) }
{
    match stack.pop() {
        Some(Frame::BodyOf) => def_ends(cx, stack, None),
        _ => Err(cx.refuse()),
    }
}

/// A block with contracts is no operand: its first contract can't stand there.
fn on_misplaced<'a>(cx: &Current<'a, '_>, first: Option<Placed<'a>>) -> Result<Move, Stop<'a>>
    requires { IsSpan cx.now.text.now cx.now.token }
    ensures { (s : Stack) → Moves result s (on_misplaced cx.now.text.now cx.now.token
        (option_map placed_of first.entry)) }
{
    match first {
        Some(first) => Err(Stop::Unsupported(first.word, first.at)),
        None => Err(cx.refuse()),
    }
}

/// A block with contracts stands as an operand.
fn on_contracted_operand<'a>(cx: &Current<'a, '_>, stack: &mut Stack<'a>) -> Result<Move, Stop<'a>>
    requires { IsSpan cx.now.text.now cx.now.token }
    ensures { Moves result stack.new (on_contracted_operand cx.now.text.now cx.now.token (under_expr (shown stack.old))) }
{
    match stack.pop() {
        Some(Frame::BodyOf) => on_misplaced(cx, stack.take_contracts().first),
        _ => Err(cx.refuse()),
    }
}

/// An operator stands behind a block with contracts.
fn on_contracted_operator<'a>(
    cx: &Current<'a, '_>,
    stack: &mut Stack<'a>,
    op: Option<BinaryOp>,
) -> Result<Move, Stop<'a>>
    requires { IsSpan cx.now.text.now cx.now.token }
    ensures { Moves result stack.new (on_contracted_operator cx.now.text.now cx.now.token
        (under_expr (shown stack.old)) op) }
{
    match op {
        Some(_) => on_contracted_operand(cx, stack),
        None => Err(cx.refuse()),
    }
}

/// Behind a block with contracts.
pub fn on_have_contracted<'a>(cx: &Current<'a, '_>, stack: &mut Stack<'a>) -> Result<Move, Stop<'a>>
    requires { IsSpan cx.now.text.now cx.now.token }
    ensures { Moves result stack.new (step_in cx.now.text.now cx.now.token HaveContracted (shown stack.old)) }
{
    match cx.token.kind {
        TokenKind::Mark(Bracket::Dot) => Ok(Move::Go(Mode::AfterContractedDot)),
        TokenKind::Name => on_post_word(cx, stack, false, cx.role()),
        TokenKind::Newline
        | TokenKind::Mark(Bracket::Semicolon)
        | TokenKind::Mark(Bracket::CloseBrace) => on_contracted_end(cx, stack),
        TokenKind::Op(operator) => on_contracted_operator(cx, stack, binary_of(operator)),
        TokenKind::Word(Reserved::Match) => on_contracted_operand(cx, stack),
        _ => Err(cx.refuse()),
    }
}

/// A name behind a block with contracts and a dot.
fn on_contracted_name<'a>(
    cx: &Current<'a, '_>,
    stack: &mut Stack<'a>,
    role: Role,
) -> Result<Move, Stop<'a>>
    requires { IsSpan cx.now.text.now cx.now.token }
    ensures { Moves result stack.new (on_contracted_name cx.now.text.now cx.now.token (under_expr (shown stack.old))
        (expr_on (shown stack.old)) (role_of role)) }
{
    match role {
        Role::Ensuring | Role::Holds => on_post_word(cx, stack, false, role),
        _ => on_contracted_operand(cx, stack),
    }
}

/// Behind a block with contracts and a dot.
pub fn on_contracted_dot<'a>(cx: &Current<'a, '_>, stack: &mut Stack<'a>) -> Result<Move, Stop<'a>>
    requires { IsSpan cx.now.text.now cx.now.token }
    ensures { Moves result stack.new (step_in cx.now.text.now cx.now.token AfterContractedDot (shown stack.old)) }
{
    match cx.token.kind {
        TokenKind::Name => on_contracted_name(cx, stack, cx.role()),
        _ => Err(cx.refuse()),
    }
}

/// Behind a postcondition: the function ends.
pub fn on_after_body<'a>(cx: &Current<'a, '_>, stack: &mut Stack<'a>) -> Result<Move, Stop<'a>>
    requires { IsSpan cx.now.text.now cx.now.token }
    ensures { Moves result stack.new (step_in cx.now.text.now cx.now.token AfterBody (shown stack.old)) }
{
    match stack.pop() {
        Some(Frame::BodyOf) => {
            let post = stack.take_post();
            def_ends(cx, stack, post)
        }
        _ => Err(cx.refuse()),
    }
}
