//! The steps behind an operand.

ghost use Rattle.std.specs.Prelude.{◌≡◌, IfOk};
ghost use Rattle.pp_tokens.specs.Spans.{IsSpan};
ghost use Rattle.pp_tree.specs.Plain.{field};
ghost use Rattle.pp_grammar.specs.Words.{word};
ghost use Rattle.pp_grammar.specs.StepExprs.{on_binary, on_dot_name, on_ensuring, on_guard, on_holds, on_match};
ghost use Rattle.pp_grammar.specs.StepExprs.{on_negative_field, on_operand, on_post_word};
ghost use Rattle.pp_parse_state.specs.declared.mode.Mode.TheVariants.{AfterDot, AfterNegativeDot, Have, HaveNegative};
ghost use Rattle.pp_parse_state.specs.Shown.{Moves, expr_on, shown, step_in, under_expr, with_expr, without_expr};
ghost use Rattle.pp_parse_state.specs.Words.{role_of};

use crate::closing::on_end;
use pp_parse_frames::contracts::hold;
use pp_parse_frames::opening::open;
use pp_parse_state::operators::{LOOSEST, binary_of, level};
use pp_parse_state::words::Role;
use pp_parse_state::{Current, Frame, Mode, Move, NoMemory, Stack, Stop, unwind};
use pp_tokens::{Bracket, Operator, Reserved, TokenKind};
use pp_tree::BinaryOp;

/// The level of any expression.
pub(crate) const ANY: u32 = 0;

/// `=>` ends a guard.
fn on_guard<'a>(cx: &Current<'a, '_>, stack: &mut Stack<'a>, holed: bool) -> Result<Move, Stop<'a>>
    requires { IsSpan cx.now.text.now cx.now.token }
    ensures { Moves result stack.new (on_guard cx.now.text.now cx.now.token (under_expr (shown stack.old))
        (expr_on (shown stack.old)) holed) }
{
    match stack.pop() {
        Some(Frame::Guarding) if !holed => {
            let guard = stack.take_expr();
            stack.put_guard(Some(guard))?;
            open(stack, Frame::Arm, Mode::WantStat)
        }
        _ => Err(cx.refuse()),
    }
}

/// `match` stands behind an operand.
fn on_match<'a>(cx: &Current<'a, '_>, stack: &mut Stack<'a>, holed: bool) -> Result<Move, Stop<'a>>
    requires { IsSpan cx.now.text.now cx.now.token }
    ensures { Moves result stack.new (on_match cx.now.text.now cx.now.token (under_expr (shown stack.old))
        (expr_on (shown stack.old)) holed) }
{
    if holed || stack.floor() > 0 {
        return Err(cx.refuse());
    }
    Ok(Move::Go(Mode::AfterMatch(cx.token.from)))
}

/// `ensuring` stands behind what the body of a function is.
fn on_ensuring<'a>(
    cx: &Current<'a, '_>,
    stack: &mut Stack<'a>,
    holed: bool,
) -> Result<Move, Stop<'a>>
    requires { IsSpan cx.now.text.now cx.now.token }
    ensures { Moves result stack.new (on_ensuring cx.now.text.now cx.now.token (under_expr (shown stack.old))
        (expr_on (shown stack.old)) holed) }
{
    match stack.pop() {
        Some(Frame::BodyOf) if !holed => {
            open(stack, Frame::BodyOf, Mode::AfterEnsuring(cx.token.from))
        }
        _ => Err(cx.refuse()),
    }
}

/// `holds` stands behind what the body of a function is.
fn on_holds<'a>(cx: &Current<'a, '_>, stack: &mut Stack<'a>, holed: bool) -> Result<Move, Stop<'a>>
    requires { IsSpan cx.now.text.now cx.now.token }
    ensures { Moves result stack.new (on_holds cx.now.text.now cx.now.token (under_expr (shown stack.old))
        (expr_on (shown stack.old)) holed) }
{
    match stack.pop() {
        Some(Frame::BodyOf) if !holed => {
            hold(cx, stack)?;
            open(stack, Frame::BodyOf, Mode::AfterBody)
        }
        _ => Err(cx.refuse()),
    }
}

/// A name stands behind an operand: it has to be `ensuring` or `holds`.
pub fn on_post_word<'a>(
    cx: &Current<'a, '_>,
    stack: &mut Stack<'a>,
    holed: bool,
    role: Role,
) -> Result<Move, Stop<'a>>
    requires { IsSpan cx.now.text.now cx.now.token }
    ensures { Moves result stack.new (on_post_word cx.now.text.now cx.now.token (under_expr (shown stack.old))
        (expr_on (shown stack.old)) holed (role_of role)) }
{
    match role {
        Role::Ensuring => on_ensuring(cx, stack, holed),
        Role::Holds => on_holds(cx, stack, holed),
        _ => Err(cx.refuse()),
    }
}

/// An operator stands behind an operand.
fn on_binary<'a>(
    cx: &Current<'a, '_>,
    stack: &mut Stack<'a>,
    holed: bool,
    op: Option<BinaryOp>,
) -> Result<Move, Stop<'a>>
    requires { IsSpan cx.now.text.now cx.now.token }
    ensures { Moves result stack.new (on_binary cx.now.text.now cx.now.token (under_expr (shown stack.old))
        (expr_on (shown stack.old)) holed op) }
{
    match op {
        Some(op) => {
            let holed = unwind(cx.arena, stack, level(op), holed)?;
            open(stack, Frame::Left(cx.token.from, op, holed), Mode::Want)
        }
        None => Err(cx.refuse()),
    }
}

/// Behind an operand with its prefix.
pub fn on_operand<'a>(
    cx: &Current<'a, '_>,
    stack: &mut Stack<'a>,
    holed: bool,
) -> Result<Move, Stop<'a>>
    requires { IsSpan cx.now.text.now cx.now.token }
    ensures { Moves result stack.new (on_operand cx.now.text.now cx.now.token (under_expr (shown stack.old))
        (expr_on (shown stack.old)) holed cx.now.token.kind) }
{
    match cx.token.kind {
        TokenKind::Op(Operator::Arrow) => {
            let holed = unwind(cx.arena, stack, LOOSEST, holed)?;
            on_guard(cx, stack, holed)
        }
        TokenKind::Op(operator) => on_binary(cx, stack, holed, binary_of(operator)),
        TokenKind::Word(Reserved::Match) => {
            let holed = unwind(cx.arena, stack, LOOSEST, holed)?;
            on_match(cx, stack, holed)
        }
        TokenKind::Name => {
            let holed = unwind(cx.arena, stack, LOOSEST, holed)?;
            on_post_word(cx, stack, holed, cx.role())
        }
        _ => {
            let holed = unwind(cx.arena, stack, ANY, holed)?;
            on_end(cx, stack, holed)
        }
    }
}

/// Behind a simple expression, which fields may follow.
pub fn on_have<'a>(
    cx: &Current<'a, '_>,
    stack: &mut Stack<'a>,
    holed: bool,
) -> Result<Move, Stop<'a>>
    requires { IsSpan cx.now.text.now cx.now.token }
    ensures { Moves result stack.new (step_in cx.now.text.now cx.now.token (Have holed) (shown stack.old)) }
{
    match cx.token.kind {
        TokenKind::Mark(Bracket::Dot) => Ok(Move::Go(Mode::AfterDot(holed))),
        _ => on_operand(cx, stack, holed),
    }
}

/// The expression on the stack becomes its field with the token's name.
fn select<'a>(cx: &Current<'a, '_>, stack: &mut Stack<'a>) -> Result<(), NoMemory>
    requires { IsSpan cx.now.text.now cx.now.token }
    ensures { IfOk result (λ _. shown stack.new ≡ with_expr (field cx.now.token.from (expr_on (shown stack.old))
        (word cx.now.text.now cx.now.token)) (without_expr (shown stack.old))) }
{
    let of = stack.take_expr();
    let name = cx.word()?;
    stack.put_expr(pp_tree_build::field(cx.arena, cx.token.from, of, name)?)
}

/// A name behind a dot: of a field, `ensuring` or `holds`.
fn on_dot_name<'a>(
    cx: &Current<'a, '_>,
    stack: &mut Stack<'a>,
    holed: bool,
    role: Role,
) -> Result<Move, Stop<'a>>
    requires { IsSpan cx.now.text.now cx.now.token }
    ensures { Moves result stack.new (on_dot_name cx.now.text.now cx.now.token (under_expr (shown stack.old))
        (expr_on (shown stack.old)) holed (role_of role)) }
{
    match role {
        Role::Plain => {
            select(cx, stack)?;
            Ok(Move::Go(Mode::Have(holed)))
        }
        _ => on_post_word(cx, stack, holed, role),
    }
}

/// Behind a simple expression and a dot.
pub fn on_dot<'a>(
    cx: &Current<'a, '_>,
    stack: &mut Stack<'a>,
    holed: bool,
) -> Result<Move, Stop<'a>>
    requires { IsSpan cx.now.text.now cx.now.token }
    ensures { Moves result stack.new (step_in cx.now.text.now cx.now.token (AfterDot holed) (shown stack.old)) }
{
    match cx.token.kind {
        TokenKind::Name => on_dot_name(cx, stack, holed, cx.role()),
        _ => Err(cx.refuse()),
    }
}

/// Behind a number with a sign.
pub fn on_have_negative<'a>(cx: &Current<'a, '_>, stack: &mut Stack<'a>) -> Result<Move, Stop<'a>>
    requires { IsSpan cx.now.text.now cx.now.token }
    ensures { Moves result stack.new (step_in cx.now.text.now cx.now.token HaveNegative (shown stack.old)) }
{
    match cx.token.kind {
        TokenKind::Mark(Bracket::Dot) => Ok(Move::Go(Mode::AfterNegativeDot)),
        _ => on_operand(cx, stack, false),
    }
}

/// A name behind a number with a sign and a dot.
fn on_negative_field<'a>(
    cx: &Current<'a, '_>,
    stack: &mut Stack<'a>,
    role: Role,
) -> Result<Move, Stop<'a>>
    requires { IsSpan cx.now.text.now cx.now.token }
    ensures { Moves result stack.new (on_negative_field cx.now.text.now cx.now.token (under_expr (shown stack.old))
        (expr_on (shown stack.old)) (role_of role)) }
{
    match role {
        Role::Plain => {
            select(cx, stack)?;
            Ok(Move::Go(Mode::HaveNegative))
        }
        _ => Err(cx.refuse()),
    }
}

/// Behind a number with a sign and a dot.
pub fn on_negative_dot<'a>(cx: &Current<'a, '_>, stack: &mut Stack<'a>) -> Result<Move, Stop<'a>>
    requires { IsSpan cx.now.text.now cx.now.token }
    ensures { Moves result stack.new (step_in cx.now.text.now cx.now.token AfterNegativeDot (shown stack.old)) }
{
    match cx.token.kind {
        TokenKind::Name => on_negative_field(cx, stack, cx.role()),
        _ => Err(cx.refuse()),
    }
}
