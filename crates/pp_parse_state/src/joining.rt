//! Operands joined with the operators before them, and expressions with the statements before them.

ghost use Rattle.std.specs.Prelude.{◌≡◌, IfOk};
ghost use Rattle.pp_grammar.specs.Joining.{unwind, seal};
ghost use Rattle.pp_parse_state.specs.Joining.{binds, is_statement, join, join_statement, joined_holed, sealed};
ghost use Rattle.pp_parse_state.specs.Joining.{unwound};
ghost use Rattle.pp_parse_state.specs.Shown.{expr_on, shown, under_expr};

use crate::operators::{TIGHTEST, level};
use crate::{Frame, NoMemory, Stack};
use bumpalo::Bump;
use pp_tree_build::{assert_in, binary, choice, unary, val_in};

/// Whether the frame is an operator before an operand that binds at least as tight as the level, or, at the lowest
/// level, the rest of an `if`.
pub(crate) fn binds(frame: Frame, tight: u32) -> bool
    ensures { result ≡ binds tight frame }
{
    match frame {
        Frame::Prefixing(_, _) => tight <= TIGHTEST,
        Frame::Left(_, op, _) => tight <= level(op),
        Frame::IfRest(_) => tight == 0,
        _ => false,
    }
}

/// The operand on the stack is joined with the operator before it, whose parts lie below. What is answered is whether
/// the hole stands in it then.
fn join<'a>(
    arena: &'a Bump,
    stack: &mut Stack<'a>,
    frame: Frame,
    holed: bool,
) -> Result<bool, NoMemory>
    ensures operand { IfOk result (λ _. shown stack.new ≡ join frame (shown stack.old)) }
    ensures hole { IfOk result (λ h. h ≡ joined_holed frame holed) }
{
    match frame {
        Frame::Prefixing(at, op) => {
            let operand = stack.take_expr();
            stack.put_expr(unary(arena, at, op, operand)?)?;
            Ok(holed)
        }
        Frame::Left(at, op, left_holed) => {
            let right = stack.take_expr();
            let left = stack.take_expr();
            stack.put_expr(binary(arena, at, op, left, right)?)?;
            Ok(left_holed || holed)
        }
        Frame::IfRest(at) => {
            let no = stack.take_expr();
            let yes = stack.take_expr();
            let test = stack.take_expr();
            stack.put_expr(choice(arena, at, test, yes, no)?)?;
            Ok(holed)
        }
        _ => Ok(holed),
    }
}

/// The operand on the stack is joined with all before it that binds at least as tight as the level. What is answered is
/// whether the hole stands in it then.
pub fn unwind<'a>(
    arena: &'a Bump,
    stack: &mut Stack<'a>,
    tight: u32,
    holed: bool,
) -> Result<bool, NoMemory>
    ensures { IfOk result (λ h. unwind tight (under_expr (shown stack.old)) (expr_on (shown stack.old)) holed
        ≡ unwound (shown stack.new) h) }
{
    let mut holed = holed;
    while stack.binds(tight) {
        if let Some(frame) = stack.pop() {
            holed = join(arena, stack, frame, holed)?;
        }
    }
    Ok(holed)
}

/// Whether the frame is a finished statement.
pub(crate) fn is_statement(frame: Frame) -> bool
    ensures { result ≡ is_statement frame }
{
    matches!(frame, Frame::AfterVal(_) | Frame::AfterAssert(_))
}

/// The expression on the stack is joined with the statement before it, whose parts lie below.
fn join_statement<'a>(arena: &'a Bump, stack: &mut Stack<'a>, frame: Frame) -> Result<(), NoMemory>
    ensures { IfOk result (λ _. shown stack.new ≡ join_statement frame (shown stack.old)) }
{
    match frame {
        Frame::AfterVal(at) => {
            let last = stack.take_expr();
            let value = stack.take_expr();
            let of = stack.take_given_type();
            let name = stack.take_name();
            stack.put_expr(val_in(arena, at, name, of, value, last)?)
        }
        Frame::AfterAssert(at) => {
            let last = stack.take_expr();
            let claim = stack.take_expr();
            stack.put_expr(assert_in(arena, at, claim, last)?)
        }
        _ => Ok(()),
    }
}

/// The last expression of a block, which is on the stack, is joined with the statements before it.
pub fn seal<'a>(arena: &'a Bump, stack: &mut Stack<'a>) -> Result<(), NoMemory>
    ensures { IfOk result (λ _. seal (under_expr (shown stack.old)) (expr_on (shown stack.old))
        ≡ sealed (shown stack.new)) }
{
    while stack.ends_statement() {
        if let Some(frame) = stack.pop() {
            join_statement(arena, stack, frame)?;
        }
    }
    Ok(())
}
