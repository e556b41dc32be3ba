//! Marks on the numbers of steps.

ghost use Rattle.std.specs.Prelude.{◌≡◌, ◌<◌, ◌∷◌, [], true, false, length};
ghost use Rattle.pp_steps.specs.Reads.{Below};
ghost use Rattle.pp_simplify.specs.Marks.{Marks, is_marked};
ghost use Rattle.pp_simplify.specs.Operands.{operands};

use pp_steps::{OpenCall, Step};

/// Marks a number.
pub(crate) fn mark(marks: &mut Vec<bool>, number: u32)
    requires { number < length marks.old.items }
    ensures { Marks marks.old.items marks.new.items (number ∷ []) }
{
    marks[number as usize] = true;
}

/// Marks the operands of the step with the number `place`, where that is marked.
pub(crate) fn mark_through(marks: &mut Vec<bool>, place: usize, step: &Step)
    requires room { place < length marks.old.items }
    requires reads { Below (length marks.old.items) (operands step.now) }
    ensures marked { is_marked marks.old.items place ≡ true
        → Marks marks.old.items marks.new.items (operands step.now) }
    ensures unmarked { is_marked marks.old.items place ≡ false → marks.new.items ≡ marks.old.items }
{
    if marks[place] {
        mark_operands(marks, step);
    }
}

/// Marks the operands of the step.
fn mark_operands(marks: &mut Vec<bool>, step: &Step)
    requires { Below (length marks.old.items) (operands step.now) }
    ensures { Marks marks.old.items marks.new.items (operands step.now) }
{
    match step {
        Step::Open(_) | Step::Int(_) | Step::Bool(_) => {}
        Step::Not(a) => mark(marks, *a),
        Step::Both(a, b) => mark_two(marks, *a, *b),
        Step::Choose(c, a, b) => {
            mark(marks, *c);
            mark_two(marks, *a, *b);
        }
        Step::Unary(_, a) => mark(marks, *a),
        Step::Binary(_, a, b) => mark_two(marks, *a, *b),
        Step::Construct(_, fields) => mark_all(marks, fields.as_slice()),
        Step::IsCtor(_, _, a) => mark(marks, *a),
        Step::CtorField(_, _, a) => mark(marks, *a),
        Step::Field(a, _) => mark(marks, *a),
        Step::IsAlike(a, b) => mark_two(marks, *a, *b),
        Step::GoesDown(a, b) => mark_two(marks, *a, *b),
        Step::HasAnswer(call) => mark_call(marks, call),
        Step::Answer(call) => mark_call(marks, call),
    }
}

/// Marks two numbers.
fn mark_two(marks: &mut Vec<bool>, left: u32, right: u32)
    requires left { left < length marks.old.items }
    requires right { right < length marks.old.items }
    ensures { Marks marks.old.items marks.new.items (left ∷ right ∷ []) }
{
    mark(marks, left);
    mark(marks, right);
}

/// Marks the numbers that an open call reads.
fn mark_call(marks: &mut Vec<bool>, call: &OpenCall)
    requires reach { call.now.reach < length marks.old.items }
    requires args { Below (length marks.old.items) call.now.args }
    ensures { Marks marks.old.items marks.new.items (call.now.reach ∷ call.now.args) }
{
    mark(marks, call.reach);
    mark_all(marks, call.args.as_slice());
}

/// Marks each of the numbers.
fn mark_all(marks: &mut Vec<bool>, numbers: &[u32])
    requires { Below (length marks.old.items) numbers.now }
    ensures { Marks marks.old.items marks.new.items numbers.now }
{
    for number in numbers {
        mark(marks, *number);
    }
}
