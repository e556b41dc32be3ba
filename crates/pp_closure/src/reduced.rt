//! What bits that are taken away, shifts to the right and quotients leave of natural numbers: no more than there was.

ghost use Rattle.std.specs.Prelude.{◌≡◌, ◌<ℤ◌, pos, OnOk, Some, slice_get};
ghost use Rattle.std.specs.Int.{w32};
ghost use Rattle.pp_tree.specs.declared.operator.BinaryOp.TheVariants as op;
ghost use Rattle.pp_word.specs.Wrapping.{IsWord};
ghost use Rattle.pp_steps.specs.declared.step.Step.TheVariants as steps;
ghost use Rattle.pp_steps.specs.Meaning.{Values};
ghost use Rattle.pp_closure.specs.Facts.{Holds};
ghost use Rattle.pp_closure.specs.Keeps.{Keeps};
ghost use Rattle.pp_closure.specs.Order.{Reduces};
ghost use Rattle.pp_closure.specs.Sums.{whole};

use crate::facts::Facts;
use pp_steps::Step;

/// The step has the bits that both have: it is no greater than either of them that is natural.
pub(crate) fn learn_common_bits(facts: &mut Facts, all: &[Step], number: u32, a: u32, b: u32)
    requires { slice_get all.now number ≡ Some (steps.Binary op.And a b) }
    ensures { Keeps all.now facts.old facts.new }
{
    learn_reduced(facts, number, a);
    learn_reduced(facts, number, b);
}

/// The step is `a` shifted to the right.
pub(crate) fn learn_shifted(facts: &mut Facts, all: &[Step], number: u32, a: u32, b: u32)
    requires { slice_get all.now number ≡ Some (steps.Binary op.Shr a b) }
    ensures { Keeps all.now facts.old facts.new }
{
    learn_reduced(facts, number, a);
}

/// The step is `a` shifted to the right, where zeros come in on the left.
pub(crate) fn learn_shifted_unsigned(facts: &mut Facts, all: &[Step], number: u32, a: u32, b: u32)
    requires { slice_get all.now number ≡ Some (steps.Binary op.Ushr a b) }
    ensures { Keeps all.now facts.old facts.new }
{
    learn_reduced(facts, number, a);
}

/// The step is the quotient of `a` by `b`, which is no greater than `a` where that is natural and `b` is positive.
pub(crate) fn learn_quotient(facts: &mut Facts, number: u32, a: u32, b: u32)
    ensures { (ρ : Values) → (pos 0 <ℤ whole (ρ b) → Reduces (whole (ρ a)) (whole (ρ number)))
        → IsWord w32 (whole (ρ a)) → IsWord w32 (whole (ρ b)) → Holds ρ facts.old → Holds ρ facts.new }
{
    if facts.low(b) > 0 {
        learn_reduced(facts, number, a);
    }
}

/// Of a natural number the step is one too, and no more than that.
fn learn_reduced(facts: &mut Facts, number: u32, a: u32)
    ensures { (ρ : Values) → Reduces (whole (ρ a)) (whole (ρ number)) → IsWord w32 (whole (ρ a))
        → Holds ρ facts.old → Holds ρ facts.new }
{
    if facts.low(a) >= 0 {
        let most = facts.high(a);
        facts.at_least(number, 0);
        facts.at_most(number, most);
    }
}
