//! Functions that are given up while checks are proved together.

ghost use Rattle.std.specs.Prelude.{◌≡◌, ◌<◌, ℕ, IfOk, length};
ghost use Rattle.pp_checks.specs.Plan.{IsPlanOf};
ghost use Rattle.pp_graph.specs.Rows.{marked};
ghost use Rattle.pp_verify.specs.GivenUp.{AreGivenUp, GivesUpTo, GivesUpUnless, IsGivenUp};

use crate::NoMemory;
use pp_checks::Plan;
use pp_list::{Items, at};
use pp_prog::{FunctionId, Program};
use std::alloc::Global;

/// A mark for each function, by its number: it is given up, since its cone has a check that won't be settled.
pub(crate) type GivenUp = Items<bool>;

/// No function is given up.
pub(crate) fn none_given_up(alloc: Global, program: &Program) -> Result<GivenUp, NoMemory>
    ensures marks { IfOk result (λ marks. AreGivenUp program.now marks) }
    ensures none { IfOk result (λ marks. (f : ℕ) → IsGivenUp marks f → ⊥) }
{
    let mut marks = Items::new(alloc);
    for _function in 0..program.function_count() {
        marks.push(false)?;
    }
    Ok(marks)
}

/// Whether the function is given up.
pub(crate) fn is_given_up(marks: &[bool], f: FunctionId) -> bool
    ensures { result ≡ marked marks.now f.0 }
{
    match at(marks, f.0 as usize) {
        None => false,
        Some(mark) => *mark,
    }
}

/// Gives up the function, with those whose cone has it, unless there is hope.
pub(crate) fn give_up_unless(
    program: &Program,
    plan: &Plan,
    hope: bool,
    f: FunctionId,
    marks: &mut GivenUp,
)
    requires plan { IsPlanOf plan.now program.now }
    requires function { f.0 < length program.now.functions }
    requires marks { AreGivenUp program.now marks.old }
    ensures { GivesUpUnless program.now hope f.0 marks.old marks.new }
{
    if !hope && !is_given_up(marks.as_slice(), f) {
        give_up(program, plan, f, marks);
    }
}

/// Gives up each function whose cone has this one.
fn give_up(program: &Program, plan: &Plan, f: FunctionId, marks: &mut GivenUp)
    requires plan { IsPlanOf plan.now program.now }
    requires function { f.0 < length program.now.functions }
    requires size { length marks.old ≡ length program.now.functions }
    ensures { GivesUpTo program.now (length program.now.functions) f.0 marks.old marks.new }
{
    for g in 0..program.function_count() {
        if plan.in_cone(FunctionId(g), f) {
            marks.set(g as usize, true);
        }
    }
}
