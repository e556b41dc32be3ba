//! The steps of patterns.

ghost use Rattle.std.specs.Prelude.{◌≡◌, ◌<◌, ◌^◌, IfOk, length, map};
ghost use Rattle.pp_steps.specs.Patterns.{equals, fit_fields, fitting};
ghost use Rattle.pp_compile.specs.Written.{IsFitted};

use crate::NoMemory;
use crate::emit::emit;
use crate::work::{Tests, Work};
use pp_prog::{BinaryOp, CtorId, Pattern};
use pp_steps::Step;

/// The steps that tell whether the value with this number fits the pattern. The tests that have to be true come behind
/// those that stand, and so do the numbers of the values that are bound.
#[cycle(fit)]
pub(crate) fn fit(
    work: &mut Work,
    found: &mut Tests,
    pattern: &Pattern,
    value: u32,
) -> Result<(), NoMemory>
    ensures { IfOk result (λ _. IsFitted work.old work.new found.old found.new
        (fitting pattern.now (length work.old.steps) value)) }
{
    match pattern {
        Pattern::Any => Ok(()),
        Pattern::Bind(inner) => {
            found.bound.push(value)?;
            fit(work, found, inner.get(), value)
        }
        Pattern::Int(n) => equal(work, found, Step::Int(*n), value),
        Pattern::Bool(b) => equal(work, found, Step::Bool(*b), value),
        Pattern::Ctor(c, patterns) => {
            let patterns = patterns.as_slice();
            if patterns.len() >= u32::MAX as usize {
                return Err(NoMemory);
            }
            let test = emit(work, Step::IsCtor(*c, patterns.len() as u32, value))?;
            found.tests.push(test)?;
            fit_fields(work, found, *c, patterns, value)
        }
    }
}

// The fields of a value with this number, whose constructor has fewer than 2^32 fields.
#[cycle(fit)]
fn fit_fields(
    work: &mut Work,
    found: &mut Tests,
    ctor: CtorId,
    patterns: &[Pattern],
    value: u32,
) -> Result<(), NoMemory>
    requires { length patterns.now < 2 ^ 32 }
    ensures { IfOk result (λ _. IsFitted work.old work.new found.old found.new
        (fit_fields ctor 0 (map fitting patterns.now) (length work.old.steps) value)) }
{
    for i in 0..patterns.len() {
        let field = emit(work, Step::CtorField(ctor, i as u32, value))?;
        fit(work, found, &patterns[i], field)?;
    }
    Ok(())
}

// Whether the value with this number equals what the step makes.
fn equal(work: &mut Work, found: &mut Tests, step: Step, value: u32) -> Result<(), NoMemory>
    ensures { IfOk result (λ _. IsFitted work.old work.new found.old found.new
        (equals step (length work.old.steps) value)) }
{
    let made = emit(work, step)?;
    let test = emit(work, Step::Binary(BinaryOp::Equal, made, value))?;
    found.tests.push(test)?;
    Ok(())
}
