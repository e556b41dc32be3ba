//! All sources at once.

ghost use Rattle.std.specs.Prelude.{◌≡◌, ◌≤◌, All, IfErr, IfOk, length, map};
ghost use Rattle.pp_limits.specs.declared.TheConstants.{MOST_SOURCES};
ghost use Rattle.pp_checks.specs.Plan.{IsPlanOf};
ghost use Rattle.pp_declared.specs.Shown.{units_of};
ghost use Rattle.pp_front.specs.Programs.{HaveTyping, IsProgramOf, IsShort, SpellUnits, bytes_of};
ghost use Rattle.pp_front.specs.Refuses.{BreaksRules, Refuses};
ghost use Rattle.pp_ordinary.specs.Laws.{AreShort};
ghost use Rattle.pp_source.specs.Told.{OnLine};

use crate::planned::{planned, program};
use crate::sources::read_all;
use crate::typed::typed;
use bumpalo::Bump;
use pp_checks::Plan;
use pp_prog::Program;
use pp_source::Refusal;
use pp_text::Text;
use pp_tree::Unit;
use pp_well_sorted::WellSorted;
use std::alloc::Global;

/// The program of accepted sources, and its plan.
#[derive(Drop)]
pub struct Accepted {
    /// The program.
    pub program: Program,
    /// The plan of the program.
    pub plan: Plan,
}

/// The program that sources have, and its plan; the sources are numbered from 1 in their order.
///
/// # Errors
/// `Line` with the line that says why the sources are refused: the first that spells no unit, a fault of typing, more
/// than 512 instances, the first function that breaks a rule of measures. `Memory` for want of memory.
pub fn accept(alloc: Global, sources: &[Vec<u8>]) -> Result<Accepted, Refusal>
    requires few { length sources.now ≤ MOST_SOURCES }
    requires short { All IsShort sources.now }
    ensures program { IfOk result (λ accepted. IsProgramOf (map bytes_of sources.now) accepted.program) }
    ensures plan { IfOk result (λ accepted. IsPlanOf accepted.plan accepted.program) }
    ensures refused { IfErr result (λ refusal. OnLine refusal (Refuses (map bytes_of sources.now))) }
{
    let arena = Bump::new(alloc);
    let mut texts = Vec::new(alloc);
    let mut units = Vec::new(alloc);
    match read_all(alloc, &arena, sources, &mut texts, &mut units) {
        Ok(()) => accept_units(alloc, &texts, &units),
        Err(refusal) => Err(refusal),
    }
}

/// The program of units that these texts spell, and its plan.
fn accept_units(alloc: Global, texts: &[Text], units: &[Unit]) -> Result<Accepted, Refusal>
    requires spelled { SpellUnits texts.now (units_of units.now) }
    requires short { AreShort texts.now }
    ensures program { IfOk result (λ accepted. IsProgramOf texts.now accepted.program) }
    ensures plan { IfOk result (λ accepted. IsPlanOf accepted.plan accepted.program) }
    ensures refused { IfErr result (λ refusal. OnLine refusal (Refuses texts.now)) }
{
    match typed(alloc, texts, units) {
        Ok(typed) => accept_typed(alloc, texts, &typed),
        Err(refusal) => Err(refusal),
    }
}

/// The program of typed units, and its plan.
fn accept_typed(alloc: Global, texts: &[Text], typed: &WellSorted) -> Result<Accepted, Refusal>
    requires typing { HaveTyping texts.now typed.now }
    requires short { AreShort texts.now }
    ensures program { IfOk result (λ accepted. IsProgramOf texts.now accepted.program) }
    ensures plan { IfOk result (λ accepted. IsPlanOf accepted.plan accepted.program) }
    ensures refused { IfErr result (λ refusal. OnLine refusal (Refuses texts.now)) }
{
    match program(alloc, typed, texts) {
        Ok(program) => accept_program(alloc, program),
        Err(refusal) => Err(refusal),
    }
}

/// A program with its plan.
fn accept_program(alloc: Global, program: Program) -> Result<Accepted, Refusal>
    ensures program { IfOk result (λ accepted. accepted.program ≡ program) }
    ensures plan { IfOk result (λ accepted. IsPlanOf accepted.plan accepted.program) }
    ensures refused { IfErr result (λ refusal. OnLine refusal (BreaksRules program)) }
{
    match planned(alloc, &program) {
        Ok(plan) => Ok(Accepted { program, plan }),
        Err(refusal) => Err(refusal),
    }
}
