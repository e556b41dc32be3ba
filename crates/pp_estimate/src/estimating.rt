//! The estimate of a round, and estimates of one program that share what was counted for them.

ghost use Rattle.std.specs.Prelude.{◌≡◌, ◌<◌, ◌≤◌, IfOk, OnOk, length, true};
ghost use Rattle.pp_limits.specs.declared.TheConstants.{DEPTH, ROUNDS};
ghost use Rattle.pp_prog.specs.Sorts.{param_sorts};
ghost use Rattle.pp_checks.specs.Plan.{IsPlanOf};
ghost use Rattle.pp_prog.specs.declared.program.Program.{Program};
ghost use Rattle.pp_estimate.specs.Bounds.{AreRows};
ghost use Rattle.pp_estimate.specs.Counted.{MemoOf};
ghost use Rattle.pp_estimate.specs.Estimates as spec;
ghost use Rattle.pp_estimate.specs.Cut.{cut};
ghost use Rattle.pp_estimate.specs.Place.{IsMemo};
ghost use Rattle.pp_estimate.specs.Shared.{AreOf};

use crate::NoMemory;
use crate::frames::frame_of;
use crate::instances::instances_of;
use crate::memo::Memo;
use crate::place::Place;
use crate::shape::{Shape, Shapes, height_in};
use crate::sizes::{Rows, size_of};
use pp_checks::Plan;
use pp_list::{Items, at};
use pp_prog::{CheckId, Function, Param, Program, TypeTable};
use std::alloc::Global;

/// How many numbers the known frames may hold, each of which has one for each datatype and each function.
const MOST_NUMBERS: usize = 1 << 24;

/// The estimate of a round of the check, at this depth: at most how large its circuit is. Each sum and product is
/// cut at the greatest number of 64 bits. The only error is want of memory.
pub fn estimate(
    alloc: Global,
    program: &Program,
    plan: &Plan,
    check: CheckId,
    round: u32,
    depth: u32,
) -> Result<u64, NoMemory>
    requires plan { IsPlanOf plan.now program.now }
    requires check { check.0 < length program.now.checks }
    requires round { round ≤ ROUNDS.most }
    requires depth { (1 ≤ depth) × (depth ≤ DEPTH.most) }
    ensures { IfOk result (λ e. e ≡ spec.estimate program.now.types program.now.functions program.now.checks check.0
        round depth) }
{
    let mut estimates = Estimates::new(alloc)?;
    estimates.of(alloc, program, plan, check, round, depth)
}

/// What estimates of one program share, whatever the check, the round and the depth: the frames that were counted.
#[derive(Drop)]
pub struct Estimates {
    memo: Memo,
}

impl Estimates {
    /// Nothing is counted yet, so that any program will do.
    pub fn new(alloc: Global) -> Result<Estimates, NoMemory>
        ensures { IfOk result (λ estimates. (p : Program) → AreOf p estimates) }
    {
        Ok(Estimates {
            memo: Memo::new(alloc)?,
        })
    }

    /// The estimate of a round of the check, as `estimate` has it, which counts no frame again that is known here. After
    /// an Err nothing is said of what is kept: begin with a new table.
    pub fn of(
        &mut self,
        alloc: Global,
        program: &Program,
        plan: &Plan,
        check: CheckId,
        round: u32,
        depth: u32,
    ) -> Result<u64, NoMemory>
        requires plan { IsPlanOf plan.now program.now }
        requires check { check.0 < length program.now.checks }
        requires round { round ≤ ROUNDS.most }
        requires depth { (1 ≤ depth) × (depth ≤ DEPTH.most) }
        requires estimates { AreOf program.now self.old }
        ensures estimate { IfOk result (λ e. e ≡ spec.estimate program.now.types program.now.functions
            program.now.checks check.0 round depth) }
        ensures estimates { OnOk result (AreOf program.now self.new) }
    {
        let functions = program.functions.as_slice();
        let f = plan.checks()[check.0 as usize].function;
        match at(functions, f.0 as usize) {
            // the function of a check is one of the program's
            None => Ok(0),
            Some(f) => {
                let memo = &mut self.memo;
                rounds(alloc, program.types(), functions, memo, f, round, depth)
            }
        }
    }
}

/// The rounds from 0 to the last, together.
pub(crate) fn rounds(
    alloc: Global,
    types: &TypeTable,
    functions: &[Function],
    memo: &mut Memo,
    f: &Function,
    last: u32,
    depth: u32,
) -> Result<u64, NoMemory>
    requires last { last ≤ ROUNDS.most }
    requires memo { MemoOf types.now functions.now memo.old }
    ensures rounds { IfOk result (λ e. e ≡ cut (spec.rounds types.now functions.now f.now last depth)) }
    ensures sound { OnOk result (MemoOf types.now functions.now memo.new) }
{
    make_room(alloc, types, functions, memo)?;
    let mut total = 0u64;
    for round in 0..last + 1 {
        let place = Place {
            types,
            functions,
            fuel: round,
            own: true,
        };
        total = total.saturating_add(single(alloc, place, memo, f, depth)?);
    }
    Ok(total)
}

/// Forgets what is known where that is much.
fn make_room(
    alloc: Global,
    types: &TypeTable,
    functions: &[Function],
    memo: &mut Memo,
) -> Result<(), NoMemory>
    requires { MemoOf types.now functions.now memo.old }
    ensures { OnOk result (MemoOf types.now functions.now memo.new) }
{
    let numbers = types.datatypes.len().saturating_add(functions.len());
    if memo.known.len().saturating_mul(numbers) > MOST_NUMBERS {
        *memo = Memo::new(alloc)?;
    }
    Ok(())
}

/// One round by itself.
fn single(
    alloc: Global,
    place: Place<'_>,
    memo: &mut Memo,
    f: &Function,
    depth: u32,
) -> Result<u64, NoMemory>
    requires memo { IsMemo place memo.old }
    requires own { place.own ≡ true }
    ensures single { IfOk result (λ e. e ≡ cut
        (spec.single place.entry.types.now place.entry.functions.now f.now place.entry.fuel depth)) }
    ensures sound { OnOk result (IsMemo place.entry memo.new) }
{
    let args = shapes_to(alloc, depth, f.params.as_slice())?;
    let frame = frame_of(alloc, place, memo, f, args.as_slice())?;
    let inputs = inputs_of(
        alloc,
        place.types,
        &mut memo.rows,
        depth,
        f.params.as_slice(),
    )?;
    let own = inputs.saturating_add(frame.counts.work).saturating_mul(2);
    Ok(own.saturating_add(instances_of(place.types, place.functions, &frame.counts)))
}

/// The shapes of parameters up to a depth.
fn shapes_to(alloc: Global, depth: u32, params: &[Param]) -> Result<Shapes, NoMemory>
    ensures { IfOk result (λ shapes. shapes ≡ spec.shapes_to depth (param_sorts params.now)) }
{
    let mut shapes = Items::new(alloc);
    for p in params {
        shapes.push(Shape {
            sort: p.sort,
            height: height_in(p.sort, depth as u64),
        })?;
    }
    Ok(shapes)
}

/// The inputs of the arguments.
fn inputs_of(
    alloc: Global,
    types: &TypeTable,
    rows: &mut Rows,
    depth: u32,
    params: &[Param],
) -> Result<u64, NoMemory>
    requires { AreRows types.now rows.old }
    ensures inputs { IfOk result (λ n. n ≡ cut (spec.inputs types.now depth (param_sorts params.now))) }
    ensures rows { OnOk result (AreRows types.now rows.new) }
{
    let mut total = 0u64;
    for p in params {
        let size = size_of(alloc, types, rows, p.sort, depth as u64)?;
        total = total.saturating_add(size.bits.saturating_add(32).saturating_mul(4));
    }
    Ok(total)
}
