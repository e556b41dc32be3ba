//! Calls and frames: what a call gives, by a memo of the frames that were counted.

ghost use Rattle.std.specs.Prelude.{◌≡◌, false, IfOk, OnOk, map};
ghost use Rattle.pp_estimate.specs.Counted.{IsFrameAt, counted};
ghost use Rattle.pp_estimate.specs.Frames.{components, contract_events, frame};
ghost use Rattle.pp_estimate.specs.Place.{IsMemo, IsSound, place_called, place_calls, place_contract, place_framed};
ghost use Rattle.pp_estimate.specs.Place.{place_measure};
ghost use Rattle.pp_estimate.specs.Visits.{shape_of};

use crate::NoMemory;
use crate::comparing::compare;
use crate::counts::{Counts, uncounted};
use crate::memo::{Framed, Known, Memo};
use crate::place::{Place, no_frame, unfinished};
use crate::shape::{Shape, Shapes};
use crate::visit::{visit, visit_all, visit_guard};
use crate::weights::UNFINISHED;
use pp_list::{Items, at};
use pp_prog::{CheckId, Function, FunctionId};
use std::alloc::Global;

/// A call, from a frame whose measure has these components: what it gives, for arguments of these shapes.
#[cycle(visit)]
pub(crate) fn call(
    alloc: Global,
    place: Place<'_>,
    memo: &mut Memo,
    counts: &mut Counts,
    g: FunctionId,
    check: Option<CheckId>,
    old: &[Shape],
    args: &[Shape],
) -> Result<Shape, NoMemory>
    requires { IsSound place memo.old counts.old }
    ensures shape { IfOk result (λ s. s ≡ (place_calls place.entry g check old.now args.now).shape) }
    ensures counted { OnOk result (counts.new
        ≡ counted counts.old (place_calls place.entry g check old.now args.now).events) }
    ensures sound { OnOk result (IsSound place.entry memo.new counts.new) }
{
    if place.fuel == 0 {
        counts.add_work(UNFINISHED);
        if place.own {
            let measure = contract_of(alloc, place, memo, counts, g, args)?;
            compare(
                alloc,
                place.types,
                &mut memo.rows,
                counts,
                check,
                measure.as_slice(),
                old,
            )?;
        }
        return Ok(unfinished(place.functions, g));
    }
    let inner = Place {
        types: place.types,
        functions: place.functions,
        fuel: place.fuel - 1,
        own: false,
    };
    let i = known_frame(alloc, inner, memo, g, args)?;
    let frame = &memo.known.as_slice()[i].frame;
    counts.add_all(&frame.counts);
    compare(
        alloc,
        place.types,
        &mut memo.rows,
        counts,
        check,
        frame.measure.as_slice(),
        old,
    )?;
    Ok(frame.shape)
}

/// The visit of a precondition, if one is written, and of a measure list: the shapes of the measure's components.
#[cycle(visit)]
#[tactic(auto, using(crate::proofs::Merged::counted_append))]
fn contracts(
    alloc: Global,
    place: Place<'_>,
    memo: &mut Memo,
    counts: &mut Counts,
    f: &Function,
    env: &mut Shapes,
) -> Result<Shapes, NoMemory>
    requires { IsSound place memo.old counts.old }
    ensures shape { IfOk result (λ ss. ss ≡ map shape_of
        (components place.entry.types.now (place_calls place.entry) f.now.measure env.old)) }
    ensures counted { OnOk result (counts.new
        ≡ counted counts.old (contract_events place.entry.types.now (place_calls place.entry) f.now env.old)) }
    ensures kept { OnOk result (env.new ≡ env.old) }
    ensures sound { OnOk result (IsSound place.entry memo.new counts.new) }
{
    visit_guard(alloc, place, memo, counts, &[], env, &f.pre)?;
    let measure = visit_all(alloc, place, memo, counts, &[], env, f.measure.as_slice())?;
    Ok(measure)
}

/// The visit of the contract of a called function, with no fuel: the shapes of its measure's components.
#[cycle(visit)]
fn contract_of(
    alloc: Global,
    place: Place<'_>,
    memo: &mut Memo,
    counts: &mut Counts,
    g: FunctionId,
    args: &[Shape],
) -> Result<Shapes, NoMemory>
    requires { IsSound place memo.old counts.old }
    ensures shape { IfOk result (λ ss. ss ≡ place_measure place.entry g args.now) }
    ensures counted { OnOk result (counts.new ≡ counted counts.old (place_contract place.entry g args.now)) }
    ensures sound { OnOk result (IsSound place.entry memo.new counts.new) }
{
    match at(place.functions, g.0 as usize) {
        None => Ok(Items::new(alloc)),
        Some(f) => {
            let inner = Place {
                types: place.types,
                functions: place.functions,
                fuel: 0,
                own: false,
            };
            let mut env = Items::from_slice(alloc, args)?;
            let measure = contracts(alloc, inner, memo, counts, f, &mut env)?;
            Ok(measure)
        }
    }
}

/// The frame of a function on arguments of these shapes, counted.
#[cycle(visit)]
#[tactic(auto, using(crate::proofs::Merged::counted_append))]
pub(crate) fn frame_of(
    alloc: Global,
    place: Place<'_>,
    memo: &mut Memo,
    f: &Function,
    args: &[Shape],
) -> Result<Framed, NoMemory>
    requires { IsMemo place memo.old }
    ensures frame { IfOk result (λ r. r ≡ place_framed place.entry
        (frame place.entry.types.now (place_calls place.entry) f.now args.now)) }
    ensures sound { OnOk result (IsMemo place.entry memo.new) }
{
    let mut counts = uncounted(alloc, place.types.datatypes.len(), place.functions.len())?;
    let mut env = Items::from_slice(alloc, args)?;
    let measure = contracts(alloc, place, memo, &mut counts, f, &mut env)?;
    let result = visit(
        alloc,
        place,
        memo,
        &mut counts,
        measure.as_slice(),
        &mut env,
        &f.body,
    )?;
    match &f.post {
        None => {}
        Some(post) => {
            env.push(result)?;
            visit(
                alloc,
                place,
                memo,
                &mut counts,
                measure.as_slice(),
                &mut env,
                &post.1,
            )?;
        }
    }
    Ok(Framed {
        counts,
        shape: Shape {
            sort: f.result,
            height: result.height,
        },
        measure,
    })
}

/// The place in the memo of a called frame, which is added where it isn't known yet.
#[cycle(visit)]
fn known_frame(
    alloc: Global,
    place: Place<'_>,
    memo: &mut Memo,
    g: FunctionId,
    args: &[Shape],
) -> Result<usize, NoMemory>
    requires memo { IsMemo place memo.old }
    requires called { place.own ≡ false }
    ensures frame { IfOk result (λ i. IsFrameAt memo.new.known i (place_called place.entry g args.now)) }
    ensures sound { OnOk result (IsMemo place.entry memo.new) }
{
    if let Some(i) = memo.known.find(g, place.fuel, args) {
        return Ok(i);
    }
    let frame = match at(place.functions, g.0 as usize) {
        None => no_frame(alloc, place)?,
        Some(f) => frame_of(alloc, place, memo, f, args)?,
    };
    let i = memo.known.len();
    memo.known.push(Known {
        function: g.0,
        fuel: place.fuel,
        args: Items::from_slice(alloc, args)?,
        frame,
    })?;
    Ok(i)
}
