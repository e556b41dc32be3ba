//! Where a visit stands, and what is known there without a visit.

ghost use Rattle.std.specs.Prelude.{◌≡◌, [], IfOk, slice_get};
ghost use Rattle.pp_estimate.specs.Frames as frames;
ghost use Rattle.pp_estimate.specs.Place.{place_framed};
ghost use Rattle.pp_estimate.specs.Visits.{word};

use crate::NoMemory;
use crate::counts::uncounted;
use crate::memo::Framed;
use crate::shape::{Shape, height_in};
use pp_list::{Items, at};
use pp_prog::{Function, FunctionId, Sort, TypeTable};
use std::alloc::Global;

/// Where a visit stands: in a program of these types and functions, with this fuel, in the run's own frame or a
/// called one.
#[derive(Clone, Copy)]
pub(crate) struct Place<'a> {
    pub types: &'a TypeTable,
    pub functions: &'a [Function],
    pub fuel: u32,
    pub own: bool,
}

/// What a call gives that has no fuel left.
pub(crate) fn unfinished(functions: &[Function], g: FunctionId) -> Shape
    ensures { result ≡ frames.unfinished (slice_get functions.now g.0) }
{
    match at(functions, g.0 as usize) {
        None => Shape {
            sort: Sort::Int,
            height: 0,
        },
        Some(f) => Shape {
            sort: f.result,
            height: height_in(f.result, 1),
        },
    }
}

/// The frame of what is no function.
pub(crate) fn no_frame(alloc: Global, place: Place<'_>) -> Result<Framed, NoMemory>
    ensures { IfOk result (λ r. r ≡ place_framed place.entry (record { shape = word; measure = []; events = [] })) }
{
    Ok(Framed {
        counts: uncounted(alloc, place.types.datatypes.len(), place.functions.len())?,
        shape: Shape {
            sort: Sort::Int,
            height: 0,
        },
        measure: Items::new(alloc),
    })
}
