//! A memo of an estimate: the frames that were counted, and the sizes that were asked for.

ghost use Rattle.std.specs.Prelude.{◌≡◌, ◌↔◌, [], ◌∷◌, ◌++◌, IfOk, IfSome, IsTrue, OnOk, Some, length, slice_get};
ghost use Rattle.pp_estimate.specs.Counted.{IsEntry};

use crate::NoMemory;
use crate::counts::Counts;
use crate::shape::{Shape, Shapes};
use crate::sizes::Rows;
use pp_list::{Items, at};
use pp_prog::FunctionId;
use std::alloc::Global;
use std::marker::Model;

/// A frame that was counted: what its visit met, the shape of its value, and the components of its measure.
#[derive(Drop)]
pub(crate) struct Framed {
    pub counts: Counts,
    pub shape: Shape,
    pub measure: Shapes,
}

/// A called frame that is known, of a function at some fuel and at arguments of these shapes.
#[derive(Drop)]
pub(crate) struct Known {
    pub function: u32,
    pub fuel: u32,
    pub args: Shapes,
    pub frame: Framed,
}

/// How many buckets there are.
const BUCKETS: usize = 1024;

/// Called frames that are known, in the order in which they were counted. Contracts see the list.
#[derive(Drop)]
pub(crate) struct KnownFrames {
    known: Items<Known>,
    // for each bucket the places of its frames; no answer rests on them, since the frame at a place is looked at
    buckets: Vec<Vec<usize>>,
}

impl Model for KnownFrames {
    ghost use Rattle.std.specs.Prelude.{List};
    ghost use Rattle.pp_estimate.specs.declared.memo.Known.{Known};

    ghost Value = { List Known };

    ghost view = { λ f. f.known };
}

impl KnownFrames {
    /// No frame is known.
    fn new(alloc: Global) -> Result<KnownFrames, NoMemory>
        ensures { IfOk result (λ f. f ≡ []) }
    {
        Ok(KnownFrames {
            known: Items::new(alloc),
            buckets: empty_buckets(alloc)?,
        })
    }

    /// The frames.
    pub(crate) fn as_slice(&self) -> &[Known]
        ensures { result.now ≡ self.now }
    {
        self.known.as_slice()
    }

    /// How many frames there are.
    pub(crate) fn len(&self) -> usize
        ensures { result ≡ length self.now }
    {
        self.known.len()
    }

    /// The place of the frame of function g at this fuel and these arguments, if it is known.
    pub(crate) fn find(&self, g: FunctionId, fuel: u32, args: &[Shape]) -> Option<usize>
        ensures { IfSome result (λ i. IsEntry self.now i g.0 fuel args.now) }
    {
        match self.buckets.get(bucket_of(g.0, fuel, args)) {
            None => None,
            Some(places) => find_among(self.known.as_slice(), places.as_slice(), g, fuel, args),
        }
    }

    /// Adds a frame at the end.
    pub(crate) fn push(&mut self, frame: Known) -> Result<(), NoMemory>
        ensures { OnOk result (self.new ≡ self.old ++ frame ∷ []) }
    {
        let bucket = bucket_of(frame.function, frame.fuel, frame.args.as_slice());
        put(&mut self.buckets, bucket, self.known.len())?;
        self.known.push(frame)?;
        Ok(())
    }
}

/// The buckets, which are empty.
fn empty_buckets(alloc: Global) -> Result<Vec<Vec<usize>>, NoMemory> {
    let mut buckets = Vec::with_capacity(alloc, BUCKETS)?;
    for _ in 0..BUCKETS {
        buckets.push(Vec::new(alloc))?;
    }
    Ok(buckets)
}

/// The bucket of a frame, by its function, its fuel and the heights of its arguments.
fn bucket_of(function: u32, fuel: u32, args: &[Shape]) -> usize {
    let mut digest = (function as u64).wrapping_mul(31).wrapping_add(fuel as u64);
    for s in args {
        digest = digest.wrapping_mul(31).wrapping_add(s.height);
    }
    digest as usize % BUCKETS
}

/// Puts a frame's place into the bucket.
fn put(buckets: &mut Vec<Vec<usize>>, bucket: usize, place: usize) -> Result<(), NoMemory> {
    if bucket < buckets.len() {
        buckets[bucket].push(place)?;
    }
    Ok(())
}

/// The first of these places at which the frame of function g stands, at this fuel and these arguments.
fn find_among(
    known: &[Known],
    places: &[usize],
    g: FunctionId,
    fuel: u32,
    args: &[Shape],
) -> Option<usize>
    ensures { IfSome result (λ i. IsEntry known.now i g.0 fuel args.now) }
{
    for place in places {
        if is_at(known, *place, g, fuel, args) {
            return Some(*place);
        }
    }
    None
}

/// Whether the frame of function g at this fuel and these arguments stands at this place.
fn is_at(known: &[Known], place: usize, g: FunctionId, fuel: u32, args: &[Shape]) -> bool
    ensures { IsTrue result → IsEntry known.now place g.0 fuel args.now }
{
    match at(known, place) {
        None => false,
        Some(frame) => is_for(frame, g, fuel, args),
    }
}

fn is_for(known: &Known, g: FunctionId, fuel: u32, args: &[Shape]) -> bool
    ensures { IsTrue result ↔ ((known.now.function ≡ g.0) × (known.now.fuel ≡ fuel) × (known.now.args ≡ args.now)) }
{
    if known.function != g.0 || known.fuel != fuel {
        return false;
    }
    are_same(known.args.as_slice(), args)
}

fn are_same(a: &[Shape], b: &[Shape]) -> bool
    ensures { IsTrue result ↔ (a.now ≡ b.now) }
{
    if a.len() != b.len() {
        return false;
    }
    for i in 0..a.len() {
        if a[i] != b[i] {
            return false;
        }
    }
    true
}

/// What an estimate knows already: called frames, and the sizes up to the first heights.
#[derive(Drop)]
pub(crate) struct Memo {
    pub known: KnownFrames,
    pub rows: Rows,
}

impl Memo {
    /// A memo in which nothing is known.
    pub(crate) fn new(alloc: Global) -> Result<Memo, NoMemory>
        ensures { IfOk result (λ m. m ≡ record { known = []; rows = [] }) }
    {
        Ok(Memo {
            known: KnownFrames::new(alloc)?,
            rows: Items::new(alloc),
        })
    }
}
