//! The depths of call trees.

ghost use Rattle.std.specs.Prelude.{◌≡◌, ◌<◌, ◌+◌, ◌^◌, IfOk, None, length, replicate};
ghost use Rattle.std.specs.List.{list_all};
ghost use Rattle.pp_graph.specs.Reaches.{calls_of};
ghost use Rattle.pp_checks.specs.Closed.{IsNesting};
ghost use Rattle.pp_checks.specs.Plan.{AreOf};
ghost use Rattle.pp_checks.specs.Tables as spec;
ghost use Rattle.pp_checks.specs.Tables.{AreSettled, AreSettledTo};

use crate::NoMemory;
use pp_list::{Items, at};
use std::alloc::Global;

/// The depth of each function's call tree, or none where it has no end.
pub(crate) fn nestings_of(
    alloc: Global,
    calls: &[Items<u32>],
) -> Result<Items<Option<u32>>, NoMemory>
    requires { length calls.now < 2 ^ 32 }
    ensures { IfOk result (λ depths. AreOf (IsNesting calls.now) (length calls.now) depths) }
{
    let mut depths = unknown(alloc, calls.len())?;
    let depths_tried = calls.len() + 1;
    for depth in 0..depths_tried {
        settle(calls, &mut depths, depth as u32);
    }
    Ok(depths)
}

fn unknown(alloc: Global, n: usize) -> Result<Items<Option<u32>>, NoMemory>
    ensures { IfOk result (λ depths. depths ≡ replicate n None) }
{
    let mut depths = Items::new(alloc);
    for i in 0..n {
        depths.push(None)?;
    }
    Ok(depths)
}

/// Gives this depth to each function whose depth isn't known yet and whose called functions all have less.
fn settle(calls: &[Items<u32>], depths: &mut Items<Option<u32>>, depth: u32)
    requires { AreSettled calls.now depth depths.old }
    ensures { AreSettled calls.now (depth + 1) depths.new }
{
    for f in 0..calls.len() {
        settle_one(calls, depths, depth, f);
    }
}

/// Gives this depth to function f, where its depth isn't known yet and its called functions all have less.
fn settle_one(calls: &[Items<u32>], depths: &mut Items<Option<u32>>, depth: u32, f: usize)
    requires here { f < length calls.now }
    requires settled { AreSettledTo calls.now depth f depths.old }
    ensures { AreSettledTo calls.now depth (f + 1) depths.new }
{
    if !is_unknown(depths.as_slice(), f) {
        return;
    }
    if are_before(depths.as_slice(), depth, called(calls, f)) {
        depths.set(f, Some(depth));
    }
}

fn called(calls: &[Items<u32>], f: usize) -> &[u32]
    requires { f < length calls.now }
    ensures { result.now ≡ calls_of calls.now f }
{
    calls[f].as_slice()
}

fn is_unknown(depths: &[Option<u32>], f: usize) -> bool
    ensures { result ≡ spec.is_unknown depths.now f }
{
    match at(depths, f) {
        None => false,
        Some(depth) => depth.is_none(),
    }
}

/// Whether the depth of each of these functions is known and less.
fn are_before(depths: &[Option<u32>], depth: u32, gs: &[u32]) -> bool
    ensures { result ≡ list_all (spec.is_before depths.now depth) gs.now }
{
    for g in gs {
        if !is_before(depths, depth, *g) {
            return false;
        }
    }
    true
}

fn is_before(depths: &[Option<u32>], depth: u32, g: u32) -> bool
    ensures { result ≡ spec.is_before depths.now depth g }
{
    match at(depths, g as usize) {
        None => 0 < depth,
        Some(None) => false,
        Some(Some(known)) => *known < depth,
    }
}
