//! Pieces of a source, and whether these are units.

use crate::adding::push_size;
use crate::reading::unit;
use bumpalo::Bump;
use pp_case_line::CaseLine;
use std::alloc::Global;

/// Adds whether the source is a unit, how often it can be cut within its outer braces, and how many of the pieces
/// before the cuts are units.
pub fn push_count(out: &mut CaseLine, alloc: Global, source: &[u8]) {
    let mut cuts: usize = 0;
    let mut units: usize = 0;
    for cut in 0..source.len() {
        let (piece, rest) = source.split_at(cut);
        if piece.contains(&b'{') && rest.contains(&b'}') {
            cuts = cuts.saturating_add(1);
            units = units.saturating_add(unit_count(alloc, piece));
        }
    }
    push_size(out, "", unit_count(alloc, source));
    push_size(out, " whole, ", cuts);
    push_size(out, " cuts, ", units);
    out.put(" units");
}

/// One for a unit, and else none.
fn unit_count(alloc: Global, source: &[u8]) -> usize {
    let arena = Bump::new(alloc);
    unit(alloc, &arena, source).is_ok() as usize
}
