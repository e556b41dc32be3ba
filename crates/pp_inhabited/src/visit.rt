//! Visits of constructors, which write the rows of a table.

ghost use Rattle.std.specs.Prelude.{◌≡◌, ◌<◌, ◌*◌, ◌||◌, length};
ghost use Rattle.pp_inhabited.specs.Laws.{FewTypeParams, IsSound};
ghost use Rattle.pp_inhabited.specs.Settled.{AreClosed, HaveRoots, IsClosedAtPlace, IsClosedBelow, Visited};

use crate::table::{ROWS, all_live, look};
use pp_list::Items;
use pp_typed::{TypedCtor, TypedRoot};

/// Visits constructors in order until no visit writes a row.
pub(crate) fn settle(roots: &[TypedRoot], ctors: &[TypedCtor], rows: &mut Items<bool>)
    requires few { FewTypeParams roots.now }
    requires owners { HaveRoots roots.now ctors.now }
    requires size { length rows.old ≡ 16 * length roots.now }
    requires sound { IsSound roots.now ctors.now rows.old }
    ensures sound { IsSound roots.now ctors.now rows.new }
    ensures closed { AreClosed roots.now ctors.now (length ctors.now) rows.new }
{
    let mut changed = true;
    while changed {
        changed = visit_all(roots, ctors, rows);
    }
}

/// Visits each constructor once, and answers whether a row was written.
fn visit_all(roots: &[TypedRoot], ctors: &[TypedCtor], rows: &mut Items<bool>) -> bool
    requires few { FewTypeParams roots.now }
    requires owners { HaveRoots roots.now ctors.now }
    requires size { length rows.old ≡ 16 * length roots.now }
    requires sound { IsSound roots.now ctors.now rows.old }
    ensures { Visited roots.now ctors.now rows.old rows.new result (AreClosed roots.now ctors.now (length ctors.now)) }
{
    let mut changed = false;
    for c in 0..ctors.len() {
        let wrote = visit(roots, ctors, rows, c);
        changed = either(changed, wrote);
    }
    changed
}

/// Visits a constructor at each mask, and answers whether a row was written.
pub(crate) fn visit(
    roots: &[TypedRoot],
    ctors: &[TypedCtor],
    rows: &mut Items<bool>,
    c: usize,
) -> bool
    requires few { FewTypeParams roots.now }
    requires owners { HaveRoots roots.now ctors.now }
    requires size { length rows.old ≡ 16 * length roots.now }
    requires sound { IsSound roots.now ctors.now rows.old }
    requires within { c < length ctors.now }
    ensures { Visited roots.now ctors.now rows.old rows.new result (IsClosedBelow roots.now ctors.now c 16) }
{
    let mut changed = false;
    for mask in 0..ROWS {
        let wrote = visit_at(roots, ctors, rows, c, mask as u32);
        changed = either(changed, wrote);
    }
    changed
}

/// Writes the row of a constructor's root at a mask where its fields have values there, and answers whether it did.
fn visit_at(
    roots: &[TypedRoot],
    ctors: &[TypedCtor],
    rows: &mut Items<bool>,
    c: usize,
    mask: u32,
) -> bool
    requires few { FewTypeParams roots.now }
    requires owners { HaveRoots roots.now ctors.now }
    requires size { length rows.old ≡ 16 * length roots.now }
    requires sound { IsSound roots.now ctors.now rows.old }
    requires within { c < length ctors.now }
    requires mask { mask < 16 }
    ensures { Visited roots.now ctors.now rows.old rows.new result (IsClosedAtPlace roots.now ctors.now c mask) }
{
    let ctor = &ctors[c];
    if look(rows.as_slice(), ctor.root, mask) {
        return false;
    }
    if !all_live(roots, rows.as_slice(), mask, ctor.fields.as_slice()) {
        return false;
    }
    rows.set(ROWS * ctor.root as usize + mask as usize, true);
    true
}

/// Whether one of the two holds.
fn either(a: bool, b: bool) -> bool
    ensures { result ≡ (a || b) }
{
    a || b
}
