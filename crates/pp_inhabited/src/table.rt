//! Which sorts have a value by a table.

ghost use Rattle.std.specs.Prelude.{◌≡◌, ◌≤◌, if◌then◌else◌, length, map, slice_get};
ghost use Rattle.pp_inhabited.specs.Laws.{FewTypeParams};
ghost use Rattle.pp_inhabited.specs.Table.{all_live, has_arity, is_dead, lives, look, mask_of};

use pp_list::at;
use pp_typed::{GenericSort, TypedRoot};

/// The number of rows of each root: one for each choice of at most four type parameters.
pub(crate) const ROWS: usize = 16;

/// Whether the mask says that a type parameter has no value.
fn is_dead(mask: u32, param: u32) -> bool
    ensures { result ≡ is_dead mask param }
{
    let mut rest = mask;
    for _ in 0..param {
        rest /= 2;
    }
    rest % 2 == 1
}

/// The row of a root at a mask; false past the end of the table.
pub(crate) fn look(rows: &[bool], root: u32, mask: u32) -> bool
    ensures { result ≡ look rows.now root mask }
{
    match at(rows, ROWS * root as usize + mask as usize) {
        Some(row) => *row,
        None => false,
    }
}

/// Whether the root has so many arguments.
fn has_arity(roots: &[TypedRoot], root: u32, count: usize) -> bool
    ensures { result ≡ has_arity (slice_get roots.now root) count }
{
    match at(roots, root as usize) {
        Some(root) => count == root.type_params as usize,
        None => false,
    }
}

/// Whether a sort has a value by the table, where the type parameters of the mask have none.
#[cycle(lives)]
fn lives(roots: &[TypedRoot], rows: &[bool], mask: u32, sort: &GenericSort) -> bool
    requires { FewTypeParams roots.now }
    ensures { result ≡ lives roots.now rows.now mask sort.now }
{
    match sort {
        GenericSort::Int => true,
        GenericSort::Bool => true,
        GenericSort::Param(i) => !is_dead(mask, *i),
        GenericSort::Root(root, parts) => {
            let parts = parts.as_slice();
            has_arity(roots, *root, parts.len())
                && look(rows, *root, mask_of(roots, rows, mask, parts))
        }
    }
}

/// The mask of the sorts that have no value by the table.
#[cycle(lives)]
fn mask_of(roots: &[TypedRoot], rows: &[bool], mask: u32, parts: &[GenericSort]) -> u32
    requires few { FewTypeParams roots.now }
    requires parts { length parts.now ≤ 4 }
    ensures { result ≡ mask_of (map (lives roots.now rows.now mask) parts.now) }
{
    let mut digits = 0;
    let mut i = parts.len();
    while i > 0 {
        i -= 1;
        digits = digit(lives(roots, rows, mask, &parts[i])) + 2 * digits;
    }
    digits
}

/// The digit of a sort in a mask.
fn digit(lives: bool) -> u32
    ensures value { result ≡ (if lives then 0 else 1) }
    ensures small { result ≤ 1 }
{
    if lives { 0 } else { 1 }
}

/// Whether each of the sorts has a value by the table.
pub(crate) fn all_live(roots: &[TypedRoot], rows: &[bool], mask: u32, sorts: &[GenericSort]) -> bool
    requires { FewTypeParams roots.now }
    ensures { result ≡ all_live roots.now rows.now mask sorts.now }
{
    for sort in sorts {
        if !lives(roots, rows, mask, sort) {
            return false;
        }
    }
    true
}
