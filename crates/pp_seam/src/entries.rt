//! What shelves in memory hold: a list of paths with their bytes, each path once.

ghost use Rattle.std.specs.Prelude.{◌≡◌, ℕ, List, Some, None, false, OnOk, OnErr, IfSome, IfNone, position, bytes_eq};
ghost use Rattle.std.specs.Prelude.{string_bytes};
ghost use Rattle.pp_seam.specs.Entries.{entries_of};
ghost use Rattle.pp_seam.specs.Shelved.{held_in, bytes_at};

use std::alloc::{AllocError, Global};

// A path with its bytes.
#[derive(Drop)]
pub(crate) struct Entry {
    path: String,
    bytes: Vec<u8>,
}

// Where a path stands, with its bytes.
#[derive(Clone, Copy)]
pub(crate) struct Found<'a> {
    pub(crate) place: usize,
    pub(crate) bytes: &'a [u8],
}

// Where a path stands first.
fn place_of(entries: &[Entry], path: &str) -> Option<usize>
    ensures { result ≡ position (λ e. bytes_eq (string_bytes e.path) path.now) entries.now }
{
    entries.iter().position(|entry| entry.path.as_str() == path)
}

// The entry of a path.
pub(crate) fn find<'a>(entries: &'a [Entry], path: &str) -> Option<Found<'a>>
    ensures held { IfSome result (λ f. held_in (entries_of entries.now) path.now ≡ Some f.bytes.now) }
    ensures place { IfSome result (λ f. bytes_at (entries_of entries.now) f.place ≡ f.bytes.now) }
    ensures none { IfNone result (held_in (entries_of entries.now) path.now ≡ None) }
{
    let place = place_of(entries, path)?;
    Some(Found {
        place,
        bytes: &entries[place].bytes,
    })
}

// Gives a path its bytes, in place of those that it held.
pub(crate) fn replace(
    alloc: Global,
    entries: &mut Vec<Entry>,
    path: &str,
    bytes: &[u8],
) -> Result<(), AllocError>
    ensures path { OnOk result (held_in (entries_of entries.new.items) path.now ≡ Some bytes.now) }
    ensures others { OnOk result ((p : List ℕ) → bytes_eq path.now p ≡ false
        → held_in (entries_of entries.new.items) p ≡ held_in (entries_of entries.old.items) p) }
    ensures err { OnErr result (entries.new.items ≡ entries.old.items) }
{
    let bytes = Vec::from_slice(alloc, bytes)?;
    if let Some(place) = place_of(entries, path) {
        let entry = &mut entries[place];
        entry.bytes = bytes;
        return Ok(());
    }
    let path = String::from_str(alloc, path)?;
    entries.push(Entry { path, bytes })?;
    Ok(())
}
