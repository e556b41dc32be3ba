//! Fetching the sources.

ghost use Rattle.std.specs.Prelude.{◌≡◌, ◌≢◌, ◌≤◌, ◌++◌, ◌∷◌, [], All, Err, IfOk, IfSome, IsErr, IsErrOf, List, ℕ};
ghost use Rattle.std.specs.Prelude.{length, map};
ghost use Rattle.pp_front.specs.Programs.{IsShort, bytes_of};
ghost use Rattle.pp_seam.specs.Faults.{failed_after};
ghost use Rattle.pp_text.specs.Limits.{most_bytes};
ghost use Rattle.pp_words.specs.Told.{texts};
ghost use Rattle.pureproof.specs.Fetched.{AreHeld, Asks, AsksFirst, FailsAt, IsHeld, IsTooLongAt, told};

use pp_seam::{FetchFault, Shelf};
use pp_text::MOST_BYTES;
use std::alloc::Global;

/// Keeps a source behind those that are fetched.
fn keep(sources: &mut Vec<Vec<u8>>, source: Vec<u8>) -> Result<(), FetchFault>
    ensures more { IfOk result (λ _. sources.new.items ≡ sources.old.items ++ source ∷ []) }
    ensures memory { IsErr result → result ≡ Err FetchFault.Memory }
{
    match sources.push(source) {
        Ok(()) => Ok(()),
        Err(_) => Err(FetchFault::Memory),
    }
}

/// Fetches the files in order, each once, up to the first that can't be fetched. The list is empty before; behind a
/// fault it has the sources before that file.
///
/// # Errors
/// `Failed` where the fetch of a file failed; `TooLong` where one has more than 262,144 bytes; `Memory`.
pub(crate) fn fetch_all<S: Shelf>(
    alloc: Global,
    files: &[&str],
    shelf: &mut S,
    sources: &mut Vec<Vec<u8>>,
) -> Result<(), FetchFault>
    requires none { sources.old.items ≡ [] }
    ensures held { IfOk result (λ _. AreHeld (S.held shelf.old) (texts files.now) (map bytes_of sources.new.items)) }
    ensures short { IfOk result (λ _. All IsShort sources.new.items) }
    ensures asked { IfOk result (λ _. Asks (told S.held S.asked S.failed S.seen shelf.old shelf.new)
        (texts files.now)) }
    ensures calm { result ≢ Err FetchFault.Failed → S.failed shelf.new ≡ S.failed shelf.old }
    ensures front { AsksFirst (told S.held S.asked S.failed S.seen shelf.old shelf.new) (texts files.now) }
    ensures failed { IsErrOf result FetchFault.Failed
        → FailsAt (told S.held S.asked S.failed S.seen shelf.old shelf.new) (texts files.now)
        (map bytes_of sources.new.items) }
    ensures long { IsErrOf result FetchFault.TooLong
        → IsTooLongAt (told S.held S.asked S.failed S.seen shelf.old shelf.new) (texts files.now)
        (map bytes_of sources.new.items) }
    ensures kept { (p : List ℕ) → S.held shelf.new p ≡ S.held shelf.old p }
{
    for path in files {
        match shelf.fetch(alloc, path, MOST_BYTES) {
            Ok(source) => keep(sources, source)?,
            Err(fault) => return Err(fault),
        }
    }
    Ok(())
}
