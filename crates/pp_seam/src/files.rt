//! Files as a shelf.

ghost use Rattle.std.specs.Prelude.{◌≡◌, ◌≢◌, ◌≤◌, ◌<◌, ◌+◌, ℕ, List, [], length, take, map, string_bytes, bytes_eq};
ghost use Rattle.std.specs.Prelude.{false, IfOk, IfErr, IfSome, IsErrOf};
ghost use Rattle.pp_seam.specs.Asked.{AsksFor};
ghost use Rattle.pp_seam.specs.Faults.{failed_after, times};
ghost use Rattle.pp_seam.specs.Reads.{untold, IsOverlong, IsGiven, IsGivenWhole, IsOverlongGiven};

use crate::{FetchFault, ReadFault, Shelf, read_within};
use std::alloc::Global;
use std::fs;
use std::rt::Files;

/// The files of a system as a shelf. It doesn't tell what they hold.
#[derive(Drop)]
pub struct FileShelf<R: Files + Drop> {
    /// Where the memory for paths comes from.
    pub alloc: Global,
    /// The system whose files these are.
    pub files: R,
    /// The paths that were asked for, in order.
    pub asked: Vec<String>,
    /// The paths whose fetch failed, in order.
    pub failed: Vec<String>,
    /// The bytes that the last fetch read, where they were too many; else empty.
    pub overlong: Vec<u8>,
}

impl<R: Files + Drop> FileShelf<R> {
    /// The files of this system, none of which was asked for.
    pub fn new(alloc: Global, files: R) -> Self
        ensures asked { result.asked.items ≡ [] }
        ensures failed { result.failed.items ≡ [] }
        ensures overlong { result.overlong.items ≡ [] }
    {
        FileShelf {
            alloc,
            files,
            asked: Vec::new(alloc),
            failed: Vec::new(alloc),
            overlong: Vec::new(alloc),
        }
    }
}

// The bytes of a file, of which there are at most `limit`.
fn read_file<R: Files>(
    alloc: Global,
    files: &R,
    path: &str,
    limit: usize,
) -> Result<Vec<u8>, ReadFault>
    ensures bound { IfOk result (λ v. length v.items ≤ limit) }
    ensures whole { IfOk result (λ v. IsGivenWhole R.File.remaining v.items) }
    ensures long { IfErr result (IsOverlong limit) }
    ensures long_given { IfErr result (IsOverlongGiven R.File.remaining) }
{
    match fs::open(files, path) {
        Err(_) => Err(ReadFault::Failed),
        Ok(mut file) => read_within(alloc, &mut file, limit),
    }
}

impl<R: Files + Drop> Shelf for FileShelf<R> {
    ghost held = { λ s. untold };

    ghost asked = { λ s. map string_bytes s.asked.items };

    ghost failed = { λ s. map string_bytes s.failed.items };

    ghost seen = { λ s. s.overlong.items };

    // Besides the clauses of the trait: what is given is what some file of the system had left, to its end where the
    // answer is Ok. Which file, from where, and how often one is opened, no clause says: `open` tells nothing of it.
    fn fetch(&mut self, alloc: Global, path: &str, limit: usize) -> Result<Vec<u8>, FetchFault>
        ensures whole { IfOk result (λ v. IsGivenWhole R.File.remaining v.items) }
        ensures long_given { IsErrOf result FetchFault.TooLong → IsGiven R.File.remaining self.new.overlong.items }

        ensures bound { IfOk result (λ v. length v.items ≤ limit) }
        ensures bytes { IfOk result (λ v. IfSome (untold path.now) (λ bs. v.items ≡ bs)) }
        ensures long { IsErrOf result FetchFault.TooLong → length self.new.overlong.items ≡ limit + 1 }
        ensures long_seen { IsErrOf result FetchFault.TooLong
            → IfSome (untold path.now) (λ bs. self.new.overlong.items ≡ take (limit + 1) bs) }
        ensures long_held { IsErrOf result FetchFault.TooLong → IfSome (untold path.now) (λ bs. limit < length bs) }
        ensures unseen { result ≢ Err FetchFault.TooLong → self.new.overlong.items ≡ [] }
        ensures asked { AsksFor (map string_bytes self.old.asked.items) path.now result
            (map string_bytes self.new.asked.items) }
        ensures failed { map string_bytes self.new.failed.items ≡ failed_after (map string_bytes self.old.failed.items)
            path.now result }
        ensures rose { IsErrOf result FetchFault.Failed
            → times path.now (map string_bytes self.new.failed.items) ≡ times path.now
            (map string_bytes self.old.failed.items) + 1 }
        ensures others { (p : List ℕ) → bytes_eq p path.now ≡ false
            → times p (map string_bytes self.new.failed.items) ≡ times p (map string_bytes self.old.failed.items) }
        ensures kept { (p : List ℕ) → untold p ≡ untold p }
    {
        self.overlong = Vec::new(self.alloc);
        let name = String::from_str(self.alloc, path)?;
        self.failed.reserve(1)?;
        let asked = String::from_str(self.alloc, path)?;
        self.asked.push(asked)?;
        match read_file(alloc, &self.files, path, limit) {
            Ok(bytes) => Ok(bytes),
            Err(ReadFault::Failed) => {
                self.failed.push(name).unwrap();
                Err(FetchFault::Failed)
            }
            Err(ReadFault::TooLong(bytes)) => {
                self.overlong = bytes;
                Err(FetchFault::TooLong)
            }
            Err(ReadFault::Memory) => Err(FetchFault::Memory),
        }
    }
}
