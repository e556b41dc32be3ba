//! Shelves in memory.

ghost use Rattle.std.specs.Prelude.{◌≡◌, ◌≢◌, ◌≤◌, ◌<◌, ◌+◌, ◌++◌, [], ◌∷◌, ℕ, List, Some, true, false, OnOk, OnErr};
ghost use Rattle.std.specs.Prelude.{IfOk, IfErr, IfSome, IsErrOf, IsErr, length, take, bytes_eq};
ghost use Rattle.pp_seam.specs.Asked.{AsksFor};
ghost use Rattle.pp_seam.specs.Faults.{raised, failed_after, times};
ghost use Rattle.pp_seam.specs.Shelved.{no_shelves, held_in, is_told, due};

use crate::entries::{Entry, find, replace};
use crate::{FetchFault, NoMemory, Shelf};
use std::alloc::Global;
use std::marker::Model;

/// Sources in memory. Chosen fetches may be told to fail.
#[derive(Drop)]
pub struct Shelves {
    alloc: Global,
    entries: Vec<Entry>,
    asked: Vec<String>,
    failed: Vec<String>,
    told: Vec<u64>,
    calls: u64,
    seen_at: usize,
    seen_len: usize,
}

impl Model for Shelves {
    ghost use Rattle.std.specs.Prelude.{map, take, string_bytes};
    ghost use Rattle.pp_seam.specs.Shelved.{Shelved, bytes_at};
    ghost use Rattle.pp_seam.specs.Entries.{entries_of};

    ghost Value = { Shelved };

    ghost view = { λ s. record {
      held = entries_of s.entries.items;
      asked = map string_bytes s.asked.items;
      failed = map string_bytes s.failed.items;
      told =
          s.told.items;
      calls = s.calls;
      seen = take s.seen_len (bytes_at (entries_of s.entries.items) s.seen_at);
    } };
}

impl Shelves {
    /// Shelves that hold no path, and no failure. It takes no memory.
    pub fn new(alloc: Global) -> Self
        ensures { result ≡ no_shelves }
    {
        Shelves {
            alloc,
            entries: Vec::new(alloc),
            asked: Vec::new(alloc),
            failed: Vec::new(alloc),
            told: Vec::new(alloc),
            calls: 0,
            seen_at: 0,
            seen_len: 0,
        }
    }

    /// Gives a path its bytes, in place of those that it held.
    ///
    /// # Errors
    ///
    /// There was no memory, and nothing has changed.
    pub fn add(&mut self, path: &str, bytes: &[u8]) -> Result<(), NoMemory>
        ensures path { OnOk result (held_in self.new.held path.now ≡ Some bytes.now) }
        ensures others { OnOk result
            ((p : List ℕ) → bytes_eq path.now p ≡ false → held_in self.new.held p ≡ held_in self.old.held p) }
        ensures asked { self.new.asked ≡ self.old.asked }
        ensures failed { self.new.failed ≡ self.old.failed }
        ensures told { self.new.told ≡ self.old.told }
        ensures calls { self.new.calls ≡ self.old.calls }
        ensures seen { OnOk result (self.new.seen ≡ []) }
        ensures err { OnErr result (self.new ≡ self.old) }
    {
        replace(self.alloc, &mut self.entries, path, bytes)?;
        self.seen_len = 0;
        Ok(())
    }

    /// The fetch with this number fails. Fetches are numbered from 1, and every number that was told counts.
    ///
    /// # Errors
    ///
    /// There was no memory, and nothing has changed.
    pub fn fail_at(&mut self, call: u32) -> Result<(), NoMemory>
        ensures ok { OnOk result (self.new ≡ record self.old { told = self.old.told ++ call ∷ [] }) }
        ensures err { OnErr result (self.new ≡ self.old) }
    {
        self.told.push(u64::from(call))?;
        Ok(())
    }

    // Answers Failed, and puts the path behind the failed ones.
    fn refuse(&mut self, path: &str) -> Result<Vec<u8>, FetchFault>
        ensures err { IsErr result }
        ensures fault { IfErr result (λ f. f ≢ FetchFault.Memory → f ≡ FetchFault.Failed) }
        ensures after { self.new ≡ record self.old { failed = failed_after self.old.failed path.now result } }
    {
        let path = String::from_str(self.alloc, path)?;
        self.failed.push(path)?;
        Err(FetchFault::Failed)
    }
}

impl Shelf for Shelves {
    ghost held = { λ s. held_in s.held };

    ghost asked = { λ s. s.asked };

    ghost failed = { λ s. s.failed };

    ghost seen = { λ s. s.seen };

    // What a fetch answers and leaves is told exactly, besides the clauses of the trait.
    fn fetch(&mut self, alloc: Global, path: &str, limit: usize) -> Result<Vec<u8>, FetchFault>
        ensures ok { IfOk result (λ v. due self.old path.now limit ≡ Ok v.items) }
        ensures err { IfErr result (λ f. f ≢ FetchFault.Memory → due self.old path.now limit ≡ Err f) }
        ensures held { self.new.held ≡ self.old.held }
        ensures told { self.new.told ≡ self.old.told }
        ensures calls { self.new.calls ≡ raised self.old.calls }

        ensures bound { IfOk result (λ v. length v.items ≤ limit) }
        ensures bytes { IfOk result (λ v. IfSome (held_in self.old.held path.now) (λ bs. v.items ≡ bs)) }
        ensures long { IsErrOf result FetchFault.TooLong → length self.new.seen ≡ limit + 1 }
        ensures long_seen { IsErrOf result FetchFault.TooLong
            → IfSome (held_in self.old.held path.now) (λ bs. self.new.seen ≡ take (limit + 1) bs) }
        ensures long_held { IsErrOf result FetchFault.TooLong
            → IfSome (held_in self.old.held path.now) (λ bs. limit < length bs) }
        ensures unseen { result ≢ Err FetchFault.TooLong → self.new.seen ≡ [] }
        ensures asked { AsksFor self.old.asked path.now result self.new.asked }
        ensures failed { self.new.failed ≡ failed_after self.old.failed path.now result }
        ensures rose { IsErrOf result FetchFault.Failed
            → times path.now self.new.failed ≡ times path.now self.old.failed + 1 }
        ensures others { (p : List ℕ) → bytes_eq p path.now ≡ false
            → times p self.new.failed ≡ times p self.old.failed }
        ensures kept { (p : List ℕ) → held_in self.new.held p ≡ held_in self.old.held p }
    {
        self.calls = self.calls.saturating_add(1);
        self.seen_len = 0;
        let name = String::from_str(self.alloc, path)?;
        self.asked.push(name)?;
        if self.told.contains(&self.calls) {
            return self.refuse(path);
        }
        let Some(found) = find(&self.entries, path) else {
            return self.refuse(path);
        };
        if limit < found.bytes.len() {
            self.seen_at = found.place;
            self.seen_len = limit + 1;
            return Err(FetchFault::TooLong);
        }
        Ok(found.bytes.to_vec(alloc)?)
    }
}
