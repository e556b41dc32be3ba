//! Sources by path, with what was asked for and what failed.

ghost use Rattle.std.specs.Prelude.{◌≡◌, ◌≢◌, ◌≤◌, ◌<◌, ◌+◌, ℕ, List, [], Option, Some, false, length, take, bytes_eq};
ghost use Rattle.std.specs.Prelude.{IfOk, IfSome, IsErrOf};
ghost use Rattle.pp_seam.specs.Asked.{AsksFor};
ghost use Rattle.pp_seam.specs.Faults.{failed_after, times};

use crate::FetchFault;
use std::alloc::Global;

/// Sources by path.
///
/// A shelf may tell what its paths hold; then the clauses speak of that, and else only of the bytes that were read.
pub trait Shelf {
    /// The bytes of a path, where they are told.
    ghost held: { Self → List ℕ → Option (List ℕ) };

    /// The paths that were asked for, in order, whatever came of it. The list only grows at its end.
    ghost asked: { Self → List (List ℕ) };

    /// The paths whose fetch failed, in order. The list only grows at its end.
    ghost failed: { Self → List (List ℕ) };

    /// The bytes that the last fetch read, where they were too many and it didn't hand them out; else none.
    ghost seen: { Self → List ℕ };

    /// The bytes of a path, of which there are at most `limit`. Any limit may be given.
    ///
    /// # Errors
    ///
    /// `Failed`, and then the path stands once more at the end of the failed ones; `TooLong` where `limit + 1` bytes of
    /// the path were read; `Memory`, perhaps before the path is asked for. What the paths hold never changes, nor
    /// whether it is told.
    fn fetch(&mut self, alloc: Global, path: &str, limit: usize) -> Result<Vec<u8>, FetchFault>
        ensures bound { IfOk result (λ v. length v.items ≤ limit) }
        ensures bytes { IfOk result (λ v. IfSome (held self.old path.now) (λ bs. v.items ≡ bs)) }

        // one byte more than the limit was read, and no other
        ensures long { IsErrOf result FetchFault.TooLong → length (seen self.new) ≡ limit + 1 }
        ensures long_seen { IsErrOf result FetchFault.TooLong
            → IfSome (held self.old path.now) (λ bs. seen self.new ≡ take (limit + 1) bs) }
        ensures long_held { IsErrOf result FetchFault.TooLong
            → IfSome (held self.old path.now) (λ bs. limit < length bs) }

        ensures unseen { result ≢ Err FetchFault.TooLong → seen self.new ≡ [] }

        // it tells that it was asked for this path, once, and for no other
        ensures asked { AsksFor (asked self.old) path.now result (asked self.new) }
        ensures failed { failed self.new ≡ failed_after (failed self.old) path.now result }
        ensures rose { IsErrOf result FetchFault.Failed
            → times path.now (failed self.new) ≡ times path.now (failed self.old) + 1 }
        ensures others { (p : List ℕ) → bytes_eq p path.now ≡ false
            → times p (failed self.new) ≡ times p (failed self.old) }
        ensures kept { (p : List ℕ) → held self.new p ≡ held self.old p };
}
