//! What takes the text of the program, with its faults counted.

ghost use Rattle.std.specs.Prelude.{◌≡◌, ◌≤◌, [], ℕ, List, Option, OnOk, OnErr, IsOk};
ghost use Rattle.std.specs.Io.KnownBytes.{Appends};
ghost use Rattle.pp_seam.specs.Faults.{Rose};
ghost use Rattle.pp_seam.specs.Pieces.{AppendsFront};

use crate::PutFault;

/// What takes bytes, piece by piece.
pub trait Sink {
    /// The bytes that it took, where they are told.
    ghost taken: { Self → Option (List ℕ) };

    /// How often a put failed, as far as the count goes.
    ghost faults: { Self → ℕ };

    /// Takes a piece whole, without taking memory. An empty piece is always taken.
    ///
    /// # Errors
    ///
    /// `Failed` where the count of faults rose by one in this call, or stands at 2^64 - 1. Then a front of the piece
    /// was taken.
    fn put(&mut self, bytes: &[u8]) -> Result<(), PutFault>
        ensures whole { OnOk result (Appends (taken self.old) (taken self.new) bytes.now) }
        ensures front { OnErr result (AppendsFront (taken self.old) (taken self.new) bytes.now) }
        ensures cause { OnErr result (Rose (faults self.old) (faults self.new)) }
        ensures steady { OnOk result (faults self.new ≡ faults self.old) }
        ensures later { faults self.old ≤ faults self.new }
        ensures empty { bytes.now ≡ [] → IsOk result };
}
