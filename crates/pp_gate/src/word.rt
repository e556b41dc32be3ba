//! Words of 32 literals.

ghost use Rattle.std.specs.Prelude.{◌≡◌, ◌<◌, length, slice_get, Some};

use pp_clause::Lit;
use std::marker::Model;

/// 32 literals, the lowest first.
#[derive(Clone, Copy, PartialEq, Eq, Debug)]
pub struct Word {
    lits: [Lit; 32],
}

impl Model for Word {
    ghost use Rattle.std.specs.Prelude.{List};
    ghost use Rattle.pp_clause.specs.Literal.{Literal};

    ghost Value = { List Literal };

    ghost view = { λ w. w.lits };

    ghost inverse = { λ l. record { lits = l } };
}

impl Word {
    /// The word of these literals.
    #[inline]
    pub fn of(lits: [Lit; 32]) -> Word
        ensures value { result ≡ lits }
        ensures len { length result ≡ 32 }
    {
        Word { lits }
    }

    /// The word of these 32 literals.
    pub fn from_lits(lits: &[Lit]) -> Word
        requires { length lits.now ≡ 32 }
        ensures { result ≡ lits.now }
    {
        let mut all = [lits[0]; 32];
        all.copy_from_slice(lits);
        Word { lits: all }
    }

    /// The literal at a place from 0 to 31.
    #[inline(always)]
    pub fn bit(&self, place: u32) -> Lit
        requires { place < 32 }
        ensures { slice_get self.now place ≡ Some result }
    {
        self.lits[place as usize]
    }

    /// All 32 of them.
    #[inline(always)]
    pub fn lits(&self) -> &[Lit]
        ensures value { result.now ≡ self.now }
        ensures len { length self.now ≡ 32 }
    {
        &self.lits
    }
}
