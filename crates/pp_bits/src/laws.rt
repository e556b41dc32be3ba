//! What holds of the numbers that lists of literals stand for. These functions do nothing; their contracts are the
//! laws.

ghost use Rattle.pp_bits.specs.Laws.{DigitsBound, SignedByCast};

/// A number of n digits is less than 2^n.
#[tactic(auto, using(crate::proofs::Numbers::nat_of_below))]
pub fn digits_bound()
    ensures { DigitsBound }
{}

/// At the widths of Rust's integers two's complement is what a cast to the signed type makes of the digits.
#[tactic(auto, using(crate::proofs::Signs::signed_by_cast))]
pub fn signed_by_cast()
    ensures { SignedByCast }
{}
