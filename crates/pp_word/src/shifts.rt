//! Shifts.

#![tactic(auto)]

ghost use Rattle.std.specs.Prelude.{◌≡◌, ℕ, ◌^◌, ℤ, pos, ◌*ℤ◌};
ghost use Rattle.std.specs.Int.{Width, w32, cast_unsigned};
ghost use Rattle.pp_word.specs.Word.{shift_distance, word_shl, word_shr, word_ushr};
ghost use Rattle.pp_word.specs.Wrapping.{IsWord, WrapsTo};
ghost use Rattle.pp_word.specs.Shifts.{IsDistance, IsFloor};

/// The shift to the left, `<<`, by the low five bits of `b`: zeros come in on the right (JLS 15.19).
#[tactic(auto, unfolding(crate::specs::Word::shift_distance))]
pub fn shl(a: i32, b: i32) -> i32
    ensures { result ≡ word_shl w32 a b }
{
    a.wrapping_shl(b.cast_unsigned())
}

/// The shift to the right, `>>`, by the low five bits of `b`: copies of the sign come in on the left (JLS 15.19).
#[tactic(auto, unfolding(crate::specs::Word::shift_distance, crate::specs::Word::word_shr))]
pub fn shr(a: i32, b: i32) -> i32
    ensures { result ≡ word_shr w32 a b }
{
    a.wrapping_shr(b.cast_unsigned())
}

/// The unsigned shift to the right, `>>>`, by the low five bits of `b`: zeros come in on the left (JLS 15.19).
#[tactic(auto, unfolding(crate::specs::Word::shift_distance, crate::specs::Word::word_ushr))]
pub fn ushr(a: i32, b: i32) -> i32
    ensures { result ≡ word_ushr w32 a b }
{
    a.cast_unsigned()
        .wrapping_shr(b.cast_unsigned())
        .cast_signed()
}

/// A shift by b is one by k bits, the low bits of b. To the left it is what the product with 2^k wraps to, to the right
/// the floor of the quotient by 2^k, and unsigned what the floor of the unsigned reading's quotient by 2^k wraps to.
pub fn shift_law()
    ensures distance { (w : Width) (b : ℤ) → IsWord w b → IsDistance w b (shift_distance w b) }
    ensures left { (w : Width) (a b : ℤ)
        → WrapsTo w (a *ℤ pos (2 ^ shift_distance w b)) (word_shl w a b) }
    ensures right { (w : Width) (a b : ℤ) → IsFloor a (2 ^ shift_distance w b) (word_shr w a b) }
    ensures right_fits { (w : Width) (a b : ℤ) → IsWord w a → IsWord w (word_shr w a b) }
    ensures unsigned_right { (w : Width) (a b : ℤ) → IsWord w a
        → (q : ℤ) × IsFloor (pos (cast_unsigned w a)) (2 ^ shift_distance w b) q
        × WrapsTo w q (word_ushr w a b) }
{}
