//! Sum, difference, product and negation, which wrap.

ghost use Rattle.std.specs.Prelude.{◌≡◌, ℤ, neg_ℤ, ◌+ℤ◌, ◌-ℤ◌, ◌*ℤ◌};
ghost use Rattle.std.specs.Int.{Width, w32, cast_unsigned};
ghost use Rattle.pp_word.specs.Word.{word_add, word_sub, word_mul, word_neg};
ghost use Rattle.pp_word.specs.Wrapping.{IsWord, WrapsTo, IsUnsignedReading};

/// The sum, wrapped to 32 bits (JLS 15.18.2).
pub fn add(a: i32, b: i32) -> i32
    ensures { result ≡ word_add w32 a b }
{
    a.wrapping_add(b)
}

/// The difference, wrapped to 32 bits (JLS 15.18.2).
pub fn sub(a: i32, b: i32) -> i32
    ensures { result ≡ word_sub w32 a b }
{
    a.wrapping_sub(b)
}

/// The product, wrapped to 32 bits (JLS 15.17.1).
pub fn mul(a: i32, b: i32) -> i32
    ensures { result ≡ word_mul w32 a b }
{
    a.wrapping_mul(b)
}

/// The negation, wrapped to 32 bits, so that of `i32::MIN` is `i32::MIN` (JLS 15.15.4).
pub fn neg(a: i32) -> i32
    ensures { result ≡ word_neg w32 a }
{
    a.wrapping_neg()
}

/// Each of the four is the one word that differs from the exact sum, difference, product or negation by a multiple of
/// 2^bits. The bits of a word, as a number, differ from it by such a multiple too, and are below 2^bits.
pub fn wrapping_law()
    ensures sum { (w : Width) (a b : ℤ) → WrapsTo w (a +ℤ b) (word_add w a b) }
    ensures difference { (w : Width) (a b : ℤ) → WrapsTo w (a -ℤ b) (word_sub w a b) }
    ensures product { (w : Width) (a b : ℤ) → WrapsTo w (a *ℤ b) (word_mul w a b) }
    ensures negation { (w : Width) (a : ℤ) → WrapsTo w (neg_ℤ a) (word_neg w a) }
    ensures reading { (w : Width) (a : ℤ) → IsWord w a
        → IsUnsignedReading w a (cast_unsigned w a) }
{}
