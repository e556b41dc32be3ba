//! The operations on each bit.

#![tactic(auto)]

ghost use Rattle.std.specs.Prelude.{◌≡◌, ℕ, ◌<◌, ◌&&◌, ◌||◌, not, ℤ};
ghost use Rattle.std.specs.Int.{Width, w32};
ghost use Rattle.pp_word.specs.Word.{word_and, word_or, word_xor, word_not};
ghost use Rattle.pp_word.specs.Wrapping.{IsWord};
ghost use Rattle.pp_word.specs.Bits.{bit_of, differ};
ghost use mir.Val.{bits};

/// The bits that both have, `&` (JLS 15.22.1).
#[tactic(auto, unfolding(crate::specs::Word::word_and))]
pub fn and(a: i32, b: i32) -> i32
    ensures { result ≡ word_and w32 a b }
{
    a & b
}

/// The bits that one or both have, `|` (JLS 15.22.1).
#[tactic(auto, unfolding(crate::specs::Word::word_or))]
pub fn or(a: i32, b: i32) -> i32
    ensures { result ≡ word_or w32 a b }
{
    a | b
}

/// The bits that one of the two has and the other has not, `^` (JLS 15.22.1).
#[tactic(auto, unfolding(crate::specs::Word::word_xor))]
pub fn xor(a: i32, b: i32) -> i32
    ensures { result ≡ word_xor w32 a b }
{
    a ^ b
}

/// The bits that `a` has not, `~` (JLS 15.15.5).
#[tactic(auto, unfolding(crate::specs::Word::word_not))]
pub fn not(a: i32) -> i32
    ensures { result ≡ word_not w32 a }
{
    !a
}

/// Bit i of the result is made of bit i of the operands, the result is a word, and there is one word with given bits.
pub fn bit_law()
    ensures each_and { (w : Width) (a b : ℤ) (i : ℕ) → IsWord w a → IsWord w b
        → bit_of w (word_and w a b) i ≡ (bit_of w a i && bit_of w b i) }
    ensures each_or { (w : Width) (a b : ℤ) (i : ℕ) → IsWord w a → IsWord w b
        → bit_of w (word_or w a b) i ≡ (bit_of w a i || bit_of w b i) }
    ensures each_xor { (w : Width) (a b : ℤ) (i : ℕ) → IsWord w a → IsWord w b
        → bit_of w (word_xor w a b) i ≡ differ (bit_of w a i) (bit_of w b i) }
    ensures each_not { (w : Width) (a : ℤ) (i : ℕ) → IsWord w a → i < bits w
        → bit_of w (word_not w a) i ≡ not (bit_of w a i) }

    ensures and_fits { (w : Width) (a b : ℤ) → IsWord w a → IsWord w b → IsWord w (word_and w a b) }
    ensures or_fits { (w : Width) (a b : ℤ) → IsWord w a → IsWord w b → IsWord w (word_or w a b) }
    ensures xor_fits { (w : Width) (a b : ℤ) → IsWord w a → IsWord w b → IsWord w (word_xor w a b) }
    ensures not_fits { (w : Width) (a : ℤ) → IsWord w a → IsWord w (word_not w a) }

    ensures same_bits { (w : Width) (a b : ℤ) → IsWord w a → IsWord w b
        → ((i : ℕ) → i < bits w → bit_of w a i ≡ bit_of w b i) → a ≡ b }
{}
