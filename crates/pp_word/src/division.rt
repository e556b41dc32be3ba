//! Quotient and remainder.

ghost use Rattle.std.specs.Prelude.{◌≡◌, ◌≢◌, ◌↔◌, ℤ, pos, negsuc, IsNone, IfSome};
ghost use Rattle.std.specs.Int.{Width, w32};
ghost use Rattle.pp_word.specs.Word.{word_div, word_rem};
ghost use Rattle.pp_word.specs.Wrapping.{IsWord, WrapsTo, least_word};
ghost use Rattle.pp_word.specs.Division.{IsQuotient, IsRemainder};

/// The quotient, rounded toward zero (JLS 15.17.2). `i32::MIN` by -1 is `i32::MIN`. `None` is for a divisor of 0, where
/// Scala throws.
pub fn div(a: i32, b: i32) -> Option<i32>
    ensures none { IsNone result ↔ (b ≡ pos 0) }
    ensures value { IfSome result (λ q. q ≡ word_div w32 a b) }
{
    if b == 0 {
        None
    } else {
        Some(a.wrapping_div(b))
    }
}

/// The remainder, with the sign of the dividend `a` (JLS 15.17.3). `i32::MIN` by -1 leaves 0. `None` is for a divisor
/// of 0, where Scala throws.
pub fn rem(a: i32, b: i32) -> Option<i32>
    ensures none { IsNone result ↔ (b ≡ pos 0) }
    ensures value { IfSome result (λ r. r ≡ word_rem w32 a b) }
{
    if b == 0 {
        None
    } else {
        Some(a.wrapping_rem(b))
    }
}

/// For each divisor but 0: the value of a division is what the quotient wraps to, and that of a remainder the
/// remainder.
/// The least word by -1 gives the least word, and leaves 0. Of other words the value of a division is the quotient
/// itself.
pub fn division_law()
    ensures quotient { (w : Width) (n d : ℤ) → d ≢ pos 0
        → (q : ℤ) × IsQuotient n d q × WrapsTo w q (word_div w n d) }
    ensures exact { (w : Width) (n d : ℤ) → d ≢ pos 0 → IsWord w n
        → ¬ ((n ≡ least_word w) × (d ≡ negsuc 0)) → IsQuotient n d (word_div w n d) }
    ensures remainder { (w : Width) (n d : ℤ) → d ≢ pos 0 → IsRemainder n d (word_rem w n d) }
    ensures remainder_fits { (w : Width) (n d : ℤ) → IsWord w n → IsWord w (word_rem w n d) }

    ensures least { (w : Width) → word_div w (least_word w) (negsuc 0) ≡ least_word w }
    ensures least_leaves { (w : Width) → word_rem w (least_word w) (negsuc 0) ≡ pos 0 }

    // what quotient and remainder mean leaves no choice
    ensures only_quotient { (n d p q : ℤ) → d ≢ pos 0
        → IsQuotient n d p → IsQuotient n d q → p ≡ q }
    ensures only_remainder { (n d r s : ℤ) → d ≢ pos 0
        → IsRemainder n d r → IsRemainder n d s → r ≡ s }
{}
