//! Comparisons.

ghost use Rattle.std.specs.Prelude.{◌≡◌, ◌↔◌, ℤ, IsTrue};
ghost use Rattle.pp_word.specs.Word.{word_less, word_at_most};
ghost use Rattle.pp_word.specs.Order.{IsLess, IsAtMost};

/// Whether `a` is less than `b` (JLS 15.20.1). Whether it is greater is `less(b, a)`.
pub fn less(a: i32, b: i32) -> bool
    ensures { result ≡ word_less a b }
{
    a < b
}

/// Whether `a` is at most `b` (JLS 15.20.1). Whether it is at least `b` is `at_most(b, a)`.
pub fn at_most(a: i32, b: i32) -> bool
    ensures { result ≡ word_at_most a b }
{
    a <= b
}

/// A number is less than those that are it plus a positive number, and at most those that are it plus a natural number.
pub fn order_law()
    ensures less { (a b : ℤ) → IsTrue (word_less a b) ↔ IsLess a b }
    ensures at_most { (a b : ℤ) → IsTrue (word_at_most a b) ↔ IsAtMost a b }
{}
