//! Literals: a variable or its negation, in one number.

ghost use Rattle.std.specs.Prelude.{◌≡◌, ◌^◌, ◌≤◌, true};

use std::marker::Model;

/// A variable, from 1 to 2^30, or its negation.
#[derive(Clone, Copy, PartialEq, Eq, Hash, Debug)]
pub struct Lit {
    // twice the variable, and one more for the negation
    code: u32,
}

impl Model for Lit {
    ghost use Rattle.std.specs.Prelude.{◌≡◌, ◌==◌, ◌+◌, ◌*◌, ◌/◌, ◌%◌, ◌^◌, ◌≤◌, if◌then◌else◌};
    ghost use Rattle.pp_clause.specs.Literal.{Literal};

    ghost Value = { Literal };

    ghost view = { λ l. record { var = l.code / 2; positive = l.code % 2 == 0 } };

    ghost invariant = { λ l. (2 ≤ l.code) × (l.code ≤ 2 ^ 31 + 1) };

    ghost inverse = { λ d. record { code = 2 * d.var + (if d.positive then 0 else 1) } };
}

impl Lit {
    ghost use Rattle.std.specs.Prelude.{◌*◌, ◌+◌, if◌then◌else◌};
    ghost use Rattle.pp_clause.specs.Literal.{opposite};

    /// The literal of the variable `var`, or of its negation.
    pub fn new(var: u32, positive: bool) -> Lit
        requires low { 1 ≤ var }
        requires high { var ≤ 2 ^ 30 }
        ensures var { result.var ≡ var }
        ensures positive { result.positive ≡ positive }
    {
        Lit {
            code: 2 * var + if positive { 0 } else { 1 },
        }
    }

    /// The literal that is true exactly where this one is false.
    pub fn negated(self) -> Lit
        ensures { result ≡ opposite self }
    {
        Lit {
            code: if self.code % 2 == 0 {
                self.code + 1
            } else {
                self.code - 1
            },
        }
    }

    /// The variable, from 1 to 2^30.
    pub fn var(self) -> u32
        ensures value { result ≡ self.var }
        ensures low { 1 ≤ result }
        ensures high { result ≤ 2 ^ 30 }
    {
        self.code / 2
    }

    /// A number of its own for each literal, for tables: that of a variable is even, that of its negation one more.
    pub fn index(self) -> usize
        ensures { result ≡ 2 * self.var + (if self.positive then 0 else 1) }
    {
        self.code as usize
    }

    /// Whether the literal is the variable itself, and not its negation.
    pub fn is_positive(self) -> bool
        ensures { result ≡ self.positive }
    {
        self.code % 2 == 0
    }
}

/// The first variable: a literal for places that aren't in use.
impl Default for Lit {
    ghost is_default = { λ l. l ≡ record { var = 1; positive = true } };

    fn default() -> Lit {
        Lit { code: 2 }
    }
}
