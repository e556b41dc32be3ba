//! Products of the values of a few steps.

ghost use Rattle.std.specs.Prelude.{◌≡◌, ◌*ℤ◌, pos, true, IfSome, None};
ghost use Rattle.pp_steps.specs.Meaning.{Values};
ghost use Rattle.pp_closure.specs.Sums.{factor, product, whole};

/// How many factors a product has at most.
pub(crate) const MOST_FACTORS: usize = 4;

/// The product of the values of these steps, the last ones first; of none it is 1. Any order would do: with one, the
/// same steps make the same product.
#[derive(Clone, Copy, Drop)]
pub(crate) struct Product {
    pub first: Option<u32>,
    pub second: Option<u32>,
    pub third: Option<u32>,
    pub fourth: Option<u32>,
}

impl Product {
    /// Of no steps.
    pub(crate) fn one() -> Product
        ensures { (ρ : Values) → product ρ result ≡ pos 1 }
    {
        Product {
            first: None,
            second: None,
            third: None,
            fourth: None,
        }
    }

    /// Of the step alone.
    pub(crate) fn of(step: u32) -> Product
        ensures { (ρ : Values) → product ρ result ≡ whole (ρ step) }
    {
        Product {
            first: Some(step),
            second: None,
            third: None,
            fourth: None,
        }
    }

    /// Its last step, if it has one.
    pub(crate) fn last(&self) -> u32 {
        match self.first {
            Some(step) => step,
            None => 0,
        }
    }

    /// Whether it has no factor.
    pub(crate) fn is_one(&self) -> bool
        ensures { result ≡ true → (ρ : Values) → product ρ self.now ≡ pos 1 }
    {
        is_none(self.first) && is_none(self.second) && is_none(self.third) && is_none(self.fourth)
    }

    /// Whether the two have the same factors.
    pub(crate) fn is(&self, other: &Product) -> bool
        ensures { result ≡ true → (ρ : Values) → product ρ self.now ≡ product ρ other.now }
    {
        is_same(self.first, other.first)
            && is_same(self.second, other.second)
            && is_same(self.third, other.third)
            && is_same(self.fourth, other.fourth)
    }

    /// The product times the value of the step, where there is room for it.
    pub(crate) fn with(&self, step: u32) -> Option<Product>
        ensures { IfSome result (λ p. (ρ : Values) → product ρ p ≡ whole (ρ step) *ℤ product ρ self.now) }
    {
        if !is_none(self.fourth) {
            None
        } else if precedes(step, self.first) {
            Some(Product {
                first: Some(step),
                second: self.first,
                third: self.second,
                fourth: self.third,
            })
        } else if precedes(step, self.second) {
            Some(Product {
                first: self.first,
                second: Some(step),
                third: self.second,
                fourth: self.third,
            })
        } else if precedes(step, self.third) {
            Some(Product {
                first: self.first,
                second: self.second,
                third: Some(step),
                fourth: self.third,
            })
        } else {
            Some(Product {
                first: self.first,
                second: self.second,
                third: self.third,
                fourth: Some(step),
            })
        }
    }

    /// The factor at the place, and the product of the others.
    pub(crate) fn split(&self, place: usize) -> Option<(u32, Product)>
        ensures { IfSome result (λ r. (ρ : Values) → product ρ self.now ≡ whole (ρ r.0) *ℤ product ρ r.1) }
    {
        let (factor, rest) = self.parted(place);
        match factor {
            Some(step) => Some((step, rest)),
            None => None,
        }
    }

    /// What stands at the place, and the product of the others.
    fn parted(&self, place: usize) -> (Option<u32>, Product)
        ensures { (ρ : Values) → product ρ self.now ≡ factor ρ result.0 *ℤ product ρ result.1 }
    {
        match place {
            0 => (
                self.first,
                Product {
                    first: self.second,
                    second: self.third,
                    third: self.fourth,
                    fourth: None,
                },
            ),
            1 => (
                self.second,
                Product {
                    first: self.first,
                    second: self.third,
                    third: self.fourth,
                    fourth: None,
                },
            ),
            2 => (
                self.third,
                Product {
                    first: self.first,
                    second: self.second,
                    third: self.fourth,
                    fourth: None,
                },
            ),
            _ => (
                self.fourth,
                Product {
                    first: self.first,
                    second: self.second,
                    third: self.third,
                    fourth: None,
                },
            ),
        }
    }
}

fn is_none(factor: Option<u32>) -> bool
    ensures { result ≡ true → factor ≡ None }
{
    match factor {
        Some(_) => false,
        None => true,
    }
}

fn is_same(one: Option<u32>, other: Option<u32>) -> bool
    ensures { result ≡ true → one ≡ other }
{
    match (one, other) {
        (Some(one), Some(other)) => one == other,
        (None, None) => true,
        _ => false,
    }
}

/// Whether the step comes before the factor.
fn precedes(step: u32, factor: Option<u32>) -> bool {
    match factor {
        Some(factor) => step >= factor,
        None => true,
    }
}
