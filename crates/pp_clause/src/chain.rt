//! Chains: the numbers of the clauses by which a lemma is derived.

ghost use Rattle.std.specs.Prelude.{ℕ, ◌≡◌, [], IfOk, IfSome, IfNone, Any, ◌⊎◌};
ghost use Rattle.pp_clause.specs.Derivation.{IsChain};

use crate::NoMemory;
use std::alloc::Global;
use std::marker::Model;

/// The clause numbers by which a lemma is derived: at least one, and each at least 1.
#[derive(Drop)]
pub struct Chain {
    numbers: Vec<u32>,
}

impl Model for Chain {
    ghost use Rattle.std.specs.Prelude.{ℕ, List};
    ghost use Rattle.pp_clause.specs.Derivation.{IsChain};

    ghost Value = { List ℕ };

    ghost view = { λ c. c.numbers.items };

    ghost invariant = { λ c. IsChain c.numbers.items };
}

impl Chain {
    /// The chain of these numbers. `None` exactly where there is no number or one of them is 0.
    pub fn of(alloc: Global, numbers: &[u32]) -> Result<Option<Chain>, NoMemory>
        ensures none { IfOk result (λ o. IfNone o ((numbers.now ≡ []) ⊎ Any (λ n. n ≡ 0) numbers.now)) }
        ensures same { IfOk result (λ o. IfSome o (λ c. c ≡ numbers.now)) }
        ensures chain { IfOk result (λ o. IfSome o (λ c. IsChain c)) }
    {
        if numbers.is_empty() || numbers.contains(&0) {
            return Ok(None);
        }
        let numbers = Vec::from_slice(alloc, numbers)?;
        Ok(Some(Chain { numbers }))
    }

    /// The numbers, in order.
    pub fn numbers(&self) -> &[u32]
        ensures value { result.now ≡ self.now }
        ensures chain { IsChain self.now }
    {
        self.numbers.as_slice()
    }
}
