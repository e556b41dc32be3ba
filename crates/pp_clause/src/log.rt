//! Lemmas and logs: what was derived, and how.

ghost use Rattle.std.specs.Prelude.{◌≡◌, [], ◌∷◌, ◌++◌, OnOk, OnErr, All};
ghost use Rattle.pp_clause.specs.Log.{IsLemma};

use crate::NoMemory;
use crate::chain::Chain;
use crate::clause::Clause;
use std::alloc::Global;
use std::marker::Model;

/// A clause, and the chain of resolution steps that derives it.
#[derive(Drop)]
pub struct Lemma {
    /// What is derived.
    pub clause: Clause,
    /// The numbers of the clauses that it is derived from.
    pub chain: Chain,
}

/// Lemmas, in the order in which they are derived.
#[derive(Drop)]
pub struct Log {
    lemmas: Vec<Lemma>,
}

impl Model for Log {
    ghost use Rattle.std.specs.Prelude.{List};
    ghost use Rattle.pp_clause.specs.declared.log.Lemma.{Lemma};

    ghost Value = { List Lemma };

    ghost view = { λ l. l.lemmas.items };

    ghost use Rattle.std.specs.Prelude.{All};
    ghost use Rattle.pp_clause.specs.Log.{IsLemma};

    ghost invariant = { λ l. All IsLemma l.lemmas.items };
}

impl Log {
    /// No lemmas.
    pub fn new(alloc: Global) -> Log
        ensures { result ≡ [] }
    {
        Log {
            lemmas: Vec::new(alloc),
        }
    }

    /// Adds a lemma at the end. On `NoMemory` nothing has changed.
    pub fn push(&mut self, item: Lemma) -> Result<(), NoMemory>
        ensures ok { OnOk result (self.new ≡ self.old ++ item ∷ []) }
        ensures err { OnErr result (self.new ≡ self.old) }
    {
        // these tell what a lemma is: nothing else is asked of it here
        let _lits = item.clause.lits();
        let _numbers = item.chain.numbers();
        self.lemmas.push(item)?;
        Ok(())
    }

    /// The lemmas, in order.
    pub fn as_slice(&self) -> &[Lemma]
        ensures value { result.now ≡ self.now }
        ensures lemmas { All IsLemma self.now }
    {
        self.lemmas.as_slice()
    }
}
