//! Circuits: the gates, and the calls that show them or add one as it is.

ghost use Rattle.std.specs.Prelude.{◌≡◌, ℕ, Bool, true, ◌+◌, ◌-◌, ◌≤◌, ◌<◌, ◌^◌, ◌⊎◌, [], ◌∷◌, ◌++◌, length};
ghost use Rattle.std.specs.Prelude.{slice_get, Some, IfOk, OnOk, OnErr};
ghost use Rattle.pp_clause.specs.Literal.{lit_value};
ghost use Rattle.pp_gate.specs.declared.gate.Gate.TheVariants.{Truth, Input};
ghost use Rattle.pp_gate.specs.Gate.{gate_value};
ghost use Rattle.pp_gate.specs.Circuit.{IsOf, FitsAfter, IsCircuit, IsInput, StandsFor};
ghost use Rattle.pp_gate.specs.Growth.{Grows};

use crate::NoMemory;
use crate::gate::Gate;
use indexmap::IndexSet;
use pp_clause::Lit;
use std::alloc::Global;
use std::marker::Model;

/// Gates in the order in which they were added, one for each variable, no two of them alike.
///
/// The first is the constant, and each has only literals of earlier variables. There are at most 2^30.
#[derive(Drop)]
pub struct Circuit {
    gates: IndexSet<Gate>,
}

impl Model for Circuit {
    ghost use Rattle.std.specs.Prelude.{List, ◌≤◌, ◌^◌, length};
    ghost use Rattle.pp_gate.specs.declared.gate.Gate.{Gate};
    ghost use Rattle.pp_gate.specs.Circuit.{IsCircuit};

    ghost Value = { List Gate };

    ghost view = { λ c. c.gates.keys };

    ghost invariant = { λ c. IsCircuit c.gates.keys × (length c.gates.keys ≤ 2 ^ 30) };
}

impl Circuit {
    /// A circuit with the constant alone.
    pub fn new(alloc: Global) -> Result<Circuit, NoMemory>
        ensures value { IfOk result (λ c. c ≡ Truth ∷ []) }
        ensures circuit { IfOk result IsCircuit }
    {
        let mut gates = IndexSet::new(alloc);
        gates.insert_full(Gate::Truth)?;
        Ok(Circuit { gates })
    }

    /// Where the circuit takes its memory.
    #[inline]
    pub fn allocator(&self) -> Global
        ensures { IsCircuit self.now }
    {
        *self.gates.allocator()
    }

    /// The number of variables: the inputs, the gates and the constant. It is at most 2^30.
    #[inline(always)]
    pub fn gates(&self) -> u32
        ensures value { result ≡ length self.now }
        ensures small { result ≤ 2 ^ 30 }
        ensures circuit { IsCircuit self.now }
    {
        self.gates.len() as u32
    }

    /// The gates, that of variable 1 first.
    pub(crate) fn as_slice(&self) -> &[Gate]
        ensures value { result.now ≡ self.now }
        ensures small { length result.now ≤ 2 ^ 30 }
        ensures circuit { IsCircuit result.now }
    {
        self.gates.as_slice()
    }

    /// The literal that is always true.
    #[inline(always)]
    pub fn truth(&self) -> Lit
        ensures stands { StandsFor self.now result (λ s. true) }
        ensures var { result.var ≡ 1 }
        ensures positive { result.positive ≡ true }
        ensures circuit { IsCircuit self.now }
    {
        // a use of the field tells the type's invariant, by which the first gate is the constant
        let _gates = &self.gates;
        Lit::new(1, true)
    }

    /// A new input. On `NoMemory` nothing has changed.
    pub fn input(&mut self) -> Result<Lit, NoMemory>
        requires { length self.old < 2 ^ 30 }
        ensures adds { OnOk result (self.new ≡ self.old ++ Input (length self.old + 1) ∷ []) }
        ensures grows { Grows self.old self.new 1 }
        ensures of { IfOk result (λ r. IsOf self.new r) }
        ensures input { IfOk result (λ r. IsInput self.new r.var) }
        ensures var { IfOk result (λ r. r.var ≡ length self.old + 1) }
        ensures positive { IfOk result (λ r. r.positive ≡ true) }
        ensures value { IfOk result (λ r. (s : ℕ → Bool) → lit_value s r ≡ s (length self.old + 1)) }
        ensures circuit { IsCircuit self.new }
        ensures err { OnErr result (self.new ≡ self.old) }
    {
        let number = self.gates() + 1;
        let lit = self.literal_of(Gate::Input(number))?;
        Ok(lit)
    }

    /// The literal of this gate, which is added where it isn't there yet. On `NoMemory` nothing has changed.
    pub(crate) fn literal_of(&mut self, gate: Gate) -> Result<Lit, NoMemory>
        requires room { length self.old < 2 ^ 30 }
        requires fits { FitsAfter (length self.old) gate }
        ensures grown { (self.new ≡ self.old) ⊎ (self.new ≡ self.old ++ gate ∷ []) }
        ensures at { IfOk result (λ r. slice_get self.new (r.var - 1) ≡ Some gate) }
        ensures positive { IfOk result (λ r. r.positive ≡ true) }
        ensures stands { IfOk result (λ r. StandsFor self.new r (λ s. gate_value s gate)) }
        ensures circuit { IsCircuit self.new }
        ensures err { OnErr result (self.new ≡ self.old) }
    {
        let found = self.gates.insert_full(gate)?;
        Ok(Lit::new(found.0 as u32 + 1, true))
    }
}
