//! The clauses of a circuit, and of the gates on which some literals stand.

ghost use Rattle.std.specs.Prelude.{◌≡◌, ◌↔◌, ℕ, Bool, true, false, ◌+◌, ◌*◌, ◌^◌, ◌≤◌, ◌<◌, ◌&&◌, All, length, IfOk};
ghost use Rattle.std.specs.Prelude.{OnOk};
ghost use Rattle.pp_clause.specs.Clause.{clauses_value};
ghost use Rattle.std.specs.Bool.{beq};
ghost use Rattle.pp_gate.specs.Gate.{gate_value};
ghost use Rattle.pp_gate.specs.Circuit.{IsOf, FitsAfter, IsCircuit, Gives};
ghost use Rattle.pp_gate.specs.Clauses.{AreShortWithin};
ghost use Rattle.pp_gate.specs.Cone.{GivesAsked, CompletedAsked};
ghost use Rattle.pp_gate.specs.Marks.{GivesMarked};

use crate::NoMemory;
use crate::circuit::Circuit;
use crate::clauses::{add_gate, clause_count};
use crate::gate::Gate;
use pp_clause::{Clauses, Lit};
use std::alloc::Global;

impl Circuit {
    /// The clauses that an assignment makes true exactly where it gives each gate its value: at most 8 a gate, of at
    /// most four literals each.
    pub fn clauses(&self) -> Result<Clauses, NoMemory>
        requires { length self.now ≤ 2 ^ 28 }
        ensures count { IfOk result (λ r. length r ≤ 8 * length self.now) }
        ensures value { IfOk result (λ r. (s : ℕ → Bool) → (clauses_value s r ≡ true) ↔ Gives s self.now) }
        ensures literals { IfOk result (λ r. All (λ c. All (IsOf self.now) c) r) }
        ensures short { IfOk result (λ r. All (λ c. length c ≤ 4) r) }
    {
        let marks = vec![in self.allocator(); true; self.as_slice().len()]?;
        let all = self.marked_clauses(&marks)?;
        Ok(all)
    }

    /// The clauses of the gates on which these literals stand: an assignment makes them true exactly where it gives
    /// these gates their values, and it can then be completed to one that gives each gate its value. At most 8 a gate,
    /// of at most four literals each.
    pub fn clauses_of(&self, asked: &[Lit]) -> Result<Clauses, NoMemory>
        requires room { length self.now ≤ 2 ^ 28 }
        requires of { All (IsOf self.now) asked.now }
        ensures count { IfOk result (λ r. length r ≤ 8 * length self.now) }
        ensures value { IfOk result (λ r. (s : ℕ → Bool)
            → (clauses_value s r ≡ true) ↔ GivesAsked s self.now asked.now) }
        ensures completed { IfOk result (λ r. (s : ℕ → Bool) → clauses_value s r ≡ true
            → CompletedAsked self.now asked.now s) }
        ensures given { IfOk result (λ r. (s : ℕ → Bool) → Gives s self.now → clauses_value s r ≡ true) }
        ensures literals { IfOk result (λ r. All (λ c. All (IsOf self.now) c) r) }
        ensures short { IfOk result (λ r. All (λ c. length c ≤ 4) r) }
    {
        let marks = self.cone(asked)?;
        let all = self.marked_clauses(&marks)?;
        Ok(all)
    }

    /// The clauses of the marked gates.
    fn marked_clauses(&self, marks: &[bool]) -> Result<Clauses, NoMemory>
        requires room { length self.now ≤ 2 ^ 28 }
        requires same { length marks.now ≡ length self.now }
        ensures count { IfOk result (λ r. length r ≤ 8 * length self.now) }
        ensures value { IfOk result (λ r. (s : ℕ → Bool)
            → (clauses_value s r ≡ true) ↔ GivesMarked s self.now marks.now) }
        ensures shape { IfOk result (λ r. AreShortWithin (length self.now) r) }
        ensures circuit { IsCircuit self.now }
    {
        let alloc = self.allocator();
        let gates = self.as_slice();
        let mut all = Clauses::with_capacity(alloc, count_marked(gates, marks))?;
        for i in 0..gates.len() {
            add_marked(&mut all, alloc, i as u32, gates[i], marks[i])?;
        }
        Ok(all)
    }
}

/// How many clauses the marked gates have.
fn count_marked(gates: &[Gate], marks: &[bool]) -> usize {
    let mut count = 0usize;
    for (gate, marked) in gates.iter().zip(marks) {
        if *marked {
            count = count.saturating_add(clause_count(*gate));
        }
    }
    count
}

/// Adds the clauses of a gate, if it is marked.
fn add_marked(
    clauses: &mut Clauses,
    alloc: Global,
    place: u32,
    gate: Gate,
    marked: bool,
) -> Result<(), NoMemory>
    requires small { place < 2 ^ 30 }
    requires fits { FitsAfter place gate }
    requires room { length clauses.old + 8 < 2 ^ 32 }
    ensures most { OnOk result (length clauses.new ≤ length clauses.old + 8) }
    ensures within { OnOk result ((n : ℕ) → place < n → AreShortWithin n clauses.old → AreShortWithin n clauses.new) }
    ensures marked { OnOk result (marked ≡ true → (s : ℕ → Bool) → clauses_value s clauses.new
        ≡ (clauses_value s clauses.old && beq (s (place + 1)) (gate_value s gate))) }
    ensures unmarked { OnOk result (marked ≡ false → clauses.new ≡ clauses.old) }
{
    if marked {
        add_gate(clauses, alloc, place, gate)?;
    }
    Ok(())
}
