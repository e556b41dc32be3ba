//! The gates on which literals stand.

ghost use Rattle.std.specs.Prelude.{◌≡◌, ◌+◌, ◌≤◌, ◌<◌, ◌∷◌, [], true, false, All, length, IfOk};
ghost use Rattle.pp_clause.specs.Assignment.{assigned};
ghost use Rattle.pp_gate.specs.Gate.{operands};
ghost use Rattle.pp_gate.specs.Circuit.{IsWithin, IsOf, FitsAfter};
ghost use Rattle.pp_gate.specs.Marks.{Marks, IsCone};

use crate::NoMemory;
use crate::circuit::Circuit;
use crate::gate::Gate;
use pp_clause::Lit;

impl Circuit {
    /// The gates on which the literals stand: at place k, whether that of variable k + 1 is one.
    pub(crate) fn cone(&self, asked: &[Lit]) -> Result<Vec<bool>, NoMemory>
        requires { All (IsOf self.now) asked.now }
        ensures { IfOk result (λ r. IsCone self.now asked.now r.items) }
    {
        let gates = self.as_slice();
        let mut marks = vec![in self.allocator(); false; gates.len()]?;
        for i in 0..asked.len() {
            mark(&mut marks, asked[i]);
        }
        for done in 0..gates.len() {
            let place = gates.len() - 1 - done;
            mark_through(&mut marks, place, gates[place]);
        }
        Ok(marks)
    }
}

/// Marks the variable of a literal.
fn mark(marks: &mut Vec<bool>, lit: Lit)
    requires { IsWithin (length marks.old.items) lit }
    ensures { Marks marks.old.items marks.new.items (lit ∷ []) }
{
    marks[lit.var() as usize - 1] = true;
}

/// Marks what the gate of variable `place + 1` stands on, where that variable is marked.
fn mark_through(marks: &mut Vec<bool>, place: usize, gate: Gate)
    requires fits { FitsAfter place gate }
    requires room { place < length marks.old.items }
    ensures marked { assigned marks.old.items (place + 1) ≡ true
        → Marks marks.old.items marks.new.items (operands gate) }
    ensures unmarked { assigned marks.old.items (place + 1) ≡ false → marks.new.items ≡ marks.old.items }
{
    if marks[place] {
        mark_operands(marks, place, gate);
    }
}

/// Marks what the gate of variable `place + 1` stands on.
fn mark_operands(marks: &mut Vec<bool>, place: usize, gate: Gate)
    requires fits { FitsAfter place gate }
    requires room { place ≤ length marks.old.items }
    ensures { Marks marks.old.items marks.new.items (operands gate) }
{
    match gate {
        Gate::Truth | Gate::Input(_) => {}
        Gate::And(a, b) | Gate::Xor(a, b) => {
            mark(marks, a);
            mark(marks, b);
        }
        Gate::Mux(a, b, c) | Gate::Majority(a, b, c) => {
            mark(marks, a);
            mark(marks, b);
            mark(marks, c);
        }
    }
}
