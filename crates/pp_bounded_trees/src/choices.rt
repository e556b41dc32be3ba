//! Literals of which exactly one is true.

ghost use Rattle.std.specs.Prelude.{◌≡◌, ℕ, ◌+◌, ◌*◌, ◌^◌, ◌≤◌, ◌-◌, length, IfOk};
ghost use Rattle.pp_gate.specs.Circuit.{IsCircuit};
ghost use Rattle.pp_gate.specs.Growth.{Grows};
ghost use Rattle.pp_bounded_trees.specs.Choices.{AreChoices};

use crate::NoMemory;
use pp_clause::Lit;
use pp_gate::Circuit;
use pp_list::Items;

/// So many literals, at least one, of which exactly one is true, whatever the new inputs are. Each says of its own
/// input that it is the first true one, and the last that none is.
pub fn choices(circuit: &mut Circuit, count: usize) -> Result<Items<Lit>, NoMemory>
    requires some { 1 ≤ count }
    requires room { length circuit.old + 3 * count ≤ 2 ^ 30 }
    ensures grows { Grows circuit.old circuit.new (3 * count) }
    ensures circuit { IsCircuit circuit.new }
    ensures len { IfOk result (λ ls. length ls ≡ count) }
    ensures choices { IfOk result (λ ls. AreChoices circuit.old circuit.new ls) }
{
    let mut lits = Items::new(circuit.allocator());
    let mut none = circuit.truth();
    for _place in 0..count - 1 {
        let input = circuit.input()?;
        let first = circuit.and(none, input)?;
        lits.push(first)?;
        none = circuit.and(none, input.negated())?;
    }
    lits.push(none)?;
    Ok(lits)
}
