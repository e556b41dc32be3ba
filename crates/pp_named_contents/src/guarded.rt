//! Symbols of inputs that are blank where a literal is false.

ghost use Rattle.std.specs.Prelude.{◌+◌, ◌^◌, ◌≤◌, length, IfOk};
ghost use Rattle.pp_gate.specs.Circuit.{IsCircuit, IsOf};
ghost use Rattle.pp_gate.specs.Growth.{Grows};
ghost use Rattle.pp_named_contents.specs.Contents.{AreGuarded, IsGuarded, part_gates, parts_gates};

use crate::NoMemory;
use pp_clause::Lit;
use pp_domain::{Symbol, Symbols, masked_plain, masked_short_word};
use pp_gate::Circuit;
use pp_list::Items;
use pp_named_trees::NamedTree;
use pp_prog::Sort;

/// A symbol of the sort that can be any value that has a short number where the literal is true, and is blank where it
/// is false. All literals of a name from the one at place `low` on are one.
pub fn guarded(
    circuit: &mut Circuit,
    low: u32,
    lit: Lit,
    sort: Sort,
) -> Result<Symbol<NamedTree>, NoMemory>
    requires low { low ≤ 31 }
    requires lit { IsOf circuit.old lit }
    requires room { length circuit.old + part_gates sort ≤ 2 ^ 30 }
    ensures grows { Grows circuit.old circuit.new (part_gates sort) }
    ensures circuit { IsCircuit circuit.new }
    ensures guarded { IfOk result (λ x. IsGuarded circuit.old circuit.new low lit sort x) }
{
    match sort {
        Sort::Tree(of) => {
            let name = masked_short_word(circuit, lit, low)?;
            Ok(Symbol::Tree(NamedTree {
                of,
                height: 0,
                name,
            }))
        }
        _ => {
            let plain = masked_plain(circuit, lit, sort)?;
            Ok(plain)
        }
    }
}

/// Such symbols of these sorts.
pub fn guarded_fields(
    circuit: &mut Circuit,
    low: u32,
    lit: Lit,
    sorts: &[Sort],
) -> Result<Symbols<NamedTree>, NoMemory>
    requires low { low ≤ 31 }
    requires lit { IsOf circuit.old lit }
    requires circuit { IsCircuit circuit.old }
    requires room { length circuit.old + parts_gates sorts.now ≤ 2 ^ 30 }
    ensures grows { Grows circuit.old circuit.new (parts_gates sorts.now) }
    ensures circuit { IsCircuit circuit.new }
    ensures guarded { IfOk result (λ xs. AreGuarded circuit.old circuit.new low lit sorts.now xs) }
{
    let mut fields = Items::new(circuit.allocator());
    for place in 0..sorts.len() {
        let field = guarded(circuit, low, lit, sorts[place])?;
        fields.push(field)?;
    }
    Ok(fields)
}
