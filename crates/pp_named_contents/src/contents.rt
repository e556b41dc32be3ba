//! Contents of inputs.

ghost use Rattle.std.specs.Prelude.{◌≡◌, ◌+◌, ◌^◌, ◌<◌, ◌≤◌, length, All, IfOk};
ghost use Rattle.pp_prog.specs.Sizes as sizes;
ghost use Rattle.pp_gate.specs.Circuit.{IsCircuit, IsOf};
ghost use Rattle.pp_gate.specs.Growth.{Grows};
ghost use Rattle.pp_named_contents.specs.FreshContents.{AreFresh, AreOf, contents_gates, fields_gates};

use crate::NoMemory;
use crate::guarded::guarded_fields;
use pp_bounded_trees::choices::choices;
use pp_checks::ctors_of;
use pp_clause::Lit;
use pp_gate::Circuit;
use pp_list::Items;
use pp_named_trees::Alternative;
use pp_prog::{Ctor, CtorId, DataId, TypeTable};

/// All constructors of a datatype that has some, each with a literal, of which exactly one is true, and with new
/// fields. They can be those of each value of the datatype whose fields can be held. The only error is want of memory.
pub fn fresh_contents(
    circuit: &mut Circuit,
    low: u32,
    table: &TypeTable,
    of: DataId,
) -> Result<Items<Alternative>, NoMemory>
    requires circuit { IsCircuit circuit.old }
    requires low { low ≤ 31 }
    requires of { of.0 < length table.now.datatypes }
    requires some { 1 ≤ length (sizes.ctors_of table.now of) }
    requires room { length circuit.old + contents_gates table.now of ≤ 2 ^ 30 }
    ensures grows { Grows circuit.old circuit.new (contents_gates table.now of) }
    ensures circuit { IsCircuit circuit.new }
    ensures fresh { IfOk result (λ xs. AreFresh table.now circuit.old circuit.new low of xs) }
{
    let first = table.datatype(of).first.0;
    let ctors = ctors_of(table, of);
    let lits = choices(circuit, ctors.len())?;
    let all = fresh_alternatives(circuit, low, first, ctors, lits.as_slice())?;
    Ok(all)
}

/// Each constructor with its literal, and with fields that can be anything where the literal is true.
fn fresh_alternatives(
    circuit: &mut Circuit,
    low: u32,
    first: u32,
    ctors: &[Ctor],
    lits: &[Lit],
) -> Result<Items<Alternative>, NoMemory>
    requires circuit { IsCircuit circuit.old }
    requires low { low ≤ 31 }
    requires first { first + length ctors.now ≤ 2 ^ 32 }
    requires same { length lits.now ≡ length ctors.now }
    requires lits { All (IsOf circuit.old) lits.now }
    requires room { length circuit.old + fields_gates ctors.now ≤ 2 ^ 30 }
    ensures grows { Grows circuit.old circuit.new (fields_gates ctors.now) }
    ensures circuit { IsCircuit circuit.new }
    ensures are { IfOk result (λ xs. AreOf circuit.old circuit.new low first ctors.now lits.now (length ctors.now) xs) }
{
    let mut all = Items::new(circuit.allocator());
    for place in 0..ctors.len() {
        let ctor = CtorId(first + place as u32);
        let lit = lits[place];
        let fields = guarded_fields(circuit, low, lit, ctors[place].fields.as_slice())?;
        all.push(Alternative { ctor, lit, fields })?;
    }
    Ok(all)
}
