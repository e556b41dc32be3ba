//! Contents of which all is known.

ghost use Rattle.std.specs.Prelude.{◌≡◌, ◌+◌, ◌^◌, ◌<◌, ◌≤◌, length, IfOk};
ghost use Rattle.pp_domain.specs.Answers.{IsCtorOf};
ghost use Rattle.pp_named_trees.specs.Parts.{PartsFit};
ghost use Rattle.pp_named_contents.specs.Known.{AreBlankParts, AreFieldsOf, AreKnown, IsBlankPart, IsKnownAt};

use crate::NoMemory;
use pp_checks::ctors_of;
use pp_domain::{Symbol, Symbols, blank_plain, blank_word};
use pp_gate::Circuit;
use pp_list::Items;
use pp_named_trees::{Alternative, NamedTree};
use pp_prog::{CtorId, DataId, Sort, TypeTable};

/// A symbol of the sort that is blank: 0, false, or a tree named by 0.
fn blank(circuit: &Circuit, sort: Sort) -> Result<Symbol<NamedTree>, NoMemory>
    ensures { IfOk result (λ x. IsBlankPart circuit.now sort x) }
{
    match sort {
        Sort::Tree(of) => {
            let name = blank_word(circuit)?;
            Ok(Symbol::Tree(NamedTree {
                of,
                height: 0,
                name,
            }))
        }
        _ => {
            let plain = blank_plain(circuit, sort)?;
            Ok(plain)
        }
    }
}

/// Symbols of these sorts that are blank.
fn blanks(circuit: &Circuit, sorts: &[Sort]) -> Result<Symbols<NamedTree>, NoMemory>
    ensures { IfOk result (λ xs. AreBlankParts circuit.now sorts.now xs) }
{
    let mut fields = Items::new(circuit.allocator());
    for place in 0..sorts.len() {
        let field = blank(circuit, sorts[place])?;
        fields.push(field)?;
    }
    Ok(fields)
}

/// A constructor beside the known one: with its fields if it is that, and else with blank ones.
fn known_alternative(
    circuit: &Circuit,
    own: CtorId,
    sorts: &[Sort],
    ctor: CtorId,
    fields: &Symbols<NamedTree>,
) -> Result<Alternative, NoMemory>
    requires fields { own.0 ≡ ctor.0 → PartsFit circuit.now sorts.now fields.now }
    ensures { IfOk result (λ x. IsKnownAt circuit.now own sorts.now ctor fields.now x) }
{
    if own.0 == ctor.0 {
        let lit = circuit.truth();
        let fields = Items::from_slice(circuit.allocator(), fields.as_slice())?;
        Ok(Alternative {
            ctor: own,
            lit,
            fields,
        })
    } else {
        let lit = circuit.truth().negated();
        let fields = blanks(circuit, sorts)?;
        Ok(Alternative {
            ctor: own,
            lit,
            fields,
        })
    }
}

/// All constructors of the datatype, where `ctor` is known to be the one, with these fields. It adds nothing to the
/// circuit.
pub fn known_contents(
    circuit: &Circuit,
    table: &TypeTable,
    of: DataId,
    ctor: CtorId,
    fields: &Symbols<NamedTree>,
) -> Result<Items<Alternative>, NoMemory>
    requires of { of.0 < length table.now.datatypes }
    requires ctor { IsCtorOf table.now ctor of }
    requires fields { AreFieldsOf table.now circuit.now ctor fields.now }
    ensures known { IfOk result (λ xs. AreKnown table.now circuit.now of ctor fields.now xs) }
{
    let first = table.datatype(of).first.0;
    let ctors = ctors_of(table, of);
    let mut all = Items::new(circuit.allocator());
    for place in 0..ctors.len() {
        let own = CtorId(first + place as u32);
        let sorts = ctors[place].fields.as_slice();
        let next = known_alternative(circuit, own, sorts, ctor, fields)?;
        all.push(next)?;
    }
    Ok(all)
}
