//! Symbols of which nothing is known but their height, for parameters.

ghost use Rattle.std.specs.Prelude.{◌+◌, ◌^◌, ◌≤◌, length, map, sum, IfOk, IsTrue};
ghost use Rattle.std.specs.List.{list_all};
ghost use Rattle.pp_prog.specs.Sorts.{param_sorts};
ghost use Rattle.pp_prog.specs.Table.{is_sort};
ghost use Rattle.pp_domain.specs.Moves.{Moves};
ghost use Rattle.pp_build.specs.StepGates.{opened_gates};
ghost use Rattle.pp_build.specs.Unknown.{AreUnknown};

use crate::NoMemory;
use pp_domain::{Domain, Symbols};
use pp_gate::Circuit;
use pp_list::Items;
use pp_prog::{Param, TypeTable};
use std::alloc::Global;

/// A symbol for each parameter, which can stand for any value of its sort up to the height.
pub fn open_all<D: Domain>(
    alloc: Global,
    domain: &mut D,
    circuit: &mut Circuit,
    table: &TypeTable,
    params: &[Param],
    depth: u32,
) -> Result<Symbols<D::Tree>, NoMemory>
    requires fits { D.sense.Fits table.now domain.old circuit.old }
    requires sorts { IsTrue (list_all (is_sort table.now.datatypes) (param_sorts params.now)) }
    requires depth { 1 ≤ depth }
    requires room { length circuit.old
        + sum (map (opened_gates D.sense table.now depth) (param_sorts params.now)) ≤ 2 ^ 30 }
    ensures moves { Moves D.sense table.now domain.old circuit.old domain.new circuit.new
        (sum (map (opened_gates D.sense table.now depth) (param_sorts params.now))) }
    ensures answer { IfOk result (λ rs. AreUnknown D.sense table.now domain.old circuit.old domain.new circuit.new
        (param_sorts params.now) depth rs) }
{
    let mut symbols = Items::new(alloc);
    for param in params {
        let symbol = pp_domain::unknown(domain, circuit, table, param.sort, depth)?;
        symbols.push(symbol)?;
    }
    Ok(symbols)
}
