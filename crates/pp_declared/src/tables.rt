//! The tables of the names of each space.

ghost use Rattle.std.specs.Prelude.{◌≡◌, not, IfOk, OnOk};
ghost use Rattle.pp_declared.specs.Declare.{new_class_names, new_def_names};
ghost use Rattle.pp_declared.specs.Shown.{class_ins, def_ins};
ghost use Rattle.pp_declared.specs.WellFormed.{is_taken, with_new};
ghost use Rattle.pp_fault.specs.Part.{Tells};

use crate::well_formed::is_barred;
use crate::{ClassAt, DefAt, NoMemory};
use pp_fault::{Halt, Rule, broken};
use pp_names::NameTable;
use std::alloc::Global;

/// The names of classes. It refuses the first that can't be declared after those before it as `Duplicate`.
pub(crate) fn class_table(alloc: Global, classes: &[ClassAt]) -> Result<NameTable, Halt>
    ensures { Tells result (new_class_names (class_ins classes.now)) }
{
    let mut table = NameTable::new(alloc);
    for c in classes {
        if !declare(alloc, &mut table, c.class.name)? {
            return broken(alloc, Rule::Duplicate, c.class.name, c.source, c.class.at);
        }
    }
    Ok(table)
}

/// The names of functions. It refuses the first that can't be declared after those before it as `Duplicate`.
pub(crate) fn def_table(alloc: Global, defs: &[DefAt]) -> Result<NameTable, Halt>
    ensures { Tells result (new_def_names (def_ins defs.now)) }
{
    let mut table = NameTable::new(alloc);
    for d in defs {
        if !declare(alloc, &mut table, d.def.name)? {
            return broken(alloc, Rule::Duplicate, d.def.name, d.source, d.def.at);
        }
    }
    Ok(table)
}

/// Adds a name, and answers whether it can be declared after those of the table.
fn declare(alloc: Global, table: &mut NameTable, name: &str) -> Result<bool, NoMemory>
    ensures is_new { IfOk result (λ new. new ≡ not (is_taken table.old name.now)) }
    ensures adds { OnOk result (table.new ≡ with_new table.old name.now) }
{
    if is_barred(name) {
        return Ok(false);
    }
    let new = table.add(alloc, name)?;
    Ok(new)
}
