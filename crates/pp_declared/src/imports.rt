//! The imports of objects.

ghost use Rattle.std.specs.Prelude.{◌<◌, ◌^◌, ◌++◌, length, map, IfOk, OnOk};
ghost use Rattle.pp_declared.specs.Declare.{imports_checked};
ghost use Rattle.pp_declared.specs.Listed.{import_in, imports_in, objects_in};
ghost use Rattle.pp_declared.specs.Shown.{SameNames, units_of};
ghost use Rattle.pp_fault.specs.Part.{Tells};
ghost use Rattle.pp_sorts.specs.Words.{words_of};
ghost use Rattle.pp_tree.specs.Shown.{import_of};

use crate::NoMemory;
use pp_fault::{Halt, Rule, broken};
use pp_names::NameTable;
use pp_tree::{Import, Unit};
use std::alloc::Global;

/// Refuses the first import that names no object of the units as `Unknown`.
#[tactic(auto, using(crate::proofs::Imported::imports_same))]
pub(crate) fn check_imports(alloc: Global, units: &[Unit]) -> Result<(), Halt>
    requires { length units.now < 2 ^ 32 }
    ensures { Tells result (imports_checked (objects_in (units_of units.now)) (imports_in (units_of units.now))) }
{
    let objects = objects_of(alloc, units)?;
    check_paths(alloc, &objects, units)
}

#[tactic(auto, using(crate::proofs::Imported::imports_step))]
fn check_paths(alloc: Global, objects: &NameTable, units: &[Unit]) -> Result<(), Halt>
    requires { length units.now < 2 ^ 32 }
    ensures { Tells result (imports_checked objects.now (imports_in (units_of units.now))) }
{
    for i in 0..units.len() {
        check_unit(alloc, objects, i as u32 + 1, units[i].imports)?;
    }
    Ok(())
}

fn check_unit(
    alloc: Global,
    objects: &NameTable,
    source: u32,
    imports: &[Import],
) -> Result<(), Halt>
    ensures { Tells result (imports_checked objects.now (map (import_in source) (map import_of imports.now))) }
{
    for import in imports {
        if !objects.has(import.name) {
            return broken(alloc, Rule::Unknown, import.name, source, import.at);
        }
    }
    Ok(())
}

/// The names of the objects of all units. The only error is want of memory.
fn objects_of(alloc: Global, units: &[Unit]) -> Result<NameTable, NoMemory>
    ensures { IfOk result (λ objects. SameNames objects (objects_in (units_of units.now))) }
{
    let mut objects = NameTable::new(alloc);
    for unit in units {
        push_objects(alloc, &mut objects, unit.objects)?;
    }
    Ok(objects)
}

fn push_objects(alloc: Global, objects: &mut NameTable, names: &[&str]) -> Result<(), NoMemory>
    ensures { OnOk result (SameNames objects.new (objects.old ++ words_of names.now)) }
{
    for name in names {
        objects.add(alloc, *name)?;
    }
    Ok(())
}
