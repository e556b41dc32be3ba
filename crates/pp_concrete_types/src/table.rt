//! The table is made.

ghost use Rattle.std.specs.Prelude.{◌≡◌, ◌≤◌, IfOk, length, map};
ghost use Rattle.pp_concrete_types.specs.Datatypes.{AreDatatypes};
ghost use Rattle.pp_instances.specs.declared.member.Decl.TheVariants.{Root};
ghost use Rattle.pp_translation.specs.Numbers as spec;
ghost use Rattle.pp_typed.specs.WellSorted.{IsWellSorted};

use crate::NoMemory;
use pp_instances::Instance;
use pp_numbers::{Numbers, ctors_of, datatypes_of};
use pp_prog::TypeTable;
use pp_typed::Typed;
use std::alloc::Global;

/// The table of these datatypes. They are at most 512 roots at arguments, each once, and what their fields and their
/// arguments are made of is among them. The only error is want of memory.
pub fn table_of(
    alloc: Global,
    typed: &Typed,
    numbers: &Numbers,
    roots: &[Instance],
) -> Result<TypeTable, NoMemory>
    requires sorted { IsWellSorted typed.now }
    requires closed { AreDatatypes typed.now (map (spec.stands_for Root) roots.now) }
    requires few { length roots.now ≤ 512 }
    requires numbered { numbers.now.roots ≡ map (spec.stands_for Root) roots.now }
    ensures datatypes { IfOk result (λ t. t.datatypes ≡ spec.datatypes typed.now roots.now) }
    ensures ctors { IfOk result (λ t. t.ctors ≡ spec.ctors typed.now (map (spec.stands_for Root) roots.now)) }
{
    let datatypes = datatypes_of(alloc, typed, roots)?;
    let ctors = ctors_of(alloc, typed, numbers)?;
    Ok(TypeTable::of(datatypes, ctors))
}
