//! Roots without a value.

ghost use Rattle.std.specs.Prelude.{◌≡◌, ◌<◌, ◌^◌, Ok, length, OnOk};
ghost use Rattle.pp_declared.specs.Declare.{declare};
ghost use Rattle.pp_declared.specs.Shown.{units_of};
ghost use Rattle.pp_inhabited.specs.Value.{AreInhabited};
ghost use Rattle.pp_types_laws.specs.Fault.{OnBroken, WithoutValue};

use pp_declared::root_classes;
use pp_fault::{Halt, Rule, broken};
use pp_inhabited::first_uninhabited;
use pp_names::Names;
use pp_tree::Unit;
use std::alloc::Global;

/// Refuses the first root that has no value, or no constructor, as `Uninhabited`, at its name.
pub(crate) fn check_values(alloc: Global, units: &[Unit], names: &Names) -> Result<(), Halt>
    requires units { length units.now < 2 ^ 32 }
    requires declared { declare (units_of units.now) ≡ Ok names.now }
    ensures inhabited { OnOk result (AreInhabited names.now.roots names.now.ctors) }
    ensures refused { OnBroken result (WithoutValue (units_of units.now) names.now) }
{
    // Its clause says that a `u32` counts the roots.
    let _count = names.root_table().len();
    let declared = names.declared();
    match first_uninhabited(alloc, declared.roots.as_slice(), declared.ctors.as_slice())? {
        None => Ok(()),
        Some(r) => {
            let classes = root_classes(alloc, units)?;
            let c = &classes.as_slice()[r as usize];
            broken(alloc, Rule::Uninhabited, c.class.name, c.source, c.class.at)
        }
    }
}
