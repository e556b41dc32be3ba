//! The typing of units.

ghost use Rattle.std.specs.Prelude.{◌<◌, ◌^◌, length, IfErr, IfOk};
ghost use Rattle.pp_declared.specs.Shown.{units_of};
ghost use Rattle.pp_types_laws.specs.Fault.{IsRefused, OnBroken, Stands};
ghost use Rattle.pp_types.specs.Kinds.{OnFault};
ghost use Rattle.pp_types_laws.specs.Typing.{HasNoTyping, HasTyping};

use crate::TypeFault;
use crate::defs::all_defs;
use crate::fault::type_fault;
use crate::values::check_values;
use pp_declared::declare;
use pp_fault::Halt;
use pp_tree::Unit;
use pp_typed::{Declared, Typed};
use std::alloc::Global;

/// Types the units of all sources, which are numbered from 1, and answers their typing. It refuses units that
/// have none, with a fault that stands in them; where there are several, any of them may be told. The answer owns all
/// that it holds.
pub fn check(alloc: Global, units: &[Unit]) -> Result<Typed, TypeFault>
    requires { length units.now < 2 ^ 32 }
    ensures typing { IfOk result (HasTyping (units_of units.now)) }
    ensures stands { IfErr result (λ e. OnFault e (Stands (units_of units.now))) }
    ensures untyped { IfErr result (λ e. OnFault e (λ f. HasNoTyping (units_of units.now))) }
{
    match typed(alloc, units) {
        Ok(typed) => Ok(typed),
        Err(Halt::Memory) => Err(TypeFault::Memory),
        Err(Halt::Broken(fault)) => Err(type_fault(fault)),
    }
}

/// Types units step by step: their declarations, the values of their roots, their functions.
#[tactic(auto, using(crate::proofs::Checked::typing_steps))]
fn typed(alloc: Global, units: &[Unit]) -> Result<Typed, Halt>
    requires { length units.now < 2 ^ 32 }
    ensures typing { IfOk result (HasTyping (units_of units.now)) }
    ensures refused { OnBroken result (IsRefused (units_of units.now)) }
{
    let names = declare(alloc, units)?;
    check_values(alloc, units, &names)?;
    let defs = all_defs(alloc, units, &names)?;
    let Declared { roots, ctors, .. } = names.into_declared();
    Ok(Typed { roots, ctors, defs })
}
