//! The concrete program.

ghost use Rattle.std.specs.Prelude.{◌≤◌, IfOk, IsErrOf, length};
ghost use Rattle.pp_instances.specs.Closure.{AreInstances, FillsOver};
ghost use Rattle.pp_mono.specs.Steps.{AreInstancesOf, IsTargetOf};
ghost use Rattle.pp_mono.specs.Concrete.{IsConcrete};
ghost use Rattle.pp_typed.specs.Limits.{IsSmall};
ghost use Rattle.pp_typed.specs.Stand.{TypedStands};

use crate::{MonoFault, NoMemory};
use pp_call_graph::groups_at;
use pp_concrete_types::table_of;
use pp_instances::{Instance, InstancesFault, Members, instances};
use pp_list::Items;
use pp_numbers::numbers_of;
use pp_order::{InstanceLists, listed};
use pp_prog::Program;
use pp_text::Text;
use pp_translate::{Target, checks_of, functions_of};
use pp_typed::Typed;
use pp_well_sorted::WellSorted;
use std::alloc::Global;

/// All instances of typed units.
fn members_of(alloc: Global, typed: &Typed) -> Result<Members, MonoFault>
    requires { IsSmall typed.now }
    ensures few { IfOk result (λ ms. length ms ≤ 512) }
    ensures instances { IfOk result (AreInstances typed.now) }
    ensures many { IsErrOf result MonoFault.TooManyInstances → FillsOver typed.now 512 }
{
    match instances(alloc, typed) {
        Ok(members) => Ok(members),
        Err(InstancesFault::TooManyInstances) => Err(MonoFault::TooManyInstances),
        Err(InstancesFault::Memory) => Err(MonoFault::Memory),
    }
}

/// What the instances are translated into: the types, the numbers of instances and the groups of functions.
fn target_of(
    alloc: Global,
    typed: &Typed,
    functions: &[Instance],
    roots: &[Instance],
) -> Result<Target, NoMemory>
    requires { AreInstancesOf typed.now functions.now roots.now }
    ensures { IfOk result (λ target. IsTargetOf typed.now functions.now roots.now target) }
{
    let numbers = numbers_of(alloc, typed, roots, functions)?;
    let types = table_of(alloc, typed, &numbers, roots)?;
    let groups = groups_at(alloc, typed, &numbers, functions)?;
    Ok(Target {
        types,
        numbers,
        groups,
    })
}

/// The program of these instances. The only error is want of memory.
fn program_of(
    alloc: Global,
    typed: &Typed,
    texts: &[Text],
    functions: &[Instance],
    roots: &[Instance],
) -> Result<Program, NoMemory>
    requires instances { AreInstancesOf typed.now functions.now roots.now }
    requires small { IsSmall typed.now }
    requires stand { TypedStands texts.now typed.now }
    ensures { IfOk result (IsConcrete typed.now texts.now) }
{
    let target = target_of(alloc, typed, functions, roots)?;
    let mut sites = Items::new(alloc);
    let functions = functions_of(alloc, typed, texts, &target, functions, &mut sites)?;
    let checks = checks_of(alloc, texts, sites.as_slice())?;
    Program::of(alloc, target.types, functions, checks)
}

/// The program of the instances of typed units, which stand in the texts of their sources, one text for each.
///
/// # Errors
/// `TooManyInstances`: exactly where some closure of instances has more than 512 members, functions and types together.
/// `Memory`: for want of memory. The translation answers it also for 2^32 checks and for a match of 65,536 cases
/// without a guard, which small units don't have; no clause says so.
pub fn concrete(alloc: Global, typed: &WellSorted, texts: &[Text]) -> Result<Program, MonoFault>
    requires small { IsSmall typed.now }
    requires stand { TypedStands texts.now typed.now }
    ensures program { IfOk result (IsConcrete typed.now texts.now) }
    ensures many { IsErrOf result MonoFault.TooManyInstances → FillsOver typed.now 512 }
{
    let typed = typed.typed();
    let members = members_of(alloc, typed)?;
    let InstanceLists { functions, roots } = listed(alloc, typed, &members)?;
    let program = program_of(alloc, typed, texts, functions.as_slice(), roots.as_slice())?;
    Ok(program)
}
