//! The instances of a program in order: functions and datatypes apart, in the order of their declarations, and those of
//! one declaration in the byte order of their printed names.
//!
//! The order is that of pp_instances, `specs/Order`. How the instances are sorted may change freely.
#![tactic(auto)]

ghost use Rattle.std.specs.Prelude.{◌≡◌, ◌≤◌, IfOk, Contains, IsPermutation, IsSorted, length};
ghost use Rattle.pp_instances.specs.Closure.{Distinct};
ghost use Rattle.pp_instances.specs.Order.{AreListed};
ghost use Rattle.pp_instances.specs.declared.member.Member.{Member};
ghost use Rattle.pp_members.specs.Proper.{IsProper};
ghost use Rattle.pp_order.specs.Instances.{as_function, as_root, instance_at, instance_cmp, instances_of};
ghost use Rattle.pp_typed.specs.WellSorted.{IsWellSorted};

use pp_generic::copies;
pub use pp_instances::NoMemory;
use pp_instances::{Decl, Instance, Instances, Member, Members, printed};
use pp_list::Items;
use pp_typed::Typed;
use std::alloc::Global;
use std::cmp::Ordering;

/// The functions and the datatypes of a program, each in order.
#[derive(Drop)]
pub struct InstanceLists {
    pub functions: Instances,
    pub roots: Instances,
}

/// The instance that a member is.
fn instance(
    alloc: Global,
    typed: &Typed,
    number: u32,
    member: &Member,
) -> Result<Instance, NoMemory>
    ensures { IfOk result (λ i. i ≡ instance_at typed.now number member.now) }
{
    let args = copies(alloc, member.args.as_slice())?;
    let name = printed(alloc, typed, member)?;
    Ok(Instance { number, args, name })
}

/// Which instance comes first: by declarations, and then by the bytes of printed names.
fn compare(a: &Instance, b: &Instance) -> Ordering
    ensures { result ≡ instance_cmp a.now b.now }
{
    a.number
        .cmp(&b.number)
        .then_with(|| a.name.as_str().cmp(b.name.as_str()))
}

/// The instances in order.
fn in_order(mut instances: Vec<Instance>) -> Instances
    ensures same { IsPermutation instances.items result }
    ensures sorted { IsSorted instance_cmp result }
{
    instances.sort_unstable_by(compare);
    Items::from_vec(instances)
}

/// The instances that members are, the functions and the datatypes apart, each in the order of the program: by
/// declarations, and those of one declaration in the byte order of their printed names. Each printed name is made once.
/// The only error is want of memory.
pub fn listed(alloc: Global, typed: &Typed, members: &Members) -> Result<InstanceLists, NoMemory>
    requires sorted { IsWellSorted typed.now }
    requires proper { (m : Member) → Contains members.now m → IsProper typed.now m }
    requires once { Distinct members.now }
    requires few { length members.now ≤ 512 }
    ensures listed { IfOk result (λ l. AreListed typed.now members.now l.functions l.roots) }
    ensures few_functions { IfOk result (λ l. length l.functions ≤ 512) }
    ensures few_roots { IfOk result (λ l. length l.roots ≤ 512) }
{
    let mut functions = Vec::new(alloc);
    let mut roots = Vec::new(alloc);
    for member in members.as_slice() {
        match member.of {
            Decl::Function(f) => functions.push(instance(alloc, typed, f, member)?)?,
            Decl::Root(r) => roots.push(instance(alloc, typed, r, member)?)?,
        }
    }
    Ok(InstanceLists {
        functions: in_order(functions),
        roots: in_order(roots),
    })
}
