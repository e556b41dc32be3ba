//! The instances that are used.

ghost use Rattle.std.specs.Prelude.{◌≡◌, ◌↔◌, IsTrue, ◌≤◌, ◌<◌, ◌^◌, [], ◌∷◌, ◌++◌, ℕ, List, IfOk, MatchResult, map};
ghost use Rattle.std.specs.Prelude.{length, Some, slice_get};
ghost use Rattle.pp_instances.specs.Closure.{AreInstances, Distinct, HasMore, IsClosure, IsCause};
ghost use Rattle.pp_instances.specs.Growth.{Gains, Bursts, Stage, WhyNot, HasFunction};
ghost use Rattle.pp_instances.specs.Uses.{at_args, at_ints, function_at, start, uses};
ghost use Rattle.pp_instances.specs.declared.member.Member.{Member};

use crate::NoMemory;
use crate::fault::InstancesFault;
use crate::member::{Decl, Member};
use crate::members::Members;
use crate::mentions::mentions_of;
use pp_list::Items;
use pp_typed::{GenericSort, Typed, TypedDef};
use std::alloc::Global;

/// The most instances of a program, functions and types together.
pub const MOST_INSTANCES: usize = 512;

/// Adds a member, where it is new.
fn include(members: &mut Members, member: Member) -> Result<(), InstancesFault>
    ensures few { IfOk result (λ _. length members.new ≤ 512) }
    ensures gains { MatchResult result (λ _. Gains members.old (member ∷ []) members.new)
        (WhyNot (Bursts 512 members.old (member ∷ []))) }
{
    members.insert(member)?;
    if members.len() > MOST_INSTANCES {
        return Err(InstancesFault::TooManyInstances);
    }
    Ok(())
}

/// Adds all members, at these arguments, that are new.
fn include_all(
    alloc: Global,
    members: &mut Members,
    args: &[GenericSort],
    mentions: &[Member],
) -> Result<(), InstancesFault>
    requires few { length members.old ≤ 512 }
    requires once { Distinct members.old }
    ensures few { IfOk result (λ _. length members.new ≤ 512) }
    ensures gains { MatchResult result (λ _. Gains members.old (map (at_args args.now) mentions.now) members.new)
        (WhyNot (Bursts 512 members.old (map (at_args args.now) mentions.now))) }
{
    for i in 0..mentions.len() {
        let member = mentions[i].at_args(alloc, args)?;
        match include(members, member) {
            Ok(()) => {}
            Err(e) => return Err(e),
        }
    }
    Ok(())
}

/// All that a member uses. The only error is want of memory.
pub fn uses_of(alloc: Global, typed: &Typed, member: &Member) -> Result<Items<Member>, NoMemory>
    ensures { IfOk result (λ ms. ms ≡ uses typed.now member.now) }
{
    let mentioned = mentions_of(alloc, typed, member.of)?;
    let mentions = mentioned.as_slice();
    let mut used = Items::new(alloc);
    for i in 0..mentions.len() {
        used.push(mentions[i].at_args(alloc, member.args.as_slice())?)?;
    }
    Ok(used)
}

/// Adds all that a member uses.
fn include_uses(
    alloc: Global,
    typed: &Typed,
    members: &mut Members,
    member: &Member,
) -> Result<(), InstancesFault>
    requires few { length members.old ≤ 512 }
    requires once { Distinct members.old }
    ensures few { IfOk result (λ _. length members.new ≤ 512) }
    ensures gains { MatchResult result (λ _. Gains members.old (uses typed.now member.now) members.new)
        (WhyNot (Bursts 512 members.old (uses typed.now member.now))) }
{
    let mentions = mentions_of(alloc, typed, member.of)?;
    include_all(alloc, members, member.args.as_slice(), mentions.as_slice())
}

/// Adds all that the members from a place on use, and what these use.
fn close(
    alloc: Global,
    typed: &Typed,
    members: &mut Members,
    first: usize,
) -> Result<(), InstancesFault>
    requires few { length members.old ≤ 512 }
    requires once { Distinct members.old }
    ensures few { IfOk result (λ _. length members.new ≤ 512) }
    ensures closed { (seeds : List Member) → Stage typed.now seeds first members.old
        → MatchResult result (λ _. IsClosure typed.now seeds members.new) (WhyNot (HasMore typed.now 512 seeds)) }
{
    let mut next = first;
    while next < members.len() {
        let member = members.at(next).copy(alloc)?;
        match include_uses(alloc, typed, members, &member) {
            Ok(()) => {}
            Err(e) => return Err(e),
        }
        next += 1;
    }
    Ok(())
}

/// A function with every type parameter `Int`.
fn member_at_ints(alloc: Global, f: u32, d: &TypedDef) -> Result<Member, NoMemory>
    ensures { IfOk result (λ m. m ≡ at_ints f d.now) }
{
    let mut args = Items::new(alloc);
    for i in 0..d.type_params {
        let _ = i;
        args.push(GenericSort::Int)?;
    }
    Ok(Member {
        of: Decl::Function(f),
        args,
    })
}

/// A function without type arguments.
fn without_args(alloc: Global, f: u32) -> Member
    ensures { result ≡ function_at f [] }
{
    Member {
        of: Decl::Function(f),
        args: Items::new(alloc),
    }
}

/// Adds the functions without type parameters.
fn include_start(alloc: Global, typed: &Typed, members: &mut Members) -> Result<(), InstancesFault>
    requires few_defs { length typed.now.defs < 2 ^ 32 }
    requires none { members.old ≡ [] }
    ensures few { IfOk result (λ _. length members.new ≤ 512) }
    ensures gains { MatchResult result (λ _. Gains [] (start typed.now) members.new)
        (WhyNot (Bursts 512 [] (start typed.now))) }
{
    let defs = typed.defs.as_slice();
    for f in 0..defs.len() {
        if defs[f].type_params == 0 {
            match include(members, without_args(alloc, f as u32)) {
                Ok(()) => {}
                Err(e) => return Err(e),
            }
        }
    }
    Ok(())
}

/// Whether one of the members is an instance of the function.
fn has_function(members: &[Member], f: u32) -> bool
    ensures { IsTrue result ↔ HasFunction members.now f }
{
    for m in members {
        if m.of.is(Decl::Function(f)) {
            return true;
        }
    }
    false
}

/// Adds the function with every type parameter `Int`, and closes again.
fn fill(
    alloc: Global,
    typed: &Typed,
    members: &mut Members,
    f: u32,
    d: &TypedDef,
) -> Result<(), InstancesFault>
    requires few { length members.old ≤ 512 }
    requires once { Distinct members.old }
    ensures few { IfOk result (λ _. length members.new ≤ 512) }
    ensures closed { (seeds : List Member) → IsClosure typed.now seeds members.old
        → MatchResult result (λ _. IsClosure typed.now (seeds ++ at_ints f d.now ∷ []) members.new)
        (WhyNot (HasMore typed.now 512 (seeds ++ at_ints f d.now ∷ []))) }
{
    let first = members.len();
    let member = member_at_ints(alloc, f, d)?;
    match include(members, member) {
        Ok(()) => {}
        Err(e) => return Err(e),
    }
    close(alloc, typed, members, first)
}

/// All instances of the functions and the types of a program: those that the functions without type parameters use,
/// and, for each function that has none, the one with every type parameter `Int`. `TooManyInstances` comes exactly
/// where there are more than 512 on the way. The other error is want of memory.
pub fn instances(alloc: Global, typed: &Typed) -> Result<Members, InstancesFault>
    requires few_defs { length typed.now.defs < 2 ^ 32 }
    ensures few { IfOk result (λ ms. length ms ≤ 512) }
    ensures closed { MatchResult result (AreInstances typed.now) (IsCause typed.now) }
{
    let mut members = Members::new(alloc);
    match include_start(alloc, typed, &mut members) {
        Ok(()) => {}
        Err(e) => return Err(e),
    }
    match close(alloc, typed, &mut members, 0) {
        Ok(()) => {}
        Err(e) => return Err(e),
    }
    let defs = typed.defs.as_slice();
    for f in 0..defs.len() {
        if !has_function(members.as_slice(), f as u32) {
            match fill(alloc, typed, &mut members, f as u32, &defs[f]) {
                Ok(()) => {}
                Err(e) => return Err(e),
            }
        }
    }
    Ok(members)
}
