//! Tables of numbers are made.

ghost use Rattle.std.specs.Prelude.{◌≡◌, ◌<◌, ◌≤◌, ◌^◌, ◌+◌, ℕ, Some, IfOk, All, length, map, replicate, slice_get};
ghost use Rattle.std.specs.Prelude.{slice_set};
ghost use Rattle.pp_instances.specs.Closure.{Distinct};
ghost use Rattle.pp_instances.specs.Same.{with_member};
ghost use Rattle.pp_instances.specs.declared.member.Decl.TheVariants.{Function, Root};
ghost use Rattle.pp_translation.specs.Numbers.{decl_number, first_of, stands_for};
ghost use Rattle.pp_numbers.specs.Tables.{AreRanks, AreTables, HasRoom, IsOneOf};
ghost use Rattle.pp_typed.specs.Sorted.{ctors_of};

use crate::{NoMemory, Numbers};
use pp_generic::copies;
use pp_instances::{Decl, Instance, Member, Members};
use pp_list::Items;
use pp_typed::{Typed, TypedCtor};
use std::alloc::Global;

/// The number of a declaration. It takes no memory.
pub(crate) fn number_of(of: Decl) -> u32
    ensures { result ≡ decl_number of }
{
    match of {
        Decl::Function(f) => f,
        Decl::Root(r) => r,
    }
}

/// How many constructors a root has. It takes no memory.
pub(crate) fn count_of(ctors: &[TypedCtor], r: u32) -> u32
    requires { length (ctors_of ctors.now r) < 2 ^ 31 }
    ensures { result ≡ length (ctors_of ctors.now r) }
{
    let mut count = 0;
    for c in ctors {
        if c.root == r {
            count += 1;
        }
    }
    count
}

/// At each datatype's place its first constructor, and one more for the end.
fn firsts_of(alloc: Global, ctors: &[TypedCtor], roots: &[Member]) -> Result<Items<u32>, NoMemory>
    requires { HasRoom ctors.now roots.now }
    ensures { IfOk result (λ firsts. (d : ℕ) → d ≤ length roots.now
        → slice_get firsts d ≡ Some (first_of ctors.now roots.now d)) }
{
    let mut firsts = Items::new(alloc);
    let mut first = 0;
    for i in 0..roots.len() {
        firsts.push(first)?;
        first += count_of(ctors, number_of(roots[i].of));
    }
    firsts.push(first)?;
    Ok(firsts)
}

/// One count more at this place; the count before, and 0 past the end.
fn bump(counts: &mut Items<u32>, r: u32) -> u32
    requires { (n : ℕ) → slice_get counts.old r ≡ Some n → n < 2 ^ 31 }
    ensures before { r < length counts.old → slice_get counts.old r ≡ Some result }
    ensures after { r < length counts.old → counts.new ≡ slice_set counts.old r (result + 1) }
{
    match counts.get(r as usize) {
        None => 0,
        Some(n) => {
            let before = *n;
            counts.set(r as usize, before + 1);
            before
        }
    }
}

/// No constructor for each of so many roots.
fn none_counted(alloc: Global, roots: usize) -> Result<Items<u32>, NoMemory>
    ensures { IfOk result (λ counts. counts ≡ replicate roots 0) }
{
    let mut counts = Items::new(alloc);
    for i in 0..roots {
        let _ = i;
        counts.push(0)?;
    }
    Ok(counts)
}

/// At each constructor's place its place among those of its root, of which there are so many.
fn ranks_of(alloc: Global, ctors: &[TypedCtor], roots: usize) -> Result<Items<u32>, NoMemory>
    requires owned { All (IsOneOf roots) ctors.now }
    requires few { (r : ℕ) → length (ctors_of ctors.now r) < 2 ^ 31 }
    ensures { IfOk result (λ ranks. AreRanks ctors.now ranks) }
{
    let mut counts = none_counted(alloc, roots)?;
    let mut ranks = Items::new(alloc);
    for c in ctors {
        ranks.push(bump(&mut counts, c.root))?;
    }
    Ok(ranks)
}

/// The member that an instance stands for, and those before it.
fn add_member(alloc: Global, members: &mut Members, of: Decl, i: &Instance) -> Result<(), NoMemory>
    ensures { IfOk result (λ _. members.new ≡ with_member members.old (record { of = of; args = i.now.args })) }
{
    let args = copies(alloc, i.args.as_slice())?;
    members.insert(Member { of, args })
}

/// The members that the functions stand for, in order.
fn functions_of(alloc: Global, functions: &[Instance]) -> Result<Members, NoMemory>
    requires { Distinct (map (stands_for Function) functions.now) }
    ensures { IfOk result (λ ms. ms ≡ map (stands_for Function) functions.now) }
{
    let mut members = Members::new(alloc);
    for i in functions {
        add_member(alloc, &mut members, Decl::Function(i.number), i)?;
    }
    Ok(members)
}

/// The members that the datatypes stand for, in order.
fn roots_of(alloc: Global, roots: &[Instance]) -> Result<Members, NoMemory>
    requires { Distinct (map (stands_for Root) roots.now) }
    ensures { IfOk result (λ ms. ms ≡ map (stands_for Root) roots.now) }
{
    let mut members = Members::new(alloc);
    for i in roots {
        add_member(alloc, &mut members, Decl::Root(i.number), i)?;
    }
    Ok(members)
}

/// The numbers of these datatypes and functions. The only error is want of memory.
pub fn numbers_of(
    alloc: Global,
    typed: &Typed,
    roots: &[Instance],
    functions: &[Instance],
) -> Result<Numbers, NoMemory>
    requires room { HasRoom typed.now.ctors (map (stands_for Root) roots.now) }
    requires owned { All (IsOneOf (length typed.now.roots)) typed.now.ctors }
    requires once { Distinct (map (stands_for Root) roots.now) × Distinct (map (stands_for Function) functions.now) }
    requires few { (length roots.now < 2 ^ 31) × (length functions.now < 2 ^ 31) }
    ensures roots { IfOk result (λ n. n.roots ≡ map (stands_for Root) roots.now) }
    ensures functions { IfOk result (λ n. n.functions ≡ map (stands_for Function) functions.now) }
    ensures tables { IfOk result (λ n. AreTables typed.now.ctors n) }
{
    let functions = functions_of(alloc, functions)?;
    let roots = roots_of(alloc, roots)?;
    let firsts = firsts_of(alloc, typed.ctors.as_slice(), roots.as_slice())?;
    let ranks = ranks_of(alloc, typed.ctors.as_slice(), typed.roots.len())?;
    Ok(Numbers {
        roots,
        functions,
        firsts,
        ranks,
    })
}
