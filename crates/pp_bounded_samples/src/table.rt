//! The table of the samples.

ghost use Rattle.std.specs.Prelude.{◌≡◌, ◌++◌, ◌∷◌, [], IfOk, IsTrue, OnOk, ◌^◌, ◌≤◌, ◌<◌, length, map};
ghost use Rattle.pp_prog.specs.Table.{IsTable};
ghost use Rattle.pp_bounded_samples.specs.Sample.{IsLow, IsSample, IsSmall, bare_ctors, ctor_of, datatype_of};
ghost use Rattle.pp_bounded_samples.specs.Sample.{sample_ctors, sample_datatypes};

use crate::NoMemory;
use pp_list::Items;
use pp_prog::{Ctor, CtorId, Ctors, DataId, Datatype, Datatypes, Sort, TypeTable};
use pp_text::Name;
use std::alloc::Global;

/// Lists of numbers: `Nil`, and `Cons` of a number and a list.
pub const LIST: u32 = 0;

/// Trees with a truth value at each fork: `Tip`, and `Fork` of a tree, a truth value and a tree.
pub const TREE: u32 = 1;

/// A datatype with fields of another: `Off`, `Flag` of a truth value and a tree, and `Both` of a list and a tree.
pub const MIXED: u32 = 2;

/// Four constructors with three recursive fields: `Stop`, `Truth`, `Number`, and `Three` of three trees.
pub const WIDE: u32 = 3;

/// Lists of the trees of the next datatype, which holds them: `Empty`, and `More` of a tree and a list.
pub const FOREST: u32 = 4;

/// Trees with such lists: `Leaf`, and `Node` of a list.
pub const ROSE: u32 = 5;

/// Two truth values: `Neither`, and `Both` of them.
pub const PAIR: u32 = 6;

/// Lists with 64 constructors: 63 without fields, and `Next` of a number and a list.
pub const MANY: u32 = 7;

/// How many of those have no fields.
const BARE: u32 = 63;

/// The height up to which each call has its room.
const LOW: u32 = 4;

/// The name of all datatypes and constructors, which nothing looks at.
const NAME: &str = "Sample";

/// The table of these datatypes.
pub fn sample_types(alloc: Global) -> Result<TypeTable, NoMemory>
    ensures { IfOk result IsSample }
{
    let datatypes = datatypes(alloc, NAME)?;
    let ctors = ctors(alloc, NAME)?;
    Ok(TypeTable::of(datatypes, ctors))
}

fn datatypes(alloc: Global, name: &str) -> Result<Datatypes, NoMemory>
    ensures { IfOk result (λ r. r ≡ sample_datatypes name.now) }
{
    let blocks = [
        (0, 2),
        (2, 2),
        (4, 3),
        (7, 4),
        (11, 2),
        (13, 2),
        (15, 2),
        (17, BARE + 1),
    ];
    let mut datatypes = Items::new(alloc);
    add_datatypes(alloc, &mut datatypes, name, &blocks)?;
    Ok(datatypes)
}

/// Adds a datatype for each first constructor and how many there are.
fn add_datatypes(
    alloc: Global,
    datatypes: &mut Datatypes,
    name: &str,
    blocks: &[(u32, u32)],
) -> Result<(), NoMemory>
    ensures { OnOk result (datatypes.new ≡ datatypes.old ++ map (λ b. datatype_of name.now b.0 b.1) blocks.now) }
{
    for (first, count) in blocks {
        datatypes.push(Datatype {
            name: Name::of(alloc, name)?,
            first: CtorId(*first),
            count: *count,
        })?;
    }
    Ok(())
}

fn ctors(alloc: Global, name: &str) -> Result<Ctors, NoMemory>
    ensures { IfOk result (λ r. r ≡ sample_ctors name.now) }
{
    let mut ctors = Items::new(alloc);
    let list = Sort::Tree(DataId(LIST));
    let tree = Sort::Tree(DataId(TREE));
    let mixed = Sort::Tree(DataId(MIXED));
    let wide = Sort::Tree(DataId(WIDE));
    let forest = Sort::Tree(DataId(FOREST));
    let rose = Sort::Tree(DataId(ROSE));
    let many = Sort::Tree(DataId(MANY));
    add_ctor(alloc, &mut ctors, name, LIST, &[])?;
    add_ctor(alloc, &mut ctors, name, LIST, &[Sort::Int, list])?;
    add_ctor(alloc, &mut ctors, name, TREE, &[])?;
    add_ctor(alloc, &mut ctors, name, TREE, &[tree, Sort::Bool, tree])?;
    add_ctor(alloc, &mut ctors, name, MIXED, &[])?;
    add_ctor(alloc, &mut ctors, name, MIXED, &[Sort::Bool, mixed])?;
    add_ctor(alloc, &mut ctors, name, MIXED, &[list, mixed])?;
    add_ctor(alloc, &mut ctors, name, WIDE, &[])?;
    add_ctor(alloc, &mut ctors, name, WIDE, &[Sort::Bool])?;
    add_ctor(alloc, &mut ctors, name, WIDE, &[Sort::Int])?;
    add_ctor(alloc, &mut ctors, name, WIDE, &[wide, wide, wide])?;
    add_ctor(alloc, &mut ctors, name, FOREST, &[])?;
    add_ctor(alloc, &mut ctors, name, FOREST, &[rose, forest])?;
    add_ctor(alloc, &mut ctors, name, ROSE, &[])?;
    add_ctor(alloc, &mut ctors, name, ROSE, &[forest])?;
    add_ctor(alloc, &mut ctors, name, PAIR, &[])?;
    add_ctor(alloc, &mut ctors, name, PAIR, &[Sort::Bool, Sort::Bool])?;
    add_bare(alloc, &mut ctors, name)?;
    add_ctor(alloc, &mut ctors, name, MANY, &[Sort::Int, many])?;
    Ok(ctors)
}

/// Adds the constructors without fields of the datatype that has many.
fn add_bare(alloc: Global, ctors: &mut Ctors, name: &str) -> Result<(), NoMemory>
    ensures { OnOk result (ctors.new ≡ ctors.old ++ bare_ctors name.now 63) }
{
    for _place in 0..BARE {
        add_ctor(alloc, ctors, name, MANY, &[])?;
    }
    Ok(())
}

/// Adds a constructor of the datatype, with fields of these sorts.
fn add_ctor(
    alloc: Global,
    ctors: &mut Ctors,
    name: &str,
    of: u32,
    fields: &[Sort],
) -> Result<(), NoMemory>
    ensures { OnOk result (ctors.new ≡ ctors.old ++ ctor_of name.now of fields.now ∷ []) }
{
    ctors.push(Ctor {
        name: Name::of(alloc, name)?,
        of: DataId(of),
        fields: Items::from_slice(alloc, fields)?,
        object: false,
    })?;
    Ok(())
}

/// Whether each call has its room at trees of this datatype and height: those up to the height 4, and lists up to 6.
pub fn is_low(of: DataId, height: u32) -> bool
    ensures { IsTrue result → IsLow of height }
{
    1 <= height && (of.0 <= WIDE && height <= LOW || of.0 == LIST && height <= LOW + 2)
}
