//! The patterns of the matches that are measured: trees that hold truth values.

ghost use Rattle.std.specs.Prelude.{◌≤◌, ◌*◌};

use pp_cover::NoMemory;
use pp_list::Items;
use pp_prog::{CtorId, Pattern, Patterns};
use std::alloc::Global;

/// The constructor of pairs of truth values.
pub const PAIR: u32 = 0;

/// The constructor of 16 pairs.
pub const PAIRS: u32 = 1;

/// The constructor of 16 truth values.
pub const ROW: u32 = 2;

/// The constructor of 16 rows.
pub const GRID: u32 = 3;

/// The first of many constructors of 16 truth values each.
pub const WIDE: u32 = 4;

/// How many fields a constructor has, but that of pairs.
pub const FIELDS: u32 = 16;

/// The truth values of a tree at which a case looks: so many, the first at this place, and each so many places behind
/// the one before. They must be as these binary digits are, the lowest first.
#[derive(Clone, Copy)]
pub struct Looks {
    pub first: u32,
    pub step: u32,
    pub count: u32,
    pub digits: u32,
}

/// Looks at truth values that stand side by side.
pub fn beside(first: u32, count: u32, digits: u32) -> Looks {
    Looks {
        first,
        step: 1,
        count,
        digits,
    }
}

/// Adds a tree of the constructor, with what the case looks at.
pub fn add_tree(
    alloc: Global,
    patterns: &mut Patterns,
    ctor: u32,
    looks: Looks,
) -> Result<(), NoMemory> {
    patterns.push(tree(alloc, ctor, looks)?)
}

/// A tree of the constructor, with what the case looks at.
pub fn tree(alloc: Global, ctor: u32, looks: Looks) -> Result<Pattern, NoMemory> {
    match ctor {
        PAIR => flat(alloc, ctor, 0, 2, looks),
        PAIRS => nested(alloc, ctor, PAIR, 2, looks),
        GRID => nested(alloc, ctor, ROW, FIELDS, looks),
        _ => flat(alloc, ctor, 0, FIELDS, looks),
    }
}

/// A tree of the constructor, whose so many truth values stand at the places from `first` on.
fn flat(alloc: Global, ctor: u32, first: u32, count: u32, looks: Looks) -> Result<Pattern, NoMemory>
    requires first { first ≤ 1000 }
    requires count { count ≤ 16 }
{
    let mut fields = Items::new(alloc);
    for place in first..first + count {
        fields.push(truth(looks, place))?;
    }
    Ok(Pattern::Ctor(CtorId(ctor), fields))
}

/// A tree of the constructor, whose fields are trees of another one with so many truth values each.
fn nested(
    alloc: Global,
    ctor: u32,
    inner: u32,
    count: u32,
    looks: Looks,
) -> Result<Pattern, NoMemory>
    requires { count ≤ 16 }
{
    let mut fields = Items::new(alloc);
    for field in 0..FIELDS {
        fields.push(flat(alloc, inner, count * field, count, looks)?)?;
    }
    Ok(Pattern::Ctor(CtorId(ctor), fields))
}

/// What the case asks of the truth value at a place.
fn truth(looks: Looks, place: u32) -> Pattern {
    let mut at = looks.first;
    for look in 0..looks.count {
        if at == place {
            return Pattern::Bool(looks.digits >> look % 32 & 1 == 1);
        }
        at = at.saturating_add(looks.step);
    }
    Pattern::Any
}
