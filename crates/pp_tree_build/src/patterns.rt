//! Patterns.

ghost use Rattle.std.specs.Prelude.{◌≡◌, IfOk, map, option_map};
ghost use Rattle.pp_tree.specs.Shown.{pattern_of, pattern_trees};
ghost use Rattle.pp_tree.specs.Plain.{any, int_pattern, bool_pattern, ctor_pattern};

use crate::kept::keep;
use crate::rows::{above, highest, row};
use crate::{Built, NoMemory};
use bumpalo::Bump;
use pp_tree::{Pattern, PatternKind};

/// A pattern that fits every value.
pub fn any<'a>(
    arena: &'a Bump,
    at: u32,
    name: Option<&'a str>,
) -> Result<&'a Built<Pattern<'a>>, NoMemory>
    ensures { IfOk result (λ b. pattern_of b.now.tree ≡ any at (option_map (λ n. n.now) name.entry)) }
{
    let kind = PatternKind::Any;
    let tree = Pattern { at, name, kind };
    keep(arena, Built { tree, levels: 1 })
}

/// A number.
pub fn int_pattern<'a>(
    arena: &'a Bump,
    at: u32,
    name: Option<&'a str>,
    value: i32,
) -> Result<&'a Built<Pattern<'a>>, NoMemory>
    ensures { IfOk result (λ b. pattern_of b.now.tree
        ≡ int_pattern at (option_map (λ n. n.now) name.entry) value) }
{
    let kind = PatternKind::Int(value);
    let tree = Pattern { at, name, kind };
    keep(arena, Built { tree, levels: 1 })
}

/// A truth value.
pub fn bool_pattern<'a>(
    arena: &'a Bump,
    at: u32,
    name: Option<&'a str>,
    value: bool,
) -> Result<&'a Built<Pattern<'a>>, NoMemory>
    ensures { IfOk result (λ b. pattern_of b.now.tree
        ≡ bool_pattern at (option_map (λ n. n.now) name.entry) value) }
{
    let kind = PatternKind::Bool(value);
    let tree = Pattern { at, name, kind };
    keep(arena, Built { tree, levels: 1 })
}

/// A constructor with patterns for its fields.
pub fn ctor_pattern<'a>(
    arena: &'a Bump,
    at: u32,
    name: Option<&'a str>,
    ctor: &'a str,
    fields: &[&Built<Pattern<'a>>],
) -> Result<&'a Built<Pattern<'a>>, NoMemory>
    ensures { IfOk result (λ b. pattern_of b.now.tree ≡ ctor_pattern at (option_map (λ n. n.now) name.entry) ctor.now
        (pattern_trees (map (λ p. pattern_of p.now.tree) fields.now))) }
{
    let levels = above(highest(fields));
    let kind = PatternKind::Ctor(ctor, row(arena, fields)?);
    let tree = Pattern { at, name, kind };
    keep(arena, Built { tree, levels })
}
