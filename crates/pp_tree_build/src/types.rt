//! Written types.

ghost use Rattle.std.specs.Prelude.{◌≡◌, IfOk, map, min, option_map};
ghost use Rattle.pp_tree.specs.Shown.{type_of, type_trees, param_of};
ghost use Rattle.pp_tree.specs.Plain.{type_text};
ghost use Rattle.pp_tree.specs.Height.{written_height};

use crate::kept::keep;
use crate::rows::{above, highest, row};
use crate::{Built, NoMemory};
use bumpalo::Bump;
use pp_tree::{Param, TypeText};

/// A type.
pub fn type_text<'a>(
    arena: &'a Bump,
    at: u32,
    name: &'a str,
    args: &[&Built<TypeText<'a>>],
) -> Result<&'a Built<TypeText<'a>>, NoMemory>
    ensures { IfOk result (λ b. type_of b.now.tree ≡ type_text at name.now
        (type_trees (map (λ t. type_of t.now.tree) args.now))) }
{
    let levels = above(highest(args));
    let args = row(arena, args)?;
    let tree = TypeText { at, name, args };
    keep(arena, Built { tree, levels })
}

/// The height of a type that may be missing, cut at `TOO_HIGH`, and 0 where it is missing.
pub fn written_levels(of: Option<&Built<TypeText>>) -> u32
    ensures { result ≡ min (written_height (option_map (λ t. type_of t.now.tree) of.entry)) 65 }
{
    match of {
        None => 0,
        Some(of) => of.levels,
    }
}

/// A type that may be missing, without its height.
pub fn tree_alone<'a>(of: Option<&Built<TypeText<'a>>>) -> Option<TypeText<'a>>
    ensures { result ≡ option_map (λ t. t.now.tree) of.entry }
{
    match of {
        None => None,
        Some(of) => Some(of.tree),
    }
}

/// A parameter or a field.
pub fn param<'a>(
    arena: &'a Bump,
    at: u32,
    name: &'a str,
    of: &Built<TypeText<'a>>,
) -> Result<&'a Built<Param<'a>>, NoMemory>
    ensures { IfOk result (λ b. param_of b.now.tree
        ≡ record { at = at; name = name.now; of = type_of of.now.tree }) }
{
    let levels = of.levels;
    let tree = Param {
        at,
        name,
        of: of.tree,
    };
    keep(arena, Built { tree, levels })
}
