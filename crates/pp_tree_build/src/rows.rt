//! Lists of trees, in the arena.

ghost use Rattle.std.specs.Prelude.{◌≡◌, ◌+◌, ◌≤◌, min, map, IfOk};
ghost use Rattle.pp_tree.specs.Height.{highest};

use crate::{Built, NoMemory, Node, TOO_HIGH};
use bumpalo::Bump;
use bumpalo::collections::into_bump_slice;

/// The height of a node above trees of this height at most, cut at `TOO_HIGH`.
pub fn above(levels: u32) -> u32
    requires { levels ≤ 65 }
    ensures { result ≡ min (levels + 1) 65 }
{
    (levels + 1).min(TOO_HIGH)
}

/// The greatest height of the trees, cut at `TOO_HIGH`, and 0 where there is none.
pub fn highest<T: Node>(items: &[&Built<T>]) -> u32
    ensures { result ≡ min (highest T.height_of (map (λ b. b.now.tree) items.now)) 65 }
{
    let mut levels: u32 = 0;
    for item in items {
        levels = levels.max(item.levels);
    }
    levels
}

/// The trees alone, in the arena.
pub fn row<'a, T: Node>(arena: &'a Bump, items: &[&Built<T>]) -> Result<&'a [T], NoMemory>
    ensures { IfOk result (λ r. r.now ≡ map (λ b. b.now.tree) items.now) }
{
    let mut trees = Vec::new(arena);
    for item in items {
        trees.push(item.tree)?;
    }
    Ok(into_bump_slice(trees))
}
