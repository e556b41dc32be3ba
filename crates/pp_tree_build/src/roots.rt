//! Which trees of a declaration are too high.

ghost use Rattle.std.specs.Prelude.{◌≡◌, [], ◌∷◌, map, option_to_list};
ghost use Rattle.pp_tree.specs.Roots.{too_high};

use crate::placed::Placed;
use crate::{Built, TOO_HIGH};

/// The place of the tree if it is too high.
pub fn too_high<T: Placed>(item: &Built<T>) -> Option<u32>
    ensures { result ≡ too_high (T.root_of item.now.tree ∷ []) }
{
    if item.levels < TOO_HIGH {
        return None;
    }
    Some(item.tree.place())
}

/// The place of the tree if it is there and too high.
pub fn too_high_if_any<T: Placed>(item: Option<&Built<T>>) -> Option<u32>
    ensures { result ≡ too_high (map (λ b. T.root_of b.now.tree) (option_to_list item.entry)) }
{
    match item {
        None => None,
        Some(item) => too_high(item),
    }
}

/// The place of the first of the trees that is too high.
pub fn first_too_high<T: Placed>(items: &[&Built<T>]) -> Option<u32>
    ensures { result ≡ too_high (map (λ b. T.root_of b.now.tree) items.now) }
{
    for item in items {
        if item.levels >= TOO_HIGH {
            return Some(item.tree.place());
        }
    }
    None
}
