//! Two trees that are compared, or of which one is chosen.

use pp_bounded::BoundedTree;

/// Two trees, which are of one datatype and of one height.
#[derive(Clone, Copy)]
pub struct TreePair {
    pub left: BoundedTree,
    pub right: BoundedTree,
}
