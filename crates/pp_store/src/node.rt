//! The nodes of a store.

use pp_prog::CtorId;

/// A tree that was made: its constructor, and where its fields stand in the store's list of fields.
#[derive(Clone, Copy)]
pub(crate) struct Node {
    pub(crate) ctor: CtorId,
    pub(crate) first: u32,
    pub(crate) count: u32,
}
