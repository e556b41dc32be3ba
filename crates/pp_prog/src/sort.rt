//! Sorts: the types of a concrete program.

use crate::DataId;
use pp_list::Items;

/// The sort of a value: a number of 32 bits, a truth value, or a datatype.
#[derive(Clone, Copy, PartialEq, Eq, Debug)]
pub enum Sort {
    Int,
    Bool,
    Tree(DataId),
}

/// A list of sorts.
pub type Sorts = Items<Sort>;
