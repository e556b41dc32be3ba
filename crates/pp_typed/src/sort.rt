//! Sorts with type parameters.

use pp_list::Items;

/// A sort, as it is written in a declaration with type parameters. `Param` names a type parameter by its place in the
/// declaration's list, `Root` a root by its place among the roots, with all its arguments.
#[derive(Drop)]
pub enum GenericSort {
    Int,
    Bool,
    Param(u32),
    Root(u32, Items<GenericSort>),
}

/// A list of sorts.
pub type GenericSorts = Items<GenericSort>;
