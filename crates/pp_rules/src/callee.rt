//! What a name or an application stands for.

use pp_typed::{GenericSort, GenericSorts};

/// A function or a constructor, by its place.
#[derive(Clone, Copy)]
pub enum Target {
    Function(u32),
    Ctor(u32),
}

/// A function or a constructor as it is applied: the number of its type parameters, the sorts of its parameters or
/// fields, and the sort of its result.
#[derive(Drop)]
pub struct Callee {
    pub target: Target,
    pub type_params: u32,
    pub params: GenericSorts,
    pub result: GenericSort,
}
