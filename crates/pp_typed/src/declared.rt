//! What declarations see of one another, before any body is typed.

use crate::{GenericSort, GenericSorts, TypedCtors, TypedRoots};
use pp_list::Items;
use pp_text::Name;

/// A function as its callers see it: its name, the number of its type parameters, the sorts of its parameters, whether
/// a parameter list is written, and the sort of its result.
#[derive(Drop)]
pub struct Signature {
    pub name: Name,
    pub type_params: u32,
    pub params: GenericSorts,
    pub list: bool,
    pub result: GenericSort,
}

/// A list of functions, as their callers see them.
pub type Signatures = Items<Signature>;

/// The names of the fields of a constructor, in order.
pub type FieldNames = Items<Name>;

/// The roots, constructors and functions that all units declare, in program order, and the names of the fields of each
/// constructor.
#[derive(Drop)]
pub struct Declared {
    pub roots: TypedRoots,
    pub ctors: TypedCtors,
    pub field_names: Items<FieldNames>,
    pub functions: Signatures,
}
