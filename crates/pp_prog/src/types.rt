//! The table of datatypes and constructors.

ghost use Rattle.std.specs.Prelude.{◌≡◌, ◌<◌, ◌^◌, length, slice_get, Some};
ghost use Rattle.pp_prog.specs.Table.{Agree, HaveValues, IsTable};

use crate::{CtorId, DataId, Sorts};
use pp_list::Items;
use pp_text::Name;

/// A datatype: its printed name, and its constructors, which stand together from `first` on.
#[derive(Drop)]
pub struct Datatype {
    pub name: Name,
    pub first: CtorId,
    pub count: u32,
}

/// A list of datatypes.
pub type Datatypes = Items<Datatype>;

/// A constructor: its name, its datatype, the sorts of its fields, and whether it is a case object, which prints
/// without brackets.
#[derive(Drop)]
pub struct Ctor {
    pub name: Name,
    pub of: DataId,
    pub fields: Sorts,
    pub object: bool,
}

/// A list of constructors.
pub type Ctors = Items<Ctor>;

/// The datatypes and constructors of a program. They agree, and each datatype has a value.
#[derive(Drop)]
pub struct TypeTable {
    pub datatypes: Datatypes,
    pub ctors: Ctors,
    ghost few_datatypes: { length datatypes < 2 ^ 32 },
    ghost few_ctors: { length ctors < 2 ^ 32 },
    ghost agree: { Agree datatypes ctors },
    ghost inhabited: { ∥ HaveValues datatypes ctors ∥₁ },
}

impl TypeTable {
    /// The table of these lists, each of fewer than 2^32 items. They agree: the constructors of one datatype stand
    /// together, from its `first` on and `count` many, and name it, and each sort names a datatype in range. Each
    /// datatype has a value. It takes no memory.
    pub fn of(datatypes: Datatypes, ctors: Ctors) -> TypeTable
        requires { IsTable datatypes ctors }
        ensures datatypes { result.datatypes ≡ datatypes }
        ensures ctors { result.ctors ≡ ctors }
    {
        TypeTable { datatypes, ctors }
    }

    /// The datatype with this number. It takes no memory.
    pub fn datatype(&self, d: DataId) -> &Datatype
        requires { d.0 < length self.now.datatypes }
        ensures { slice_get self.now.datatypes d.0 ≡ Some result.now }
    {
        &self.datatypes.as_slice()[d.0 as usize]
    }

    /// The constructor with this number. It takes no memory.
    pub fn ctor(&self, c: CtorId) -> &Ctor
        requires { c.0 < length self.now.ctors }
        ensures { slice_get self.now.ctors c.0 ≡ Some result.now }
    {
        &self.ctors.as_slice()[c.0 as usize]
    }
}
