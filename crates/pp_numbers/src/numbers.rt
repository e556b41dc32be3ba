//! Tables of numbers.

ghost use Rattle.std.specs.Prelude.{◌≡◌, ◌<◌, ◌≤◌, ◌^◌, ℕ, IfOk, length};
ghost use Rattle.pp_translation.specs.Numbers.{ctor_number, data_number, first_of, function_number};
ghost use Rattle.pp_numbers.specs.Tables.{AreTables};

use pp_instances::{Decl, Member, Members};
use pp_list::{Items, at};
use pp_prog::{CtorId, DataId, FunctionId};
use pp_typed::{GenericSorts, TypedCtor};

/// The datatypes and the functions of a program, in order; at each datatype's place its first constructor, and one more
/// for the end; at each constructor's place its place among those of its root.
#[derive(Drop)]
pub struct Numbers {
    pub roots: Members,
    pub functions: Members,
    pub firsts: Items<u32>,
    pub ranks: Items<u32>,
}

impl Numbers {
    /// The function of the program that a function is at these arguments. It takes no memory.
    pub fn function(&self, f: u32, args: GenericSorts) -> FunctionId
        requires { length self.now.functions < 2 ^ 31 }
        ensures { result ≡ function_number self.now.functions f args }
    {
        let of = Decl::Function(f);
        FunctionId(self.functions.place(&Member { of, args }) as u32)
    }

    /// The datatype of the program that a root is at these arguments. It takes no memory.
    pub fn datatype(&self, r: u32, args: GenericSorts) -> DataId
        requires { length self.now.roots < 2 ^ 31 }
        ensures value { result ≡ data_number self.now.roots r args }
        ensures within { result.0 ≤ length self.now.roots }
    {
        let of = Decl::Root(r);
        DataId(self.roots.place(&Member { of, args }) as u32)
    }

    /// The first constructor of the datatype with this number. It takes no memory.
    fn first(&self, ctors: &[TypedCtor], d: DataId) -> u32
        requires held { AreTables ctors.now self.now }
        requires within { d.0 ≤ length self.now.roots }
        ensures value { result ≡ first_of ctors.now self.now.roots d.0 }
        ensures few { result < 2 ^ 31 }
    {
        self.firsts.as_slice()[d.0 as usize]
    }

    /// The constructor of the program that constructor c is at these arguments. It takes no memory.
    pub fn ctor(&self, ctors: &[TypedCtor], c: u32, args: GenericSorts) -> CtorId
        requires held { AreTables ctors.now self.now }
        ensures { result ≡ ctor_number ctors.now self.now.roots c args }
    {
        match at(ctors, c as usize) {
            None => CtorId(0),
            Some(k) => {
                let first = self.first(ctors, self.datatype(k.root, args));
                CtorId(first + self.ranks.as_slice()[c as usize])
            }
        }
    }
}
