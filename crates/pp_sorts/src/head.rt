//! What the name of a type stands for.

ghost use Rattle.std.specs.Prelude.{◌≡◌, map, nat_eq};
ghost use Rattle.pp_sorts.specs.IsSort.{arity, count, sort_with};
ghost use Rattle.pp_tree.specs.Shown.{type_of, type_trees};

use pp_tree::TypeText;
use pp_typed::{GenericSort, GenericSorts};

/// What the name of a type stands for: a type parameter by its place, or a root by its place, with the number of its
/// type parameters.
#[derive(Clone, Copy)]
pub enum Head {
    Int,
    Bool,
    Param(u32),
    Root(u32, u32),
}

impl Head {
    /// Whether it has as many arguments as these.
    #[tactic(auto, using(crate::proofs::Sizes::count_of))]
    pub(crate) fn takes(self, args: &[TypeText]) -> bool
        ensures { result ≡ nat_eq (count (type_trees (map type_of args.now))) (arity self) }
    {
        let arity = match self {
            Head::Int | Head::Bool | Head::Param(_) => 0,
            Head::Root(_, type_params) => type_params as usize,
        };
        args.len() == arity
    }

    /// The sort with these arguments.
    pub(crate) fn applied(self, args: GenericSorts) -> GenericSort
        ensures { result ≡ sort_with self args }
    {
        match self {
            Head::Int => GenericSort::Int,
            Head::Bool => GenericSort::Bool,
            Head::Param(i) => GenericSort::Param(i),
            Head::Root(r, _) => GenericSort::Root(r, args),
        }
    }
}
