//! Trees with their heights, which are counted as the trees are built.

ghost use Rattle.std.specs.Prelude.{ℕ, ◌≡◌, min};
ghost use Rattle.pp_tree.specs.Plain.{no_cases};
ghost use Rattle.pp_tree.specs.Shown.{tree_of, case_of, type_of, pattern_of, param_of};
ghost use Rattle.pp_tree.specs.Height.{height, case_heights, type_height, pattern_height, param_height};

use crate::NoMemory;
use pp_tree::{Case, Expr, Param, Pattern, TypeText};

/// What has a height.
pub trait Node: Copy {
    ghost height_of: { Self → ℕ };
}

impl<'a> Node for Expr<'a> {
    ghost height_of = { λ e. height (tree_of e) };
}

impl<'a> Node for Case<'a> {
    ghost height_of = { λ c. case_heights (case_of c no_cases) };
}

impl<'a> Node for Pattern<'a> {
    ghost height_of = { λ p. pattern_height (pattern_of p) };
}

impl<'a> Node for TypeText<'a> {
    ghost height_of = { λ t. type_height (type_of t) };
}

impl<'a> Node for Param<'a> {
    ghost height_of = { λ p. param_height (param_of p) };
}

/// The least height that is too high. Greater ones aren't told apart from it.
pub const TOO_HIGH: u32 = 65;

/// A tree and its height.
#[derive(Drop)]
pub struct Built<T: Node> {
    /// The tree.
    pub tree: T,
    /// Its height; [`TOO_HIGH`] stands for every height from there on.
    pub levels: u32,
    pub ghost is_height: { levels ≡ min (T.height_of tree) 65 },
}

impl<T: Node> Clone for Built<T> {
    ghost use Rattle.std.specs.Prelude.{⊤};

    ghost is_clone = { λ s r. r ≡ s };

    ghost is_infallible = { λ _. ⊤ };

    fn clone(&self) -> Result<Built<T>, NoMemory> {
        Ok(*self)
    }
}

impl<T: Node> Copy for Built<T> {}
