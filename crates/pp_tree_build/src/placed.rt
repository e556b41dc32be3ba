//! Trees with a place of their own.

ghost use Rattle.std.specs.Prelude.{◌≡◌, refl};
ghost use Rattle.pp_tree.specs.Shown.{tree_of, type_of, param_of};
ghost use Rattle.pp_tree.specs.Roots.{Root, expr_root, type_root, param_root};

use crate::Node;
use pp_tree::{Expr, Param, TypeText};

/// A tree with a place of its own.
pub trait Placed: Node {
    ghost root_of: { Self → Root };

    /// The offset at which the tree stands.
    fn place(&self) -> u32
        ensures { result ≡ (root_of self.now).at };

    ghost high_as_it_is: { (x : Self) → (root_of x).levels ≡ Self.height_of x };
}

impl<'a> Placed for Expr<'a> {
    ghost root_of = { λ e. expr_root (tree_of e) };

    ghost high_as_it_is = { λ x. refl };

    fn place(&self) -> u32 {
        self.at
    }
}

impl<'a> Placed for TypeText<'a> {
    ghost root_of = { λ t. type_root (type_of t) };

    ghost high_as_it_is = { λ x. refl };

    fn place(&self) -> u32 {
        self.at
    }
}

impl<'a> Placed for Param<'a> {
    ghost root_of = { λ p. param_root (param_of p) };

    ghost high_as_it_is = { λ x. refl };

    fn place(&self) -> u32 {
        self.of.at
    }
}
