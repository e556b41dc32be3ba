//! Declarations and units, with the place of what is too high in them.

ghost use Rattle.std.specs.Prelude.{◌≡◌, List};
ghost use Rattle.std.proofs.Props.{props};
ghost use Rattle.pp_tree.specs.Roots.{Root, too_high, decl_roots, unit_roots};
ghost use Rattle.pp_tree.specs.Shown.{decl_of, unit_of};

use crate::NoMemory;
use pp_tree::{Decl, Unit};

/// What has roots: trees that stand in no other.
pub trait Rooted: Copy {
    ghost roots_of: { Self → List Root };
}

impl<'a> Rooted for Decl<'a> {
    ghost roots_of = { λ d. decl_roots (decl_of d) };
}

impl<'a> Rooted for Unit<'a> {
    ghost roots_of = { λ u. unit_roots (unit_of u) };
}

/// A declaration or a unit, and what is too high in it.
#[derive(Drop)]
pub struct Checked<T: Rooted> {
    /// The declaration or the unit.
    pub tree: T,
    /// The offset of the first of its roots that is higher than 64, in bytes, if one is.
    pub deep: Option<u32>,
    pub ghost is_deep: { deep ≡ too_high (T.roots_of tree) } by { Prim.hlevel props },
}

impl<T: Rooted> Clone for Checked<T> {
    ghost use Rattle.std.specs.Prelude.{⊤};

    ghost is_clone = { λ s r. r ≡ s };

    ghost is_infallible = { λ _. ⊤ };

    fn clone(&self) -> Result<Checked<T>, NoMemory> {
        Ok(*self)
    }
}

impl<T: Rooted> Copy for Checked<T> {}
