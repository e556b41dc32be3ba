//! The trees that stand for parts that aren't there.

use crate::NoMemory;
use bumpalo::Bump;
use pp_tree::{Decl, Expr, Pattern, TypeText};
use pp_tree_build::{Built, Checked, ClassKind, ClassParts, any, class, int, type_text};

/// A tree of each kind, which is taken where none lies on the stack. Each frame and each mode has its parts, so none of
/// these is ever taken, and any would do; no clause says so.
#[derive(Clone, Copy)]
pub(crate) struct Spares<'a> {
    pub(crate) of: &'a Built<TypeText<'a>>,
    pub(crate) pattern: &'a Built<Pattern<'a>>,
    pub(crate) expr: &'a Built<Expr<'a>>,
    pub(crate) decl: &'a Checked<Decl<'a>>,
}

impl<'a> Spares<'a> {
    /// The smallest trees.
    pub(crate) fn new(arena: &'a Bump) -> Result<Spares<'a>, NoMemory> {
        let parts = ClassParts {
            at: 0,
            name: "",
            params: &[],
            fields: &[],
            parent: None,
            object: true,
        };
        Ok(Spares {
            of: type_text(arena, 0, "", &[])?,
            pattern: any(arena, 0, None)?,
            expr: int(arena, 0, 0)?,
            decl: class(arena, ClassKind::Other, &parts)?,
        })
    }
}
