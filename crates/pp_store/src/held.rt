//! Values by what holds them.

ghost use Rattle.std.specs.Prelude.{◌≡◌, ◌↔◌, IsTrue};

/// A value that is held: a number or a truth value itself, and a tree by its number in a store.
#[derive(Clone, Copy)]
pub enum Held {
    /// This number.
    Int(i32),
    /// This truth value.
    Bool(bool),
    /// The tree of the store with this number.
    Tree(u32),
}

impl Held {
    /// Whether the two are the same number, the same truth value, or trees of one number.
    pub(crate) fn is(self, other: Held) -> bool
        ensures { IsTrue result ↔ (self ≡ other) }
    {
        match (self, other) {
            (Held::Int(n), Held::Int(m)) => n == m,
            (Held::Bool(x), Held::Bool(y)) => x == y,
            (Held::Tree(t), Held::Tree(u)) => t == u,
            _ => false,
        }
    }
}
