//! Values that are kept in the arena.

ghost use Rattle.std.specs.Prelude.{◌≡◌, IfOk};

use crate::NoMemory;
use bumpalo::Bump;

/// The value, in the arena.
pub fn keep<'a, T: Copy>(arena: &'a Bump, value: T) -> Result<&'a T, NoMemory>
    ensures { IfOk result (λ k. k.now ≡ value) }
{
    match arena.try_alloc(value) {
        Ok(kept) => Ok(kept),
        Err(_) => Err(NoMemory),
    }
}
