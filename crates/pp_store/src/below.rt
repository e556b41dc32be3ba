//! Whether a held value is a proper subtree of another.

ghost use Rattle.std.specs.Prelude.{◌↔◌, ◌<◌, IfOk, IsTrue, Contains, length};
ghost use Rattle.pp_prog.specs.Values.{IsBelow};
ghost use Rattle.pp_store.specs.Values.{AreBefore, AreHeld, IsHeld, value_of, values_of};
ghost use Rattle.pp_store.specs.Marks.{Marks};

use crate::NoMemory;
use crate::held::Held;
use crate::store::Store;
use std::alloc::Global;

impl Store {
    /// Whether the first stands for a proper subtree of what the second stands for: a field of it, or below one. If it
    /// is a field by its number, that is seen at once. Otherwise each tree below the second is looked at once. The
    /// only error is want of memory.
    pub fn is_below(&self, alloc: Global, a: Held, b: Held) -> Result<bool, NoMemory>
        requires first { IsHeld self.now a }
        requires second { IsHeld self.now b }
        ensures { IfOk result (λ below. IsTrue below ↔ IsBelow (value_of self.now a) (value_of self.now b)) }
    {
        match b {
            Held::Int(_) => Ok(false),
            Held::Bool(_) => Ok(false),
            Held::Tree(top) => {
                if is_among(a, self.parts(top).fields) {
                    return Ok(true);
                }
                self.is_under(alloc, a, top)
            }
        }
    }

    /// Whether the value is a proper subtree of the tree with this number. Trees are looked at from the greatest number
    /// down, so one comes before its fields; marked are the tree itself and those below it.
    fn is_under(&self, alloc: Global, a: Held, top: u32) -> Result<bool, NoMemory>
        requires first { IsHeld self.now a }
        requires second { IsHeld self.now (Held.Tree top) }
        ensures { IfOk result (λ below. IsTrue below ↔ IsBelow (value_of self.now a)
            (value_of self.now (Held.Tree top))) }
    {
        let mut left = top as usize + 1;
        let mut marks = vec![in alloc; false; left]?;
        marks[top as usize] = true;
        while left > 0 {
            left -= 1;
            if marks[left] {
                let fields = self.parts(left as u32).fields;
                if self.is_one_of(alloc, a, fields)? {
                    return Ok(true);
                }
                mark(&mut marks, fields);
            }
        }
        Ok(false)
    }

    /// Whether one of these stands for the value.
    fn is_one_of(&self, alloc: Global, a: Held, fields: &[Held]) -> Result<bool, NoMemory>
        requires first { IsHeld self.now a }
        requires fields { AreHeld self.now fields.now }
        ensures { IfOk result (λ found. IsTrue found ↔ Contains (values_of self.now fields.now)
            (value_of self.now a)) }
    {
        for field in fields {
            if self.same(alloc, a, *field)? {
                return Ok(true);
            }
        }
        Ok(false)
    }
}

/// Marks the numbers of the trees.
fn mark(marks: &mut [bool], fields: &[Held])
    requires { AreBefore (length marks.old) fields.now }
    ensures { Marks fields.now marks.old marks.new }
{
    for field in fields {
        if let Held::Tree(number) = *field {
            marks[number as usize] = true;
        }
    }
}

/// Whether the value is one of these by what holds it.
fn is_among(a: Held, fields: &[Held]) -> bool
    ensures { IsTrue result → Contains fields.now a }
{
    for field in fields {
        if a.is(*field) {
            return true;
        }
    }
    false
}
