//! Whether two held values are the same.

ghost use Rattle.std.specs.Prelude.{◌≡◌, ◌↔◌, ◌++◌, IfOk, IsTrue, OnOk, length, reverse};
ghost use Rattle.pp_store.specs.Values.{IsHeld, value_of};
ghost use Rattle.pp_store.specs.Pairs.{IsSplit, pairs};

use crate::NoMemory;
use crate::held::Held;
use crate::store::Store;
use pp_list::Items;
use std::alloc::Global;

/// Two held values that are to be the same.
#[derive(Clone, Copy)]
pub(crate) struct Pair {
    pub(crate) left: Held,
    pub(crate) right: Held,
}

impl Store {
    /// Whether the two stand for the same value. A tree is the same as itself at once; any other two are gone through
    /// field by field. What isn't two trees takes no memory. The only error is want of memory.
    pub fn same(&self, alloc: Global, a: Held, b: Held) -> Result<bool, NoMemory>
        requires left { IsHeld self.now a }
        requires right { IsHeld self.now b }
        ensures { IfOk result (λ same. IsTrue same ↔ (value_of self.now a ≡ value_of self.now b)) }
    {
        let mut pending = Items::new(alloc);
        if !self.split(&mut pending, Pair { left: a, right: b })? {
            return Ok(false);
        }
        while let Some(pair) = pending.pop() {
            if !self.split(&mut pending, pair)? {
                return Ok(false);
            }
        }
        Ok(true)
    }

    /// Whether the two are alike but for their fields, which are then pending.
    fn split(&self, pending: &mut Items<Pair>, pair: Pair) -> Result<bool, NoMemory>
        requires left { IsHeld self.now pair.left }
        requires right { IsHeld self.now pair.right }
        ensures { IfOk result (λ alike. IsSplit self.now pair pending.old pending.new alike) }
    {
        // a use of a field tells the type's invariant, by which a number of a tree stands for no other kind of value
        let _nodes = &self.nodes;
        match (pair.left, pair.right) {
            (Held::Tree(t), Held::Tree(u)) => self.split_trees(pending, t, u),
            _ => Ok(pair.left.is(pair.right)),
        }
    }

    /// Whether the two trees are alike but for their fields, which are then pending.
    fn split_trees(&self, pending: &mut Items<Pair>, t: u32, u: u32) -> Result<bool, NoMemory>
        requires left { IsHeld self.now (Held.Tree t) }
        requires right { IsHeld self.now (Held.Tree u) }
        ensures { IfOk result (λ alike. IsSplit self.now (record { left = Held.Tree t; right = Held.Tree u })
            pending.old pending.new alike) }
    {
        if t == u {
            return Ok(true);
        }
        let x = self.parts(t);
        let y = self.parts(u);
        if x.ctor.0 != y.ctor.0 || x.fields.len() != y.fields.len() {
            return Ok(false);
        }
        push_pairs(pending, x.fields, y.fields)?;
        Ok(true)
    }
}

/// Adds the pairs of what stands at each place, the first on top.
fn push_pairs(pending: &mut Items<Pair>, xs: &[Held], ys: &[Held]) -> Result<(), NoMemory>
    requires { length xs.now ≡ length ys.now }
    ensures { OnOk result (pending.new ≡ pending.old ++ reverse (pairs xs.now ys.now)) }
{
    for i in (0..xs.len()).rev() {
        pending.push(Pair {
            left: xs[i],
            right: ys[i],
        })?;
    }
    Ok(())
}
