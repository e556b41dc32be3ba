//! Constructors, counted by their roots.

ghost use Rattle.std.specs.Prelude.{◌≡◌, ◌<◌, ◌++◌, ◌∷◌, [], count_by, length, nat_eq, nat_lt, IfOk, OnOk};
ghost use Rattle.pp_declared.specs.Counts.{counts_from};
ghost use Rattle.pp_declared.specs.WellFormed.{most_ctors};
ghost use Rattle.pp_names.specs.Find.{owners_of};

use crate::NoMemory;
use pp_list::Items;
use pp_typed::{TypedCtor, TypedCtors};
use std::alloc::Global;

/// The greatest number of constructors of a root.
const MOST_CTORS: u32 = 64;

/// Constructors, and how many of them each root has.
#[derive(Drop)]
pub(crate) struct CountedCtors {
    pub ctors: TypedCtors,
    pub roots: usize,
    counts: Items<u32>,
    ghost counted: { counts ≡ counts_from 0 roots (owners_of ctors) },
}

impl CountedCtors {
    /// No constructors of so many roots. The only error is want of memory.
    pub fn new(alloc: Global, roots: usize) -> Result<CountedCtors, NoMemory>
        ensures ctors { IfOk result (λ c. c.ctors ≡ []) }
        ensures roots { IfOk result (λ c. c.roots ≡ roots) }
    {
        let mut counts = Items::new(alloc);
        for _ in 0..roots {
            counts.push(0)?;
        }
        Ok(CountedCtors {
            ctors: Items::new(alloc),
            roots,
            counts,
        })
    }

    /// Whether the root may have one more constructor. It takes no memory.
    pub fn has_room(&self, root: u32) -> bool
        requires { root < self.now.roots }
        ensures { result ≡ nat_lt (count_by (nat_eq root) (owners_of self.now.ctors)) most_ctors }
    {
        self.counts.as_slice()[root as usize] < MOST_CTORS
    }

    /// Adds a constructor at the end, whose root has room. The only error is want of memory.
    pub fn push(&mut self, ctor: TypedCtor) -> Result<(), NoMemory>
        requires root { ctor.root < self.old.roots }
        requires room { count_by (nat_eq ctor.root) (owners_of self.old.ctors) < most_ctors }
        ensures adds { OnOk result (self.new.ctors ≡ self.old.ctors ++ ctor ∷ []) }
        ensures roots { OnOk result (self.new.roots ≡ self.old.roots) }
    {
        let root = ctor.root as usize;
        let count = self.counts.as_slice()[root];
        self.ctors.push(ctor)?;
        self.counts.set(root, count + 1);
        Ok(())
    }
}
