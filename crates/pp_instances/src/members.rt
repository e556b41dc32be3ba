//! Members by their places, each once.

ghost use Rattle.std.specs.Prelude.{◌≡◌, ◌↔◌, ◌<◌, ◌≤◌, [], IsTrue, OnOk, OnErr, Some, length, slice_get, Contains};
ghost use Rattle.pp_instances.specs.Same.{place_of, with_member};
ghost use Rattle.pp_instances.specs.Closure.{Distinct};

use crate::NoMemory;
use crate::member::Member;
use indexmap::IndexSet;
use std::alloc::Global;
use std::marker::Model;

/// Members in the order in which they were added, each once. A look-up takes the time of one hash.
#[derive(Drop)]
pub struct Members {
    set: IndexSet<Member>,
}

impl Model for Members {
    ghost use Rattle.std.specs.Prelude.{List};
    ghost use Rattle.std.specs.Coded.{codes};
    ghost use Rattle.pp_typed.specs.contracts.sort.GenericSort as sort;
    ghost use Rattle.pp_instances.specs.declared.member.Member.{Member};
    ghost use Rattle.pp_instances.specs.Closure.{Distinct};

    ghost Value = { List Member };

    ghost coded = { Prim.hlevel (codes, sort.the_row.coded) };

    ghost view = { λ m. m.set.keys };

    ghost invariant = { λ m. Distinct m.set.keys };
}

impl Members {
    /// No members.
    pub fn new(alloc: Global) -> Members
        ensures { result ≡ [] }
    {
        Members {
            set: IndexSet::new(alloc),
        }
    }

    /// The number of members. It takes no memory.
    pub fn len(&self) -> usize
        ensures value { result ≡ length self.now }
        ensures once { Distinct self.now }
    {
        self.set.len()
    }

    /// The member at this place. It takes no memory.
    pub fn at(&self, i: usize) -> &Member
        requires { i < length self.now }
        ensures { slice_get self.now i ≡ Some result.now }
    {
        &self.set.as_slice()[i]
    }

    /// All members, in order. It takes no memory.
    pub fn as_slice(&self) -> &[Member]
        ensures all { result.now ≡ self.now }
        ensures once { Distinct result.now }
    {
        self.set.as_slice()
    }

    /// The place of a member; the number of members where it isn't there. It takes no memory.
    pub fn place(&self, member: &Member) -> usize
        ensures value { result ≡ place_of self.now member.now }
        ensures within { result ≤ length self.now }
    {
        match self.set.get_index_of(member) {
            Some(i) => i,
            None => self.set.len(),
        }
    }

    /// Adds a member, where it isn't there. On `NoMemory` nothing has changed.
    pub fn insert(&mut self, member: Member) -> Result<(), NoMemory>
        ensures ok { OnOk result (self.new ≡ with_member self.old member) }
        ensures err { OnErr result (self.new ≡ self.old) }
        ensures once { Distinct self.new }
    {
        self.set.insert(member)?;
        Ok(())
    }
}
