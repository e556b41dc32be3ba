//! A list of different names in which each is found by its text.

ghost use Rattle.std.specs.Prelude.{◌≡◌, ◌<◌, ◌^◌, [], length, not, IfOk, OnOk, OnErr};
ghost use Rattle.pp_names.specs.Places.{has, place_of, with_name};

use crate::NoMemory;
use indexmap::IndexSet;
use std::alloc::Global;
use std::marker::Model;

/// As many names as have a place that a `u32` holds, but one.
const MOST_NAMES: usize = u32::MAX as usize;

/// Different names, in the order in which they were added, and fewer than 2^32. Contracts see the list.
#[derive(Drop)]
pub struct NameTable {
    names: IndexSet<String>,
}

impl Model for NameTable {
    ghost use Rattle.std.specs.Prelude.{List, ℕ, map, length, ◌<◌, ◌^◌};
    ghost use Rattle.std.specs.String.{string_bytes};

    ghost Value = { List (List ℕ) };

    ghost view = { λ t. map string_bytes t.names.keys };

    ghost invariant = { λ t. length t.names.keys < 2 ^ 32 };
}

impl NameTable {
    /// A table without names. It takes no memory.
    pub fn new(alloc: Global) -> NameTable
        ensures { result ≡ [] }
    {
        NameTable {
            names: IndexSet::new(alloc),
        }
    }

    /// The number of names. It takes no memory.
    pub fn len(&self) -> u32
        ensures value { result ≡ length self.now }
        ensures few { length self.now < 2 ^ 32 }
    {
        self.names.len() as u32
    }

    /// Adds a name at the end and answers whether it is new; a name that the table has already changes nothing. On
    /// `NoMemory`, the only error, nothing has changed; a name past the last place that a `u32` holds is one of its
    /// causes.
    pub fn add(&mut self, alloc: Global, name: &str) -> Result<bool, NoMemory>
        ensures is_new { IfOk result (λ new. new ≡ not (has name.now self.old)) }
        ensures adds { OnOk result (self.new ≡ with_name self.old name.now) }
        ensures err { OnErr result (self.new ≡ self.old) }
    {
        if self.names.len() >= MOST_NAMES {
            return Err(NoMemory);
        }
        let (_, new) = self.names.insert_full(String::from_str(alloc, name)?)?;
        Ok(new)
    }

    /// Whether the list has the name. It takes no memory.
    pub fn has(&self, name: &str) -> bool
        ensures { result ≡ has name.now self.now }
    {
        self.names.contains(name)
    }

    /// The place of the name in the list; None exactly where it isn't there. It takes no memory.
    pub fn find(&self, name: &str) -> Option<u32>
        ensures { result ≡ place_of name.now self.now }
    {
        match self.names.get_index_of(name) {
            Some(i) => Some(i as u32),
            None => None,
        }
    }
}
