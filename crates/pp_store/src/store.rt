//! The store: what was made in it, and how a tree is made and looked at.

ghost use Rattle.std.specs.Prelude.{◌≡◌, [], ◌+◌, ◌<◌, ◌≤◌, length, IfOk};
ghost use Rattle.pp_prog.specs.declared.value.Value.TheVariants.{Tree};
ghost use Rattle.pp_store.specs.Values.{AreBefore, AreHeld, Extends, StandsFor, value_of, values_of};
ghost use Rattle.pp_store.specs.Nodes.{fields_at};

use crate::NoMemory;
use crate::held::Held;
use crate::node::Node;
use pp_prog::CtorId;
use std::alloc::{AllocError, Global};
use std::marker::Model;

/// The trees that were made, in the order in which they were: a tree's number is its place. There are at most 2^32.
#[derive(Drop)]
pub struct Store {
    pub(crate) nodes: Vec<Node>,
    fields: Vec<Held>,
}

impl Model for Store {
    ghost use Rattle.std.specs.Coded.{codes};
    ghost use Rattle.pp_prog.specs.contracts.value.Value as tree;
    ghost use Rattle.pp_store.specs.Values.{Trees};
    ghost use Rattle.pp_store.specs.Nodes.{AreNodes, trees_of};

    ghost Value = { Trees };

    ghost coded = { Prim.hlevel (codes, tree.the_row.coded) };

    ghost view = { λ s. trees_of s.fields.items s.nodes.items };

    ghost invariant = { λ s. AreNodes s.fields.items s.nodes.items };
}

/// A tree by its parts: the constructor, and what holds its fields.
#[derive(Clone, Copy)]
pub struct Parts<'s> {
    /// Its constructor.
    pub ctor: CtorId,
    /// What holds its fields, in order.
    pub fields: &'s [Held],
}

impl Store {
    /// A store with no tree.
    pub fn new(alloc: Global) -> Store
        ensures { result ≡ [] }
    {
        Store {
            nodes: Vec::new(alloc),
            fields: Vec::new(alloc),
        }
    }

    /// A new tree of this constructor and these fields, which are held in the store. Want of memory is the only error,
    /// as a tree past 2^32 and a field past 2^32 are; what was held stays as it was, then too.
    pub fn make(&mut self, ctor: CtorId, fields: &[Held]) -> Result<Held, NoMemory>
        requires { AreHeld self.old fields.now }
        ensures extends { Extends self.old self.new }
        ensures made { IfOk result (λ held. StandsFor self.new held (Tree ctor (values_of self.old fields.now))) }
    {
        let number = number_of(self.nodes.len())?;
        let first = number_of(self.fields.len())?;
        let count = number_of(fields.len())?;
        self.fields.extend_from_slice(fields)?;
        self.nodes.push(Node { ctor, first, count })?;
        Ok(Held::Tree(number))
    }

    /// The parts of the tree with this number. Each tree among its fields has a lesser number.
    pub fn parts(&self, number: u32) -> Parts<'_>
        requires { number < length self.now }
        ensures value { value_of self.now (Held.Tree number) ≡ Tree result.ctor (values_of self.now result.fields.now) }
        ensures held { AreHeld self.now result.fields.now }
        ensures earlier { AreBefore number result.fields.now }
    {
        let node = &self.nodes[number as usize];
        let ctor = node.ctor;
        let fields = fields_of(self.fields.as_slice(), node);
        Parts { ctor, fields }
    }
}

/// The fields of the node.
fn fields_of<'s>(fields: &'s [Held], node: &Node) -> &'s [Held]
    requires { node.now.first + node.now.count ≤ length fields.now }
    ensures { result.now ≡ fields_at fields.now node.now }
{
    let first = node.first as usize;
    &fields[first..first + node.count as usize]
}

/// The number, if it is below 2^32.
fn number_of(count: usize) -> Result<u32, NoMemory>
    ensures { IfOk result (λ number. number ≡ count) }
{
    if count > u32::MAX as usize {
        return Err(AllocError);
    }
    Ok(count as u32)
}
