//! The arena of nodes.

ghost use Rattle.std.specs.Prelude.{◌≡◌, ◌++◌, [], ◌∷◌, ◌<◌, length, IfOk, OnOk, OnErr};
ghost use Rattle.pp_bounded_trees.specs.Alternatives.{IsIn};

use crate::NoMemory;
use pp_clause::Lit;
use pp_domain::Symbols;
use pp_list::Items;
use pp_prog::{CtorId, DataId};
use std::alloc::AllocError;

/// A tree: the number of its node, its datatype and its height.
#[derive(Clone, Copy)]
pub struct BoundedTree {
    /// The place of its node in the arena.
    pub number: u32,
    /// Its datatype, which is that of the node.
    pub of: DataId,
    /// Its height, which is at least that of the node.
    pub height: u64,
}

/// A constructor that a node may have, and has where the literal is true, with its fields.
#[derive(Drop)]
pub struct Alternative {
    /// The constructor, one of the node's datatype.
    pub ctor: CtorId,
    /// True where the node has it.
    pub lit: Lit,
    /// A symbol for each field, whose trees are of earlier nodes and lower than this one.
    pub fields: Symbols<BoundedTree>,
}

/// A node: its datatype, its height, and the constructors that it may have, in order of their numbers.
#[derive(Drop)]
pub struct Node {
    /// Its datatype.
    pub of: DataId,
    /// No value that it stands for is higher.
    pub height: u64,
    /// The constructors that it may have. Exactly one literal is true, if there is one at all.
    pub alternatives: Items<Alternative>,
}

/// Trees up to a height, in an arena, and the literal that is true where all conditions on the inputs hold.
#[derive(Drop)]
pub struct Trees {
    /// The nodes, each with fields among those before it.
    pub nodes: Items<Node>,
    /// False only where a tree was asked for that can stand for nothing.
    pub ok: Lit,
}

impl Trees {
    /// The constructors that a tree may have.
    pub fn alternatives(&self, tree: &BoundedTree) -> &[Alternative]
        requires { tree.now.number < length self.now.nodes }
        ensures { IsIn self.now.nodes tree.now.number result.now }
    {
        self.nodes.as_slice()[tree.number as usize]
            .alternatives
            .as_slice()
    }

    /// Puts a node at the end of the arena, and answers its tree. On `NoMemory` nothing has changed.
    pub fn push(&mut self, node: Node) -> Result<BoundedTree, NoMemory>
        ensures nodes { OnOk result (self.new.nodes ≡ self.old.nodes ++ node ∷ []) }
        ensures number { IfOk result (λ t. t.number ≡ length self.old.nodes) }
        ensures of { IfOk result (λ t. t.of ≡ node.of) }
        ensures height { IfOk result (λ t. t.height ≡ node.height) }
        ensures err { OnErr result (self.new.nodes ≡ self.old.nodes) }
        ensures ok { self.new.ok ≡ self.old.ok }
    {
        let Ok(number) = u32::try_from(self.nodes.len()) else {
            return Err(AllocError);
        };
        let tree = BoundedTree {
            number,
            of: node.of,
            height: node.height,
        };
        self.nodes.push(node)?;
        Ok(tree)
    }
}
