//! The domain, which contracts see as its trees.

use pp_named_trees::NamedTrees;
use std::marker::Model;

/// Trees that are named. Contracts see it as its trees.
#[derive(Drop)]
pub struct Named {
    pub(crate) trees: NamedTrees,
}

impl Model for Named {
    ghost use Rattle.pp_named_trees.specs.declared.arena.NamedTrees.{NamedTrees};

    ghost Value = { NamedTrees };

    ghost view = { λ b. b.trees };
}
