//! The stack: the frames of what is open, the last on top, and the parts of them and of the mode.

ghost use Rattle.std.specs.Prelude.{◌≡◌, List, [], ◌∷◌, IfOk, MatchOption};
ghost use Rattle.pp_grammar.specs.Frames.{Frame as plain_frame};
ghost use Rattle.pp_grammar.specs.Joining.{floor, takes_hole};
ghost use Rattle.pp_parse_state.specs.Joining.{top_binds, top_is_statement, lets_hole, is_claim};
ghost use Rattle.pp_parse_state.specs.Parts.{Parts};
ghost use Rattle.pp_parse_state.specs.Shown.{frame_of, frames, nothing_on, over, shown, spares_of, with_frame};

use crate::joining::{binds, is_statement};
use crate::operators::{LOOSEST, TIGHTEST, level};
use crate::spares::Spares;
use crate::{Contracts, Frame, Head, NoMemory};
use bumpalo::Bump;
use pp_tree::{Case, Decl, Expr, Pattern, TypeText};
use pp_tree_build::{Built, Checked, Claim};
use std::alloc::Global;

/// What is open, and the parts of it and of what was read last, of each kind the last on top.
#[derive(Drop)]
pub struct Stack<'a> {
    pub(crate) alloc: Global,
    pub(crate) frames: Vec<Frame>,
    pub(crate) names: Vec<&'a str>,
    pub(crate) types: Vec<&'a Built<TypeText<'a>>>,
    pub(crate) patterns: Vec<&'a Built<Pattern<'a>>>,
    pub(crate) exprs: Vec<&'a Built<Expr<'a>>>,
    pub(crate) given_types: Vec<Option<&'a Built<TypeText<'a>>>>,
    pub(crate) guards: Vec<Option<&'a Built<Expr<'a>>>>,
    pub(crate) type_lists: Vec<Vec<&'a Built<TypeText<'a>>>>,
    pub(crate) pattern_lists: Vec<Vec<&'a Built<Pattern<'a>>>>,
    pub(crate) expr_lists: Vec<Vec<&'a Built<Expr<'a>>>>,
    pub(crate) case_lists: Vec<Vec<&'a Built<Case<'a>>>>,
    pub(crate) heads: Vec<Head<'a>>,
    pub(crate) contracts: Vec<Contracts<'a>>,
    pub(crate) posts: Vec<Option<Claim<'a>>>,
    pub(crate) decls: Vec<&'a Checked<Decl<'a>>>,
    pub(crate) spares: Spares<'a>,
}

impl<'a> Stack<'a> {
    /// Nothing is open, and nothing lies there but the spare trees.
    pub fn new(alloc: Global, arena: &'a Bump) -> Result<Stack<'a>, NoMemory>
        ensures frames { IfOk result (λ s. frames s ≡ []) }
        ensures parts { IfOk result (λ s. shown s ≡ nothing_on (shown s).parts.spares) }
    {
        Ok(Stack::empty(alloc, Spares::new(arena)?))
    }

    /// Nothing is open any more, and nothing lies there but the spare trees, which stay.
    pub fn clear(&mut self)
        ensures frames { frames self.new ≡ [] }
        ensures parts { shown self.new ≡ nothing_on (shown self.old).parts.spares }
    {
        *self = Stack::empty(self.alloc, self.spares);
    }

    /// The stack on which nothing lies.
    fn empty(alloc: Global, spares: Spares<'a>) -> Stack<'a>
        ensures { shown result ≡ nothing_on (spares_of spares.entry) }
    {
        Stack {
            alloc,
            frames: Vec::new(alloc),
            names: Vec::new(alloc),
            types: Vec::new(alloc),
            patterns: Vec::new(alloc),
            exprs: Vec::new(alloc),
            given_types: Vec::new(alloc),
            guards: Vec::new(alloc),
            type_lists: Vec::new(alloc),
            pattern_lists: Vec::new(alloc),
            expr_lists: Vec::new(alloc),
            case_lists: Vec::new(alloc),
            heads: Vec::new(alloc),
            contracts: Vec::new(alloc),
            posts: Vec::new(alloc),
            decls: Vec::new(alloc),
            spares,
        }
    }

    /// A frame is put on top, above its parts.
    #[tactic(auto, using(crate::proofs::Stacked::stacked_push))]
    pub fn push(&mut self, frame: Frame) -> Result<(), NoMemory>
        ensures { IfOk result (λ _. shown self.new ≡ with_frame frame (shown self.old)) }
    {
        self.frames.push(frame)?;
        Ok(())
    }

    /// The frame on top is taken off. Its parts stay.
    #[tactic(auto, using(crate::proofs::Stacked::stacked_push))]
    pub fn pop(&mut self) -> Option<Frame>
        ensures { MatchOption result (((shown self.old).kinds ≡ []) × (shown self.new ≡ shown self.old))
            (λ f. shown self.old ≡ with_frame f (shown self.new)) }
    {
        self.frames.pop()
    }

    /// How tight an operand has to bind above the frames.
    #[tactic(auto, using(crate::proofs::Stacked::stacked_push))]
    pub fn floor(&self) -> u32
        ensures frames { result ≡ floor (frames self.now) }
        ensures kinds { (p : Parts) → result ≡ floor (over (shown self.now).kinds p) }
    {
        match self.frames.split_last() {
            None => 0,
            Some((top, _)) => floor_above(*top),
        }
    }

    /// Whether the frame on top binds at least as tight as the level.
    #[tactic(auto, using(crate::proofs::Stacked::stacked_push))]
    pub(crate) fn binds(&self, tight: u32) -> bool
        ensures { result ≡ top_binds tight (shown self.now).kinds }
    {
        match self.frames.split_last() {
            None => false,
            Some((top, _)) => binds(*top, tight),
        }
    }

    /// Whether the frame on top is a finished statement.
    #[tactic(auto, using(crate::proofs::Stacked::stacked_push))]
    pub(crate) fn ends_statement(&self) -> bool
        ensures { result ≡ top_is_statement (shown self.now).kinds }
    {
        match self.frames.split_last() {
            None => false,
            Some((top, _)) => is_statement(*top),
        }
    }

    /// Whether the hole may stand here: only operators, without a hole, and prefixes stand between here and the claim.
    pub fn takes_hole(&self) -> bool
        ensures { result ≡ takes_hole (frames self.now) }
    {
        let mut depth = self.frames.len();
        while depth > 0 {
            depth -= 1;
            let frame = self.frames[depth];
            if !lets_hole(frame) {
                return is_claim(frame);
            }
        }
        false
    }
}

/// How tight an operand has to bind above the frame.
fn floor_above(frame: Frame) -> u32
    ensures { (p : Parts) (s : List plain_frame) → result ≡ floor (frame_of frame p ∷ s) }
{
    match frame {
        Frame::Prefixing(_, _) => TIGHTEST + 1,
        Frame::Left(_, op, _) => level(op) + 1,
        Frame::Guarding | Frame::ClaimingHole => LOOSEST,
        _ => 0,
    }
}

/// Whether the hole may stand above the frame if it may stand below it.
fn lets_hole(frame: Frame) -> bool
    ensures { result ≡ lets_hole frame }
{
    match frame {
        Frame::Prefixing(_, _) => true,
        Frame::Left(_, _, holed) => !holed,
        _ => false,
    }
}

/// Whether the frame is that of a claim with a hole.
fn is_claim(frame: Frame) -> bool
    ensures { result ≡ is_claim frame }
{
    matches!(frame, Frame::ClaimingHole)
}
