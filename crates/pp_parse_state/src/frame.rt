//! The frames: what is open around what is read next. Their parts lie on the stack; lists have the last at their end.

use pp_tree::{BinaryOp, Expr, Param, UnaryOp};
use pp_tree_build::Built;
use std::alloc::Global;

/// A word and where it stands.
#[derive(Clone, Copy)]
pub struct Placed<'a> {
    /// The word.
    pub word: &'a str,
    /// Its offset, in bytes.
    pub at: u32,
}

/// What the head of a class or a function begins: a class or a trait, with the words before it, or a function.
#[derive(Clone, Copy)]
pub enum Kind {
    Class {
        sealed: bool,
        case: bool,
        is_trait: bool,
    },
    Def,
}

/// What is read of the head of a class or a function.
#[derive(Drop)]
pub struct Head<'a> {
    pub at: u32,
    pub name: &'a str,
    pub type_params: Vec<&'a str>,
    pub listed: bool,
    pub params: Vec<&'a Built<Param<'a>>>,
}

/// The contracts at the head of a body: the requirements, the measure, the first contract's word, and where a
/// `decreases` stands behind a `require`.
#[derive(Drop)]
pub struct Contracts<'a> {
    pub requirements: Vec<&'a Built<Expr<'a>>>,
    pub measure: Vec<&'a Built<Expr<'a>>>,
    pub first: Option<Placed<'a>>,
    pub late: Option<u32>,
}

/// The brackets of a postcondition.
#[derive(Clone, Copy)]
pub enum Around {
    Parentheses,
    Braces,
}

/// What is open. Each stands for the frame of `pp_grammar` that has its name, whose parts lie on the stack. A number is
/// the offset at which that form stands, in bytes; a truth value, whether the hole stands in the operand.
#[derive(Clone, Copy)]
pub enum Frame {
    Header(Kind),
    ParamType(u32),
    ResultType,
    ParentType,
    ObjectParent(u32),
    BodyOf,
    HeadBraces,
    Requiring,
    Measuring(u32),
    TupleOrRound,
    InTuple,
    PostOf(u32, Around),
    Claiming,
    ClaimingHole,
    ResultNameType,
    ResultNameTypeInRound,
    TypeArgs(u32),
    Naming(u32),
    PatternRound,
    PatternArgs(u32),
    Round,
    NameTypes(u32),
    Args(u32),
    Prefixing(u32, UnaryOp),
    Left(u32, BinaryOp, bool),
    IfTest(u32),
    IfThen(u32),
    IfRest(u32),
    CasesOf(u32),
    Guarding,
    Arm,
    Braces,
    ValType(u32),
    ValValue(u32),
    AfterVal(u32),
    Asserting(u32),
    AfterAssert(u32),
}

impl<'a> Head<'a> {
    ghost use Rattle.std.specs.Prelude.{◌≡◌};
    ghost use Rattle.pp_parse_state.specs.Parts.{no_head};
    ghost use Rattle.pp_parse_state.specs.Values.{head_of};

    /// The head of nothing.
    pub(crate) fn none(alloc: Global) -> Head<'a>
        ensures { head_of result ≡ no_head }
    {
        Head {
            at: 0,
            name: "",
            type_params: Vec::new(alloc),
            listed: false,
            params: Vec::new(alloc),
        }
    }
}

impl<'a> Contracts<'a> {
    ghost use Rattle.std.specs.Prelude.{◌≡◌};
    ghost use Rattle.pp_grammar.specs.Joining.{no_contracts};
    ghost use Rattle.pp_parse_state.specs.Values.{contracts_of};

    /// No contracts.
    pub fn none(alloc: Global) -> Contracts<'a>
        ensures { contracts_of result ≡ no_contracts }
    {
        Contracts {
            requirements: Vec::new(alloc),
            measure: Vec::new(alloc),
            first: None,
            late: None,
        }
    }
}
