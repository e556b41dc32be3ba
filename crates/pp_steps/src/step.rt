//! One step.

use pp_list::Items;
use pp_prog::{BinaryOp, CtorId, FunctionId, Sort, UnaryOp};

/// A list of sorts.
pub type SortList = Items<Sort>;

/// Numbers of steps, from 0.
pub type Numbers = Items<u32>;

/// One step. Its operands are the numbers of earlier steps.
///
/// `Open` has any value: an argument. `Both` and `Not` are of truth
/// values, and `Choose` has the second operand's value where the first is true, and else the third one's. `IsCtor`
/// tells whether its operand has the constructor with so many fields. `CtorField` is the field of that constructor at
/// a place, and `Field` the field at a place of a datatype with one constructor. `IsAlike` tells whether two values
/// are of one sort, and `GoesDown` whether a component of a measure goes down from the second to the first.
/// `HasAnswer` tells whether a call that is left open has an answer, and `Answer` is the answer.
#[derive(Drop)]
pub enum Step {
    Open(Sort),
    Int(i32),
    Bool(bool),
    Not(u32),
    Both(u32, u32),
    Choose(u32, u32, u32),
    Unary(UnaryOp, u32),
    Binary(BinaryOp, u32, u32),
    Construct(CtorId, Numbers),
    IsCtor(CtorId, u32, u32),
    CtorField(CtorId, u32, u32),
    Field(u32, u32),
    IsAlike(u32, u32),
    GoesDown(u32, u32),
    HasAnswer(OpenCall),
    Answer(OpenCall),
}

/// A call that is left open: the function, how many rounds have to pass before it is unfolded, the number that tells
/// whether it is reached, the sorts of its parameters and of its result, and the numbers of its arguments.
#[derive(Drop)]
pub struct OpenCall {
    pub callee: FunctionId,
    pub wait: u32,
    pub reach: u32,
    pub params: SortList,
    pub result: Sort,
    pub args: Numbers,
}

/// A list of steps.
pub type Steps = Items<Step>;
