//! What a machine has left to do.

use pp_prog::{BinaryOp, Case, CheckId, Ctor, CtorId, Expr, Function, FunctionId, UnaryOp};

/// What calls are made of: the program's constructors and functions.
#[derive(Clone, Copy)]
pub(crate) struct Code<'a> {
    pub(crate) ctors: &'a [Ctor],
    pub(crate) functions: &'a [Function],
}

/// The frame that is evaluated: how deep calls may still be nested, the function that was called, which the run's own
/// frame hasn't, how many values are in scope, and how many measure values the frame has.
#[derive(Clone, Copy)]
pub(crate) struct Here {
    pub(crate) fuel: u32,
    pub(crate) called: Option<FunctionId>,
    pub(crate) bound: usize,
    pub(crate) measured: Option<usize>,
}

/// A call whose arguments, so many, are the last of the environment.
#[derive(Clone, Copy)]
pub(crate) struct Site<'a> {
    pub(crate) function: &'a Function,
    pub(crate) callee: FunctionId,
    pub(crate) count: usize,
    pub(crate) pre: Option<CheckId>,
    pub(crate) measure: Option<CheckId>,
}

/// What is left to do. Each takes what it needs from the top of the values, and puts what it gives there.
#[derive(Clone, Copy)]
pub(crate) enum Todo<'a> {
    /// Evaluate the expression.
    Eval(&'a Expr),
    /// Evaluate the expressions, from left to right.
    EvalAll(&'a [Expr]),
    /// An operator with one operand.
    Unary(UnaryOp),
    /// An operator whose two operands were evaluated.
    Operate(BinaryOp, Option<CheckId>),
    /// The right side of `&&`, where the left is true.
    AndAlso(&'a Expr),
    /// The right side of `||`, where the left is false.
    OrElse(&'a Expr),
    /// One of the two, by a condition.
    If(&'a Expr, &'a Expr),
    /// Go on where the condition is true; else the check fails.
    Assert(CheckId, &'a Expr),
    /// Make a tree of the values from this place on.
    Construct(CtorId, usize),
    /// The field at this place.
    Field(u32),
    /// The first case that is taken for a value.
    Cases(&'a [Case], Option<CheckId>),
    /// The case's body, where its guard is true; else the other cases. So many values were bound.
    Guarded(&'a Expr, &'a [Case], Option<CheckId>, usize),
    /// Evaluate the expression with the value in scope.
    Val(&'a Expr),
    /// So many values go out of scope.
    Forget(usize),
    /// Call the function with the values from this place on.
    Call {
        callee: FunctionId,
        pre: Option<CheckId>,
        measure: Option<CheckId>,
        first: usize,
    },
    /// Go on with the call where the precondition is true; else the site's check fails.
    Admit(Site<'a>),
    /// Go on with the call where the measure values, which are those from this place on, are below the frame's.
    Descend(Site<'a>, usize),
    /// Go back to this frame, and keep the arguments.
    Back(Here),
    /// Leave the body of a call for this frame.
    Leave(Here),
}
