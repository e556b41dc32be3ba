//! The numbers by which the parts of a program are named.

/// The number of a function: its place in the program's list of functions, from 0.
#[derive(Clone, Copy, PartialEq, Eq, Debug)]
pub struct FunctionId(pub u32);

/// The number of a check: its place in the program's list of checks, from 0. Numbers run through all functions in
/// program order.
#[derive(Clone, Copy, PartialEq, Eq, Debug)]
pub struct CheckId(pub u32);

/// The number of a datatype: its place in the table's list of datatypes, from 0.
#[derive(Clone, Copy, PartialEq, Eq, Debug)]
pub struct DataId(pub u32);

/// The number of a constructor: its place in the table's list of constructors, from 0.
#[derive(Clone, Copy, PartialEq, Eq, Debug)]
pub struct CtorId(pub u32);
