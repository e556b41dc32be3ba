//! The calls of circuits, of numbers and of words by their names.

use crate::numbers::meaning;

/// What a call computes.
#[derive(Clone, Copy)]
pub enum Operator {
    Add,
    AddCarry,
    And,
    Choose,
    Divide,
    Equal,
    Less,
    LessSigned,
    Lesser,
    Majority,
    Mul,
    Mux,
    Neg,
    Not,
    Or,
    Rem,
    Shl,
    Shr,
    Sub,
    SubBorrow,
    Ushr,
    Word,
    Xor,
}

/// The names of the calls, of which some compute the same.
const NAMES: [(&str, Operator); 25] = [
    ("add", Operator::Add),
    ("add_carry", Operator::AddCarry),
    ("and", Operator::And),
    ("choose", Operator::Choose),
    ("div", Operator::Divide),
    ("divide", Operator::Divide),
    ("equal", Operator::Equal),
    ("invert", Operator::Not),
    ("less", Operator::Less),
    ("less_signed", Operator::LessSigned),
    ("lesser", Operator::Lesser),
    ("majority", Operator::Majority),
    ("mul", Operator::Mul),
    ("mux", Operator::Mux),
    ("neg", Operator::Neg),
    ("not", Operator::Not),
    ("or", Operator::Or),
    ("rem", Operator::Rem),
    ("shl", Operator::Shl),
    ("shr", Operator::Shr),
    ("sub", Operator::Sub),
    ("sub_borrow", Operator::SubBorrow),
    ("ushr", Operator::Ushr),
    ("word", Operator::Word),
    ("xor", Operator::Xor),
];

impl Operator {
    /// The operator of this name.
    pub fn named(name: &str) -> Option<Operator> {
        meaning(&NAMES, name)
    }
}
