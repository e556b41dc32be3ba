//! Lines that the programs of cases put together piece by piece. Where memory is missing for a piece, that is told once,
//! at the line's end, so that what adds pieces has no error to hand on.
//!
//! `specs/AddsPiece.antt` says what a piece does to a line: a line that lacks one is never given out, if each value that
//! was put is of a type that states what it prints, as numbers, truth values, characters and texts are. How the pieces
//! are kept may be changed.
#![tactic(auto)]

mod line;

pub use line::CaseLine;
pub use std::alloc::AllocError as NoMemory;
