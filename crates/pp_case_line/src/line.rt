//! A line that grows.

ghost use Rattle.std.specs.Prelude.{◌≡◌, [], None, Some, IfErr, IfOk, string_bytes};
ghost use Rattle.pp_case_line.specs.AddsPiece.{AddsPiece};

use crate::NoMemory;
use std::alloc::Global;
use std::fmt::Display;
use std::marker::Model;

/// A line so far, and whether memory was missing for one of its pieces.
#[derive(Drop)]
pub struct CaseLine {
    text: String,
    lacks_piece: bool,
}

impl Model for CaseLine {
    ghost use Rattle.std.specs.Prelude.{ℕ, List, Option, None, Some, if◌then◌else◌, string_bytes};

    ghost Value = { Option (List ℕ) };

    ghost view = { λ l. if l.lacks_piece then None else Some (string_bytes l.text) };
}

impl CaseLine {
    /// The empty line. It takes no memory.
    pub fn new(alloc: Global) -> CaseLine
        ensures { result ≡ Some [] }
    {
        CaseLine {
            text: String::new(alloc),
            lacks_piece: false,
        }
    }

    /// Adds what is printed of the value, which is known where its type states it.
    pub fn put<T: Display + Drop>(&mut self, value: T)
        ensures { AddsPiece (T.output value) self.old self.new }
    {
        if write!(self.text, "{value}").is_err() {
            self.lacks_piece = true;
        }
    }

    /// The whole line.
    ///
    /// # Errors
    ///
    /// Memory was missing for a piece.
    pub fn end(self) -> Result<String, NoMemory>
        ensures whole { IfOk result (λ s. self ≡ Some (string_bytes s)) }
        ensures no_memory { IfErr result (λ _. self ≡ None) }
    {
        if self.lacks_piece {
            Err(NoMemory)
        } else {
            Ok(self.text)
        }
    }
}
