//! The text of a source.

ghost use Rattle.std.specs.Prelude.{◌≡◌, ◌≤◌, length, IfOk, IfErr};
ghost use Rattle.std.specs.Str.{IsUtf8, IsCharBoundary};
ghost use Rattle.pp_text.specs.Limits.{most_bytes};
ghost use Rattle.pp_text.specs.Place.{place_of};

use crate::place::{BYTES_APART, past_bytes, table};
use std::alloc::{AllocError, Global};
use std::marker::Model;

/// The most bytes that a text has: 256 KiB, the `most_bytes` of contracts.
pub const MOST_BYTES: usize = 262_144;

/// Why bytes are no text.
#[derive(Clone, Copy, Debug, PartialEq, Eq)]
pub enum TextFault {
    /// The bytes aren't UTF-8. The offset, from 0, is that of the first byte that begins no character.
    NotUtf8(u32),
    /// There was no memory for the text.
    Memory,
}

impl From<AllocError> for TextFault {
    ghost use Rattle.pp_text.specs.declared.text.TextFault.TheVariants.{Memory};

    ghost from_gives = { λ _ fault. fault ≡ Memory };

    fn from(_error: AllocError) -> TextFault {
        TextFault::Memory
    }
}

/// A text of at most [`MOST_BYTES`] bytes. Contracts see it as the list of its bytes, which are UTF-8.
#[derive(Debug, Drop)]
pub struct Text {
    text: String,
    // the places in the text from which `place` counts on
    table: Vec<(u32, u32)>,
}

impl Model for Text {
    ghost use Rattle.std.specs.Prelude.{List, ℕ};
    ghost use Rattle.std.specs.String.{string_bytes};
    ghost use Rattle.pp_text.specs.Table.{IsKept};

    ghost Value = { List ℕ };

    ghost view = { λ t. string_bytes t.text };

    ghost invariant = { λ t. IsKept (string_bytes t.text) t.table.items };
}

impl Text {
    ghost use Rattle.pp_text.specs.Fault.{IsCause};

    /// The text with these bytes. `NotUtf8` comes exactly where they aren't UTF-8, and its offset is that of the first
    /// byte that begins no character (Unicode Standard, chapter 3, table 3-7). The other error is want of memory.
    pub fn read(alloc: Global, bytes: &[u8]) -> Result<Text, TextFault>
        requires { length bytes.now ≤ most_bytes }
        ensures same { IfOk result (λ text. text ≡ bytes.now) }
        ensures utf8 { IfOk result (λ _. IsUtf8 bytes.now) }
        ensures refused { IfErr result (λ fault. IsCause fault bytes.now) }
    {
        match str::from_utf8(bytes) {
            Ok(valid) => {
                let table = table(alloc, bytes)?;
                let text = String::from_str(alloc, valid)?;
                Ok(Text { text, table })
            }
            Err(fault) => Err(TextFault::NotUtf8(fault.valid_up_to() as u32)),
        }
    }

    /// The text itself. It takes no memory.
    pub fn as_str(&self) -> &str
        ensures same { result.now ≡ self.now }
        ensures utf8 { IsUtf8 result.now }
        ensures short { length result.now ≤ most_bytes }
    {
        self.text.as_str()
    }

    /// The line and the column of the offset, both from 1. A line ends with a line feed, and a column counts characters
    /// (Unicode scalar values). The offset is one at which a character begins, or the end. It takes no memory, and it
    /// passes fewer than 64 bytes of the text.
    pub fn place(&self, offset: u32) -> (u32, u32)
        requires { IsCharBoundary self.now offset }
        ensures { result ≡ place_of self.now offset }
    {
        let offset = offset as usize;
        let mark = offset / BYTES_APART;
        let start = BYTES_APART * mark;
        past_bytes(self.table[mark], &self.text.as_bytes()[start..offset])
    }
}
