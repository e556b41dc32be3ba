//! Reading a line of words.

ghost use Rattle.std.specs.Prelude.{◌≡◌, IfOk, IsErrOf, None, Some};
ghost use Rattle.pp_words.specs.Command as spec;
ghost use Rattle.pp_words.specs.Line.{line_of};
ghost use Rattle.pp_words.specs.Told.{line_told, texts};
ghost use Rattle.pp_words.specs.declared.line.WordsFault.TheVariants.{Memory};

use crate::NoMemory;
use crate::command::matches;
use crate::given::values;
use crate::task::{Task, asked};
use std::alloc::Global;
use thiserror::Error;

/// Why the words gave no line.
#[derive(Clone, Copy, Debug, Drop, PartialEq, Eq, Error)]
pub enum WordsFault {
    /// They are no line.
    #[error("words refused")]
    Refused,
    /// There is no memory.
    #[error("out of memory")]
    Memory,
}

impl From<NoMemory> for WordsFault {
    ghost from_gives = { λ _ fault. fault ≡ Memory };

    fn from(_: NoMemory) -> Self {
        WordsFault::Memory
    }
}

/// A line of words: what is asked, and the paths of the sources that are fetched for it, 1 to 16, in their order. For a
/// source that is made there are none.
#[derive(Drop)]
pub struct Line<'a> {
    /// What is asked.
    pub task: Task<'a>,
    /// The paths of the sources.
    pub files: Vec<&'a str>,
}

fn has_lone_hyphen(words: &[&str]) -> bool
    ensures { result ≡ spec.has_lone_hyphen (texts words.now) }
{
    for word in words {
        if *word == "--" {
            return false;
        }
        if *word == "-" {
            return true;
        }
    }
    false
}

/// Reads the words, without the program's name.
///
/// # Errors
/// `Refused`: exactly where the words are no line. `Memory`: for want of memory.
pub fn read<'a>(alloc: Global, words: &'a [&'a str]) -> Result<Line<'a>, WordsFault>
    ensures read { IfOk result (λ line. line_of (texts words.entry.now) ≡ Some (line_told line)) }
    ensures refused { IsErrOf result WordsFault.Refused → line_of (texts words.entry.now) ≡ None }
{
    if has_lone_hyphen(words) {
        return Err(WordsFault::Refused);
    }
    let matches = matches(alloc, words)?;
    let given = values(alloc, &matches)?;
    match asked(&given) {
        None => Err(WordsFault::Refused),
        Some(task) => Ok(Line {
            task,
            files: given.files,
        }),
    }
}
