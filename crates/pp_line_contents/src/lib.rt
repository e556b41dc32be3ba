//! Why what is printed tells what it says: the verdict, the check, the arguments, the round and the reason can be read
//! back from the line of a function, and the lines from the text of a report, whatever stands under them. Each function
//! does nothing: its contract is the law.
//!
//! `specs/Contents.antt` says what a line may say of a function, `specs/Lines.antt` what may stand under it,
//! `specs/Reports.antt` what a text may say of all, and `specs/Laws.antt` states the laws.
#![tactic(auto)]

ghost use Rattle.pp_line_contents.specs.Laws.{CountsAreHeads, CountsEndOnce, LinesAreHeads, LinesEndOnce};
ghost use Rattle.pp_line_contents.specs.Laws.{LinesTellContents, MadeTextsTellContents, TextsTellContents};
ghost use Rattle.pp_line_contents.specs.Laws.{TextsTellLines};

/// No line says two things: where a line prints two contents, they are the same, and are those of one function. It does
/// nothing: its contract is the law.
pub fn lines_tell_contents()
    ensures { LinesTellContents }
{}

/// Each line on a function of a legible program, and each line of counts, ends in its only newline. It does nothing:
/// its contract is the law.
pub fn lines_end_once()
    ensures lines { LinesEndOnce }
    ensures counts { CountsEndOnce }
{}

/// No line of a function whose name begins with no blank, and no line of counts, stands under another. It does nothing:
/// its contract is the law.
pub fn lines_are_heads()
    ensures lines { LinesAreHeads }
    ensures counts { CountsAreHeads }
{}

/// Lists of texts that each end in their only newline are the same where they make one text. It does nothing: its
/// contract is the law.
pub fn texts_tell_lines()
    ensures { TextsTellLines }
{}

/// No text says two things: where a text prints two reports on a legible program, they say the same of each function,
/// in order, and of how many have each verdict, whatever stands under the lines of functions. It does nothing: its
/// contract is the law.
pub fn texts_tell_contents()
    ensures { TextsTellContents }
{}

/// Nor does a text on functions that were made: it tells how many there are, and how many have each verdict. It does
/// nothing: its contract is the law.
pub fn made_texts_tell_contents()
    ensures { MadeTextsTellContents }
{}
