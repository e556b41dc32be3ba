//! The texts that the program writes, line by line, and putting them.
//!
//! Each line is made whole, with the newline that ends it, before anything is put: `line` has those on verdicts, `run`
//! those on a run, `list` those of a list of checks, `made` the one on functions that were made, `fault` those on
//! faults of sources, and `refusal` those on why else there is no answer. `put_lines` then puts each line as one piece.
//! `specs/Values` says how values print, `specs/Lines`, `Runs`, `Listed`, `Made`, `Faults` and `Refusals` what the
//! bytes of each line are, `specs/Heads` which lines stand under others, and `specs/Puts` what lines leave that are put
//! in part. The bytes are a promise to whoever reads them; how a line is made may change freely. A value prints without
//! recursion on its height: `specs/Pending` says what is left to print of it.
#![tactic(auto)]

mod check;
mod fault;
mod line;
mod list;
mod made;
mod put;
mod refusal;
mod run;
mod value;

pub use fault::{
    NamedFault, SourceFault, named_fault_line, source_fault_line, too_many_instances_line,
};
pub use line::{Reason, depends_line, invalid_line, open_line, summary_line, valid_line};
pub use list::{count_line, estimate_line};
pub use made::made_line;
pub use put::put_lines;
pub use refusal::{
    memory_line, not_utf8_line, read_fault_line, too_long_line, words_line, write_fault_line,
};
pub use run::{deep_line, done_line, fails_line, inner_line, outside_line};
