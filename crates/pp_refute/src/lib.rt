//! Checks logs of resolution steps: a yes of `accepts` means that nothing satisfies the clauses and the assumptions.
//! `log_text` and `read_log` write a log as text and read it.
//!
//! `accepts` replays each chain on one table by variable (`table`), which is as long as the greatest variable; it reads
//! each clause once for that, and then those that the chains name. The definitions of what it decides stand in
//! `pp_clause`, and that of log text in `specs/LogText`. How it decides, and how a text is read, may be changed.
#![tactic(auto)]

mod accepting;
mod bound;
pub mod fault;
mod reading;
mod replay;
mod scan;
pub mod table;
mod writing;

pub use accepting::accepts;
pub use fault::LogFault;
pub use reading::read_log;
pub use std::alloc::AllocError as NoMemory;
pub use writing::log_text;
