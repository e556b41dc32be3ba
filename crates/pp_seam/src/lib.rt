//! What the program reaches outside itself: sources that are fetched by path, and sinks that text is put on.
//!
//! The two traits stand in `shelf` and `sink`, their faults in `faults`. In memory there are `Shelves` and
//! `Bytes`, whose faults a test tells in advance; `FileShelf` and `StdSink` are the trusted edge, over the loops of
//! `reads` and `writes`, whose clauses say which bytes go through them. The layers above use the traits alone: a
//! shelf or a sink may be added, a clause of the traits may not be weakened. The words of the clauses are `specs/`.
#![tactic(auto)]

mod bytes;
mod entries;
mod faults;
mod files;
mod reads;
mod shelf;
mod shelves;
mod sink;
mod stream;
mod tries;
mod writes;

pub use bytes::Bytes;
pub use faults::{FetchFault, PutFault};
pub use files::FileShelf;
pub use reads::{ReadFault, read_within};
pub use shelf::Shelf;
pub use shelves::Shelves;
pub use sink::Sink;
pub use std::alloc::AllocError as NoMemory;
pub use stream::StdSink;
