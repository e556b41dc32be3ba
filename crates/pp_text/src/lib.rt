//! The text of a source, and names.
//!
//! A [`Text`] is made from bytes that are UTF-8 and few enough that each offset fits 32 bits. It says which line and
//! which column an offset is. A [`Name`] is a text that owns its bytes. Contracts see both as the list of their bytes.
//! `specs/Fault.antt` says when bytes are no text, `specs/Place.antt` what lines and columns are, `specs/Table.antt`
//! which of them a text keeps. How a text is kept may change freely.
#![tactic(auto)]

mod name;
mod place;
mod text;

pub use name::Name;
pub use std::alloc::AllocError as NoMemory;
pub use text::{MOST_BYTES, Text, TextFault};
