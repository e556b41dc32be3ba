//! Places in sources.

/// A place in the sources: the number of a source, a line and a column, each from 1. A column counts characters.
#[derive(Clone, Copy, PartialEq, Eq, Debug)]
pub struct Place {
    pub source: u32,
    pub line: u32,
    pub column: u32,
}
