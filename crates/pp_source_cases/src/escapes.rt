//! The bytes that a line stands for.
//!
//! In a line `\n`, `\r`, `\t` and `\\` stand for what they stand for in Rust, and `\x` with two digits for a byte. A
//! line of `typing` may have several sources, with `\s` between. A source `\*COUNT PIECE` stands for the piece so many
//! times over.

use crate::case::{parts, size};
use pp_text::NoMemory;
use std::alloc::Global;

/// What the bytes of a line so far have begun.
#[derive(Clone, Copy)]
enum Begun {
    Nothing,
    Escape,
    Byte,
    Half(u8),
}

/// What a hexadecimal digit stands for.
fn digit(byte: u8) -> u8 {
    match byte {
        b'0'..=b'9' => byte - b'0',
        b'a'..=b'f' => byte - b'a' + 10,
        _ => 0,
    }
}

/// The byte that a letter stands for behind a backslash.
fn escaped(byte: u8) -> u8 {
    match byte {
        b'n' => b'\n',
        b'r' => b'\r',
        b't' => b'\t',
        other => other,
    }
}

/// What is begun behind the next byte, and the byte that is ended by it.
fn next(begun: Begun, byte: u8) -> (Begun, Option<u8>) {
    match begun {
        Begun::Nothing if byte == b'\\' => (Begun::Escape, None),
        Begun::Nothing => (Begun::Nothing, Some(byte)),
        Begun::Escape if byte == b'x' => (Begun::Byte, None),
        Begun::Escape => (Begun::Nothing, Some(escaped(byte))),
        Begun::Byte => (Begun::Half(digit(byte)), None),
        Begun::Half(high) => (Begun::Nothing, Some(high.wrapping_mul(16) | digit(byte))),
    }
}

/// The bytes of a text, with its escapes taken.
fn bytes(alloc: Global, text: &str) -> Result<Vec<u8>, NoMemory> {
    let mut bytes = Vec::new(alloc);
    let mut begun = Begun::Nothing;
    for byte in text.as_bytes() {
        let (after, ended) = next(begun, *byte);
        begun = after;
        if let Some(byte) = ended {
            bytes.push(byte)?;
        }
    }
    Ok(bytes)
}

/// A piece so many times over.
fn times(alloc: Global, count: usize, piece: &[u8]) -> Result<Vec<u8>, NoMemory> {
    let mut all = Vec::new(alloc);
    for _ in 0..count {
        all.extend_from_slice(piece)?;
    }
    Ok(all)
}

/// The piece so many times over that `COUNT PIECE` asks for; without a number, nothing.
fn repeated(alloc: Global, many: &str) -> Result<Vec<u8>, NoMemory> {
    let (count, piece) = many.split_once(' ').unwrap_or(("", ""));
    times(alloc, size(count), &bytes(alloc, piece)?)
}

/// The bytes of a source.
fn source(alloc: Global, text: &str) -> Result<Vec<u8>, NoMemory> {
    match text.strip_prefix("\\*") {
        Some(many) => repeated(alloc, many),
        None => bytes(alloc, text),
    }
}

/// The sources of a line's parts.
fn sources_of(alloc: Global, parts: &[&str]) -> Result<Vec<Vec<u8>>, NoMemory> {
    let mut sources = Vec::new(alloc);
    for part in parts {
        sources.push(source(alloc, part)?)?;
    }
    Ok(sources)
}

/// The sources of a line.
pub fn sources(alloc: Global, line: &str) -> Result<Vec<Vec<u8>>, NoMemory> {
    sources_of(alloc, &parts(alloc, line)?)
}
