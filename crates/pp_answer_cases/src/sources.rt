//! The sources of a case.

use pp_case_line::NoMemory;
use std::alloc::Global;

/// The byte that an escape stands for.
fn escaped(byte: u8) -> u8 {
    match byte {
        b'n' => b'\n',
        b'r' => b'\r',
        b't' => b'\t',
        b'x' => 255,
        other => other,
    }
}

/// The source that a part of a line has.
fn source(alloc: Global, part: &str) -> Result<Vec<u8>, NoMemory> {
    let mut source = Vec::new(alloc);
    let mut escapes = false;
    for byte in part.as_bytes() {
        if !escapes && *byte == b'\\' {
            escapes = true;
            continue;
        }
        source.push(if escapes { escaped(*byte) } else { *byte })?;
        escapes = false;
    }
    Ok(source)
}

/// The sources that parts of a line have.
fn sources_of(alloc: Global, parts: &[&str]) -> Result<Vec<Vec<u8>>, NoMemory> {
    let mut sources = Vec::new(alloc);
    for part in parts {
        sources.push(source(alloc, part)?)?;
    }
    Ok(sources)
}

/// The sources of a line, with `\s` between.
pub fn sources(alloc: Global, line: &str) -> Result<Vec<Vec<u8>>, NoMemory> {
    let parts: Vec<&str> = line.split("\\s").collect(alloc)?;
    sources_of(alloc, &parts)
}
