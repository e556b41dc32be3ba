//! From the bytes of a source to the unit that it spells.

use bumpalo::Bump;
use pp_parse::{ParseFault, parse};
use pp_text::{MOST_BYTES, Text};
use pp_tokens::tokens;
use pp_tree::Unit;
use std::alloc::Global;

/// Why bytes spell no unit.
#[derive(Drop)]
pub enum Refused {
    TooLong,
    NoText,
    NoTokens,
    Unspelled(ParseFault),
}

/// The unit of a source.
pub fn unit<'a>(alloc: Global, arena: &'a Bump, source: &[u8]) -> Result<Unit<'a>, Refused> {
    if source.len() > MOST_BYTES {
        return Err(Refused::TooLong);
    }
    match Text::read(alloc, source) {
        Ok(text) => unit_of_text(alloc, arena, &text),
        Err(_) => Err(Refused::NoText),
    }
}

/// The unit of a text.
fn unit_of_text<'a>(alloc: Global, arena: &'a Bump, text: &Text) -> Result<Unit<'a>, Refused> {
    let Ok(tokens) = tokens(alloc, text) else {
        return Err(Refused::NoTokens);
    };
    match parse(alloc, arena, text, &tokens) {
        Ok(unit) => Ok(unit),
        Err(fault) => Err(Refused::Unspelled(fault)),
    }
}

/// The units of sources, where each spells one.
pub fn units<'a>(alloc: Global, arena: &'a Bump, sources: &[Vec<u8>]) -> Option<Vec<Unit<'a>>> {
    let mut units = Vec::new(alloc);
    for source in sources {
        let unit = unit(alloc, arena, source).ok()?;
        units.push(unit).ok()?;
    }
    Some(units)
}
