//! Reading all sources.

ghost use Rattle.std.specs.Prelude.{◌≡◌, ◌+◌, ◌<◌, ◌≤◌, ◌^◌, ◌++◌, ◌∷◌, [], All, IfErr, IfOk, ℕ, List, length, map};
ghost use Rattle.pp_declared.specs.Shown.{units_of};
ghost use Rattle.pp_front.specs.Programs.{IsShort, SpellUnits, SpellsNext, bytes_of};
ghost use Rattle.pp_front.specs.Refuses.{SpellsNone};
ghost use Rattle.pp_source.specs.Refuses as source;
ghost use Rattle.pp_source.specs.Told.{OnLine};
ghost use Rattle.pp_tree.specs.Shown.{unit_of};
ghost use Rattle.pp_text.specs.Limits.{most_bytes};

use crate::NoMemory;
use bumpalo::Bump;
use pp_source::{Refusal, Source, read};
use pp_text::Text;
use pp_tree::Unit;
use std::alloc::Global;

/// Keeps a source behind those that are read.
fn keep<'a>(
    source: Source<'a>,
    texts: &mut Vec<Text>,
    units: &mut Vec<Unit<'a>>,
) -> Result<(), NoMemory>
    ensures text { IfOk result (λ _. texts.new.items ≡ texts.old.items ++ source.entry.text ∷ []) }
    ensures unit { IfOk result (λ _. units_of units.new.items
        ≡ units_of units.old.items ++ unit_of source.entry.unit ∷ []) }
{
    let Source { text, unit } = source;
    texts.push(text)?;
    units.push(unit)?;
    Ok(())
}

/// Reads one source behind those that are read.
fn add_source<'a>(
    alloc: Global,
    arena: &'a Bump,
    bytes: &[u8],
    texts: &mut Vec<Text>,
    units: &mut Vec<Unit<'a>>,
) -> Result<(), Refusal>
    requires short { length bytes.now ≤ most_bytes }
    requires few { length texts.old.items < 2 ^ 31 }
    ensures text { IfOk result (λ _. texts.new.items ≡ texts.old.items ++ bytes.now ∷ []) }
    ensures unit { IfOk result (λ _. SpellsNext bytes.now (units_of units.old.items) (units_of units.new.items)) }
    ensures refused { IfErr result (λ refusal. OnLine refusal (source.Refuses (length texts.old.items + 1) bytes.now)) }
{
    let source = read(alloc, arena, bytes, texts.len() as u32 + 1)?;
    keep(source, texts, units)?;
    Ok(())
}

/// Reads the sources in their order, each as a text and as the unit that it spells, which lies in the arena. The lists
/// are empty before.
///
/// # Errors
/// `Line` with the line that refuses the first source that spells no unit. `Memory` for want of memory. The lists then
/// hold what was read before.
pub(crate) fn read_all<'a>(
    alloc: Global,
    arena: &'a Bump,
    sources: &[Vec<u8>],
    texts: &mut Vec<Text>,
    units: &mut Vec<Unit<'a>>,
) -> Result<(), Refusal>
    requires short { All IsShort sources.now }
    requires few { length sources.now < 2 ^ 31 }
    requires none { (texts.old.items ≡ []) × (units.old.items ≡ []) }
    ensures texts { IfOk result (λ _. texts.new.items ≡ map bytes_of sources.now) }
    ensures units { IfOk result (λ _. SpellUnits (map bytes_of sources.now) (units_of units.new.items)) }
    ensures refused { IfErr result (λ refusal. OnLine refusal (SpellsNone (map bytes_of sources.now))) }
{
    for bytes in sources {
        match add_source(alloc, arena, bytes, texts, units) {
            Ok(()) => {}
            Err(refusal) => return Err(refusal),
        }
    }
    Ok(())
}
