//! What follows of sources: each function does nothing, and its contract is the law.

ghost use Rattle.pp_source.specs.Laws.{RefusedSpellNone, UnitsAreUnique};

/// Bytes spell at most one unit. It does nothing: its contract is the law.
pub fn units_are_unique()
    ensures { UnitsAreUnique }
{}

/// A source that is refused spells no unit. It does nothing: its contract is the law.
pub fn refused_spell_none()
    ensures { RefusedSpellNone }
{}
