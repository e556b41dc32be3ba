//! Laws of values. Each is a function that does nothing.

ghost use Rattle.pp_inhabited.specs.Laws.{ClosedTablesAreExact};

/// A table that is sound and closed says exactly which roots have a value.
pub fn closed_tables_are_exact()
    ensures { ClosedTablesAreExact }
{}
