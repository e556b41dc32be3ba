//! Constraints: what a pattern asks of the value in a column.

ghost use Rattle.std.specs.Prelude.{◌≡◌, ◌+◌, ◌<◌, ◌^◌, ◌++◌, length, OnOk};
ghost use Rattle.pp_cover.specs.Constraint.{constraints, placed, same_head};

use crate::NoMemory;
use pp_list::Items;
use pp_prog::{CtorId, Pattern};
use std::marker::Model;

/// The head of a value: its number, its truth value, or its constructor.
#[derive(Clone, Copy)]
pub(crate) enum Head {
    Int(i32),
    Bool(bool),
    Tree(CtorId),
}

impl Head {
    /// Whether the two are the same.
    pub(crate) fn same(self, other: Head) -> bool
        ensures { result ≡ same_head self other }
    {
        match (self, other) {
            (Head::Int(a), Head::Int(b)) => a == b,
            (Head::Bool(a), Head::Bool(b)) => a == b,
            (Head::Tree(a), Head::Tree(b)) => a.0 == b.0,
            _ => false,
        }
    }
}

/// The patterns of a constructor's fields, which stay where they are.
#[derive(Drop)]
pub(crate) struct Fields<'p> {
    patterns: &'p [Pattern],
}

impl<'p> Model for Fields<'p> {
    ghost use Rattle.std.specs.Prelude.{List};
    ghost use Rattle.std.specs.Coded.{coded_list};
    ghost use Rattle.pp_prog.specs.declared.expr.Pattern.{Pattern};
    ghost use Rattle.pp_prog.specs.contracts.expr.Pattern.{the_row as pattern_row};

    ghost Value = { List Pattern };

    ghost coded = { coded_list pattern_row.coded };

    ghost view = { λ f. f.patterns.now };
}

impl<'p> Fields<'p> {
    /// These patterns.
    pub(crate) fn of(patterns: &'p [Pattern]) -> Fields<'p>
        ensures { result ≡ patterns.now }
    {
        Fields { patterns }
    }

    /// The patterns, in order.
    pub(crate) fn as_slice(&self) -> &'p [Pattern]
        ensures { result.now ≡ self.now }
    {
        self.patterns
    }
}

/// A constraint on the value in a column: its head, and the patterns that its fields are to fit.
#[derive(Drop)]
pub(crate) struct Constraint<'p> {
    pub(crate) column: usize,
    pub(crate) head: Head,
    pub(crate) fields: Fields<'p>,
}

impl<'p> Constraint<'p> {
    /// The constraint of these parts.
    fn of(column: usize, head: Head, fields: &'p [Pattern]) -> Constraint<'p>
        ensures { result ≡ record { column = column; head = head; fields = fields.now } }
    {
        Constraint {
            column,
            head,
            fields: Fields::of(fields),
        }
    }

    /// The same constraint.
    pub(crate) fn copy(&self) -> Constraint<'p>
        ensures { result ≡ self.now }
    {
        Constraint::of(self.column, self.head, self.fields.as_slice())
    }
}

/// Constraints that the values of a row's columns are to satisfy, all of them.
pub(crate) type Row<'p> = Items<Constraint<'p>>;

#[tactic(auto, using(crate::proofs::Constraints::constraint_equations))]
/// Adds what the pattern asks of the value in the column: nothing where it takes every value.
pub(crate) fn push_constraint<'p>(
    row: &mut Row<'p>,
    column: usize,
    pattern: &'p Pattern,
) -> Result<(), NoMemory>
    ensures { OnOk result (row.new ≡ row.old ++ constraints pattern.now column) }
{
    match pattern {
        Pattern::Any => Ok(()),
        Pattern::Bind(inner) => push_constraint(row, column, inner.get()),
        Pattern::Int(n) => row.push(Constraint::of(column, Head::Int(*n), &[])),
        Pattern::Bool(b) => row.push(Constraint::of(column, Head::Bool(*b), &[])),
        Pattern::Ctor(c, fields) => {
            row.push(Constraint::of(column, Head::Tree(*c), fields.as_slice()))
        }
    }
}

/// Adds what the patterns ask of the values in the columns from `first` on.
pub(crate) fn push_constraints<'p>(
    row: &mut Row<'p>,
    first: usize,
    patterns: &'p [Pattern],
) -> Result<(), NoMemory>
    requires { first + length patterns.now < 2 ^ 64 }
    ensures { OnOk result (row.new ≡ row.old ++ placed first patterns.now) }
{
    for i in 0..patterns.len() {
        push_constraint(row, first + i, &patterns[i])?;
    }
    Ok(())
}
