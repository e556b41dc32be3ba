//! What is read of trees under an assignment, as a line has it.

ghost use Rattle.std.specs.Prelude.{OnOk};
ghost use Rattle.pp_clause.specs.Assignment.{assigned};
ghost use Rattle.pp_domain.specs.Answers.{IsCtorOf};
ghost use Rattle.pp_bounded_samples.specs.Kept.{CanRead, Looked};

use crate::case::spell;
use anyhow::{Context, Result};
use pp_bounded::{Bounded, BoundedTree};
use pp_bounded_samples::looks::{ctor_literal, field_count, is_ctor_of};
use pp_bounded_samples::reading::{is_true, read, read_field};
use pp_case_line::CaseLine;
use pp_clause::Assignment;
use pp_gate::Circuit;
use pp_prog::{CtorId, TypeTable, Value};
use std::alloc::Global;

/// What is read of a tree.
pub fn value_of(
    alloc: Global,
    domain: &Bounded,
    circuit: &Circuit,
    table: &TypeTable,
    a: &Assignment,
    tree: &BoundedTree,
) -> Result<Value>
    requires { CanRead table.now domain.now circuit.now (assigned a.now) tree.now }
{
    read(alloc, domain, circuit, table, a, tree)?.context("no value")
}

/// Adds for each constructor of the tree's datatype whether the tree has it, and behind the one that it has what is
/// read of its fields, each in brackets.
pub fn show_parts(
    alloc: Global,
    domain: &mut Bounded,
    circuit: &mut Circuit,
    table: &TypeTable,
    a: &Assignment,
    tree: &BoundedTree,
    line: &mut CaseLine,
) -> Result<()>
    requires { CanRead table.now domain.old circuit.old (assigned a.now) tree.now }
    ensures { OnOk result (Looked table.now domain.old circuit.old domain.new circuit.new) }
{
    for number in 0..table.ctors.len() {
        let ctor = CtorId(u32::try_from(number)?);
        if is_ctor_of(table, ctor, tree.of) {
            show_ctor(alloc, domain, circuit, table, a, tree, ctor, line)?;
        }
    }
    Ok(())
}

/// Adds whether the tree has the constructor, and then its fields.
fn show_ctor(
    alloc: Global,
    domain: &mut Bounded,
    circuit: &mut Circuit,
    table: &TypeTable,
    a: &Assignment,
    tree: &BoundedTree,
    ctor: CtorId,
    line: &mut CaseLine,
) -> Result<()>
    requires read { CanRead table.now domain.old circuit.old (assigned a.now) tree.now }
    requires ctor { IsCtorOf table.now ctor tree.now.of }
    ensures { OnOk result (Looked table.now domain.old circuit.old domain.new circuit.new) }
{
    let lit = ctor_literal(domain, circuit, table, tree, ctor)?;
    if !is_true(a, lit) {
        line.put(" 0");
        return Ok(());
    }
    line.put(" 1");
    for place in 0..field_count(table, ctor) {
        let field = read_field(alloc, domain, circuit, table, a, tree, ctor, place)?;
        let value = field.context("no field")?;
        line.put(" (");
        spell(line, &value);
        line.put(" )");
    }
    Ok(())
}
