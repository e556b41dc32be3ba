//! The order of visits: a work list.

ghost use Rattle.std.specs.Prelude.{◌≡◌, ◌*◌, length, OnOk};
ghost use Rattle.pp_inhabited.specs.Laws.{FewTypeParams, IsSound};
ghost use Rattle.pp_inhabited.specs.Settled.{HaveRoots};

use crate::NoMemory;
use crate::visit::visit;
use pp_list::{Items, at};
use pp_typed::{GenericSort, TypedCtor, TypedRoot};
use std::alloc::Global;

/// Visits each constructor, and again those whose fields name a root whenever a row of that root was written. The only
/// error is want of memory.
pub(crate) fn visit_in_order(
    alloc: Global,
    roots: &[TypedRoot],
    ctors: &[TypedCtor],
    rows: &mut Items<bool>,
) -> Result<(), NoMemory>
    requires few { FewTypeParams roots.now }
    requires owners { HaveRoots roots.now ctors.now }
    requires size { length rows.old ≡ 16 * length roots.now }
    requires sound { IsSound roots.now ctors.now rows.old }
    ensures size { OnOk result (length rows.new ≡ 16 * length roots.now) }
    ensures sound { OnOk result (IsSound roots.now ctors.now rows.new) }
{
    let users = users_of(alloc, roots.len(), ctors)?;
    let mut waiting = Vec::new(alloc);
    for c in 0..ctors.len() {
        waiting.push(c)?;
    }
    for _ in 0..usize::MAX {
        match waiting.pop() {
            Some(c) => visit_next(roots, ctors, rows, users.as_slice(), &mut waiting, c)?,
            None => break,
        }
    }
    Ok(())
}

/// Visits a constructor; where it wrote a row, its root's users wait to be visited.
fn visit_next(
    roots: &[TypedRoot],
    ctors: &[TypedCtor],
    rows: &mut Items<bool>,
    users: &[Vec<usize>],
    waiting: &mut Vec<usize>,
    c: usize,
) -> Result<(), NoMemory>
    requires few { FewTypeParams roots.now }
    requires owners { HaveRoots roots.now ctors.now }
    requires size { length rows.old ≡ 16 * length roots.now }
    requires sound { IsSound roots.now ctors.now rows.old }
    ensures size { length rows.new ≡ length rows.old }
    ensures sound { IsSound roots.now ctors.now rows.new }
{
    if c < ctors.len() && visit(roots, ctors, rows, c) {
        wait_for(users, ctors[c].root as usize, waiting)?;
    }
    Ok(())
}

/// Adds the users of a root to those that wait.
fn wait_for(users: &[Vec<usize>], root: usize, waiting: &mut Vec<usize>) -> Result<(), NoMemory> {
    match at(users, root) {
        Some(list) => {
            for c in list.as_slice() {
                waiting.push(*c)?;
            }
            Ok(())
        }
        None => Ok(()),
    }
}

/// For each root the constructors whose fields name it. The only error is want of memory.
fn users_of(alloc: Global, roots: usize, ctors: &[TypedCtor]) -> Result<Vec<Vec<usize>>, NoMemory> {
    let mut users = Vec::new(alloc);
    for _ in 0..roots {
        users.push(Vec::new(alloc))?;
    }
    for c in 0..ctors.len() {
        for field in ctors[c].fields.as_slice() {
            note_roots(&mut users, c, field)?;
        }
    }
    Ok(users)
}

/// Notes a constructor as a user of each root that a sort names.
fn note_roots(users: &mut Vec<Vec<usize>>, c: usize, sort: &GenericSort) -> Result<(), NoMemory> {
    match sort {
        GenericSort::Int | GenericSort::Bool | GenericSort::Param(_) => Ok(()),
        GenericSort::Root(root, parts) => {
            note(users, c, *root as usize)?;
            for part in parts.as_slice() {
                note_roots(users, c, part)?;
            }
            Ok(())
        }
    }
}

/// Notes a constructor as a user of a root.
fn note(users: &mut Vec<Vec<usize>>, c: usize, root: usize) -> Result<(), NoMemory> {
    if root < users.len() {
        users[root].push(c)?;
    }
    Ok(())
}
