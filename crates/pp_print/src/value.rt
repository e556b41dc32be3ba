//! How values print.

ghost use Rattle.std.specs.Prelude.{◌≡◌, ◌+◌, ◌*◌, ◌++◌, List, OnOk, slice_get, string_bytes, map};
ghost use Rattle.pp_prog.specs.declared.types.Ctor.{Ctor};
ghost use Rattle.pp_print.specs.Values.{argument_text, arguments_text, in_brackets, tree_text, value_text};
ghost use Rattle.pp_print.specs.Pending.{AddsFields, Prints, piece_text, sizes, work};
ghost use Rattle.pp_store.specs.Sizes.{size};

use pp_list::Items;
use pp_prog::{Ctor, Param, Value};
use pp_text::NoMemory;
use std::alloc::Global;

/// What is left to print of a value.
#[derive(Clone, Copy)]
pub(crate) enum Piece<'v> {
    /// A value.
    First(&'v Value),
    /// A value behind a comma.
    Next(&'v Value),
    /// The bracket behind the last field.
    Close,
}

/// Adds the text of a value: a decimal number, `true`, `false`, `Cons(3, Nil())`, or the bare name of a case object. It
/// keeps a list of what is left to print, so the value may be of any height.
pub(crate) fn push_value(
    alloc: Global,
    out: &mut String,
    ctors: &[Ctor],
    value: &Value,
) -> Result<(), NoMemory>
    ensures { OnOk result (string_bytes out.new ≡ string_bytes out.old ++ value_text ctors.now value.now) }
{
    let mut pending = Items::new(alloc);
    pending.push(Piece::First(value))?;
    while let Some(piece) = pending.pop() {
        push_piece(out, &mut pending, ctors, piece)?;
    }
    Ok(())
}

/// Adds the text of a piece, but for what is pending.
fn push_piece<'v>(
    out: &mut String,
    pending: &mut Items<Piece<'v>>,
    ctors: &[Ctor],
    piece: Piece<'v>,
) -> Result<(), NoMemory>
    ensures { OnOk result (Prints ctors.now (piece_text ctors.now piece.entry) (work piece.entry) pending.old
        pending.new (string_bytes out.old) (string_bytes out.new)) }
{
    match piece {
        Piece::First(value) => push_front(out, pending, ctors, value),
        Piece::Next(value) => {
            out.push_str(", ")?;
            push_front(out, pending, ctors, value)
        }
        Piece::Close => out.push_str(")"),
    }
}

/// Adds the text of a value, but for what is pending.
fn push_front<'v>(
    out: &mut String,
    pending: &mut Items<Piece<'v>>,
    ctors: &[Ctor],
    value: &'v Value,
) -> Result<(), NoMemory>
    ensures { OnOk result (Prints ctors.now (value_text ctors.now value.now) (2 * size value.now) pending.old
        pending.new (string_bytes out.old) (string_bytes out.new)) }
{
    match value {
        Value::Int(n) => {
            let n = *n;
            write!(out, "{n}")
        }
        Value::Bool(true) => out.push_str("true"),
        Value::Bool(false) => out.push_str("false"),
        Value::Tree(ctor, fields) => push_tree(out, pending, ctors, ctor.0, fields.as_slice()),
    }
}

/// Adds the text of a constructor with its fields, but for what is pending.
fn push_tree<'v>(
    out: &mut String,
    pending: &mut Items<Piece<'v>>,
    ctors: &[Ctor],
    ctor: u32,
    fields: &'v [Value],
) -> Result<(), NoMemory>
    ensures { OnOk result (Prints ctors.now
        (tree_text (slice_get ctors.now ctor) (map (value_text ctors.now) fields.now)) (2 * sizes fields.now + 2)
        pending.old pending.new (string_bytes out.old) (string_bytes out.new)) }
{
    match ctors.get(ctor as usize) {
        Some(ctor) => {
            out.push_str(ctor.name.as_str())?;
            if ctor.object {
                return Ok(());
            }
            push_brackets(out, pending, fields)
        }
        None => push_brackets(out, pending, fields),
    }
}

/// Adds the fields of a tree in brackets, but for what is pending.
fn push_brackets<'v>(
    out: &mut String,
    pending: &mut Items<Piece<'v>>,
    fields: &'v [Value],
) -> Result<(), NoMemory>
    ensures { OnOk result ((ctors : List Ctor) → Prints ctors (in_brackets (map (value_text ctors) fields.now))
        (2 * sizes fields.now + 2) pending.old pending.new (string_bytes out.old) (string_bytes out.new)) }
{
    out.push_str("(")?;
    add_fields(pending, fields)?;
    Ok(())
}

/// Adds the fields of a tree to what is pending, the first on top, and the bracket below them.
fn add_fields<'v>(pending: &mut Items<Piece<'v>>, fields: &'v [Value]) -> Result<(), NoMemory>
    ensures { OnOk result (AddsFields pending.old pending.new fields.now) }
{
    pending.push(Piece::Close)?;
    if let [first, rest @ ..] = fields {
        for i in (0..rest.len()).rev() {
            pending.push(Piece::Next(&rest[i]))?;
        }
        pending.push(Piece::First(first))?;
    }
    Ok(())
}

/// Adds `, x = V`.
fn push_argument(
    alloc: Global,
    out: &mut String,
    ctors: &[Ctor],
    param: &Param,
    value: &Value,
) -> Result<(), NoMemory>
    ensures { OnOk result (string_bytes out.new ≡ string_bytes out.old ++ argument_text ctors.now
        (param.now, value.now)) }
{
    let name = param.name.as_str();
    write!(out, ", {name} = ")?;
    push_value(alloc, out, ctors, value)
}

/// Adds `, x = V, y = W`: each parameter with its value, in order.
pub(crate) fn push_arguments(
    alloc: Global,
    out: &mut String,
    ctors: &[Ctor],
    params: &[Param],
    values: &[Value],
) -> Result<(), NoMemory>
    ensures { OnOk result (string_bytes out.new ≡ string_bytes out.old ++ arguments_text ctors.now params.now
        values.now) }
{
    for (param, value) in params.iter().zip(values) {
        push_argument(alloc, out, ctors, param, value)?;
    }
    Ok(())
}
