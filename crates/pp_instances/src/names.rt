//! Printed names.

ghost use Rattle.std.specs.Prelude.{◌≡◌, ◌++◌, IfOk, map};
ghost use Rattle.std.specs.String.{string_bytes};
ghost use Rattle.pp_instances.specs.Names.{bracketed, decl_name, printed, printed_sort};

use crate::NoMemory;
use crate::member::{Decl, Member};
use pp_list::at;
use pp_text::Name;
use pp_typed::{GenericSort, Typed};
use std::alloc::Global;

/// The most bytes of a printed name; for a longer one there is no memory.
pub const MOST_NAME: usize = 1 << 20;

/// Adds the text, where it leaves the name within its most bytes.
fn push_text(text: &str, out: &mut String) -> Result<(), NoMemory>
    ensures { IfOk result (λ _. string_bytes out.new ≡ string_bytes out.old ++ text.now) }
{
    if text.len() > MOST_NAME.saturating_sub(out.len()) {
        return Err(NoMemory);
    }
    out.push_str(text)
}

/// Adds the name of the declaration.
fn add_decl(typed: &Typed, of: Decl, out: &mut String) -> Result<(), NoMemory>
    ensures { IfOk result (λ _. string_bytes out.new ≡ string_bytes out.old ++ decl_name typed.now of) }
{
    match of {
        Decl::Function(f) => match at(typed.defs.as_slice(), f as usize) {
            None => Ok(()),
            Some(d) => push_text(d.name.as_str(), out),
        },
        Decl::Root(r) => match at(typed.roots.as_slice(), r as usize) {
            None => Ok(()),
            Some(root) => push_text(root.name.as_str(), out),
        },
    }
}

/// Adds the printed name of the sort.
#[cycle(names)]
fn add_sort(typed: &Typed, sort: &GenericSort, out: &mut String) -> Result<(), NoMemory>
    ensures { IfOk result (λ _. string_bytes out.new ≡ string_bytes out.old ++ printed_sort typed.now sort.now) }
{
    match sort {
        GenericSort::Int => push_text("Int", out),
        GenericSort::Bool => push_text("Boolean", out),
        GenericSort::Param(_) => Ok(()),
        GenericSort::Root(r, parts) => {
            add_decl(typed, Decl::Root(*r), out)?;
            add_args(typed, parts.as_slice(), out)?;
            Ok(())
        }
    }
}

/// Adds the printed names of the sorts, in brackets where there are any.
#[cycle(names)]
fn add_args(typed: &Typed, sorts: &[GenericSort], out: &mut String) -> Result<(), NoMemory>
    ensures { IfOk result (λ _. string_bytes out.new ≡ string_bytes out.old
        ++ bracketed (map (printed_sort typed.now) sorts.now)) }
{
    if sorts.is_empty() {
        return Ok(());
    }
    push_text("[", out)?;
    add_sort(typed, &sorts[0], out)?;
    for i in 1..sorts.len() {
        push_text(", ", out)?;
        add_sort(typed, &sorts[i], out)?;
    }
    push_text("]", out)?;
    Ok(())
}

/// The printed name of a member: `name[T, U]`, with types printed as `Int`, `Boolean`, `List[Int]`. The only error is
/// want of memory; there is none for more than `MOST_NAME` bytes.
pub fn printed(alloc: Global, typed: &Typed, member: &Member) -> Result<Name, NoMemory>
    ensures { IfOk result (λ name. name ≡ printed typed.now member.now) }
{
    let mut out = String::new(alloc);
    add_decl(typed, member.of, &mut out)?;
    add_args(typed, member.args.as_slice(), &mut out)?;
    Name::of(alloc, out.as_str())
}
