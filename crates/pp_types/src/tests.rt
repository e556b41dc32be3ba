//! What no source tells: a typing behind its arena, and a name that no source spells.

use super::*;
use bumpalo::Bump;
use pp_tree::Unit;
use pp_tree_build::{DefParts, def, int, type_text};
use std::alloc::{AllocError, Global};
use std::test::Fail;

/// A unit with the function `def NAME(): SORT = 1`.
fn one<'a>(arena: &'a Bump, name: &'a str, sort: &'a str) -> Result<Unit<'a>, AllocError> {
    let result = type_text(arena, 11, sort, &[])?;
    let body = int(arena, 21, 1)?;
    let parts = DefParts {
        at: 4,
        name,
        type_params: &[],
        params: &[],
        list: true,
        result,
        pre: &[],
        measure: &[],
        body,
        post: None,
    };
    let decls = arena.try_alloc_slice_copy(&[def(arena, &parts)?.tree])?;
    Ok(Unit {
        imports: &[],
        objects: &[],
        decls,
    })
}

#[test]
fn a_typing_outlives_the_arena_of_its_unit(rt: HostRuntime) -> Result<(), Fail> {
    let alloc = rt.alloc();
    let mut arena = Bump::new(alloc);
    let unit = one(&arena, "one", "Int")?;
    let typed = check(alloc, &[unit]);
    arena.reset()?;
    match &typed {
        Ok(typed) => assert_eq!(rt; typed.defs.as_slice().len(), 1usize),
        Err(_) => assert!(rt; false),
    }
    Ok(())
}

#[test]
fn a_name_with_a_mark_of_printed_types_cannot_be_declared(rt: HostRuntime) -> Result<(), Fail> {
    let alloc = rt.alloc();
    let arena = Bump::new(alloc);
    let unit = one(&arena, "one[Int]", "Int")?;
    let refused = check(alloc, &[unit]);
    match &refused {
        Err(TypeFault::Duplicate { name, .. }) => assert_eq!(rt; name.as_str(), "one[Int]"),
        _ => assert!(rt; false),
    }
    Ok(())
}
