//! The declarations of all units in program order.

ghost use Rattle.std.specs.Prelude.{◌≡◌, ◌<◌, ◌^◌, ◌++◌, length, map, IfOk, OnOk};
ghost use Rattle.pp_declared.specs.Listed.{ctor_of, ctors_of, decl_in, decls_in, def_of, defs_of, root_of, roots_of};
ghost use Rattle.pp_declared.specs.Shown.{class_ins, decl_ins, def_ins, units_of};
ghost use Rattle.pp_tree.specs.Shown.{decl_of, unit_of};

use crate::NoMemory;
use pp_list::Items;
use pp_tree::{ClassDecl, Decl, DefDecl, Unit};
use std::alloc::Global;

/// A declaration, with the number of its source from 1.
#[derive(Clone, Copy)]
pub struct DeclAt<'a> {
    pub source: u32,
    pub decl: Decl<'a>,
}

/// A class, a trait or a case object, with the number of its source from 1, and whether it is a sealed root.
#[derive(Clone, Copy)]
pub struct ClassAt<'a> {
    pub source: u32,
    pub sealed: bool,
    pub class: ClassDecl<'a>,
}

/// A function, with the number of its source from 1.
#[derive(Clone, Copy)]
pub struct DefAt<'a> {
    pub source: u32,
    pub def: DefDecl<'a>,
}

/// All declarations of units. The only error is want of memory.
pub(crate) fn decls_of<'a>(alloc: Global, units: &[Unit<'a>]) -> Result<Items<DeclAt<'a>>, NoMemory>
    requires { length units.now < 2 ^ 32 }
    ensures { IfOk result (λ ds. decl_ins ds ≡ decls_in (units_of units.now)) }
{
    let mut decls = Items::new(alloc);
    for i in 0..units.len() {
        push_unit(&mut decls, i as u32 + 1, &units[i])?;
    }
    Ok(decls)
}

/// Adds the declarations of a unit.
fn push_unit<'a>(
    decls: &mut Items<DeclAt<'a>>,
    source: u32,
    unit: &Unit<'a>,
) -> Result<(), NoMemory>
    ensures { OnOk result (decl_ins decls.new ≡ decl_ins decls.old ++ map (decl_in source) (unit_of unit.now).decls) }
{
    for decl in unit.decls {
        decls.push(DeclAt {
            source,
            decl: *decl,
        })?;
    }
    Ok(())
}

/// The roots: sealed classes and traits, and case classes without a parent. The only error is want of memory.
pub(crate) fn roots_of<'a>(
    alloc: Global,
    decls: &[DeclAt<'a>],
) -> Result<Items<ClassAt<'a>>, NoMemory>
    ensures { IfOk result (λ cs. class_ins cs ≡ roots_of (decl_ins decls.now)) }
{
    let mut roots = Items::new(alloc);
    for decl in decls {
        push_root(&mut roots, decl)?;
    }
    Ok(roots)
}

/// Adds the root that a declaration is, if it is one.
fn push_root<'a>(roots: &mut Items<ClassAt<'a>>, decl: &DeclAt<'a>) -> Result<(), NoMemory>
    ensures { OnOk result
        (class_ins roots.new ≡ class_ins roots.old ++ root_of decl.now.source (decl_of decl.now.decl)) }
{
    let source = decl.source;
    match decl.decl {
        Decl::Root(class) => roots.push(ClassAt {
            source,
            sealed: true,
            class,
        }),
        Decl::Ctor(class) => {
            if class.parent.is_none() {
                roots.push(ClassAt {
                    source,
                    sealed: false,
                    class,
                })?;
            }
            Ok(())
        }
        Decl::Other(_) | Decl::Def(_) => Ok(()),
    }
}

/// The constructors: case classes and case objects. The only error is want of memory.
pub(crate) fn ctors_of<'a>(
    alloc: Global,
    decls: &[DeclAt<'a>],
) -> Result<Items<ClassAt<'a>>, NoMemory>
    ensures { IfOk result (λ cs. class_ins cs ≡ ctors_of (decl_ins decls.now)) }
{
    let mut ctors = Items::new(alloc);
    for decl in decls {
        push_ctor(&mut ctors, decl)?;
    }
    Ok(ctors)
}

/// Adds the constructor that a declaration is, if it is one.
fn push_ctor<'a>(ctors: &mut Items<ClassAt<'a>>, decl: &DeclAt<'a>) -> Result<(), NoMemory>
    ensures { OnOk result
        (class_ins ctors.new ≡ class_ins ctors.old ++ ctor_of decl.now.source (decl_of decl.now.decl)) }
{
    match decl.decl {
        Decl::Ctor(class) => ctors.push(ClassAt {
            source: decl.source,
            sealed: false,
            class,
        }),
        Decl::Root(_) | Decl::Other(_) | Decl::Def(_) => Ok(()),
    }
}

/// The functions. The only error is want of memory.
pub(crate) fn defs_of<'a>(alloc: Global, decls: &[DeclAt<'a>]) -> Result<Items<DefAt<'a>>, NoMemory>
    ensures { IfOk result (λ ds. def_ins ds ≡ defs_of (decl_ins decls.now)) }
{
    let mut defs = Items::new(alloc);
    for decl in decls {
        push_def(&mut defs, decl)?;
    }
    Ok(defs)
}

/// Adds the function that a declaration is, if it is one.
fn push_def<'a>(defs: &mut Items<DefAt<'a>>, decl: &DeclAt<'a>) -> Result<(), NoMemory>
    ensures { OnOk result (def_ins defs.new ≡ def_ins defs.old ++ def_of decl.now.source (decl_of decl.now.decl)) }
{
    match decl.decl {
        Decl::Def(def) => defs.push(DefAt {
            source: decl.source,
            def,
        }),
        Decl::Root(_) | Decl::Ctor(_) | Decl::Other(_) => Ok(()),
    }
}
