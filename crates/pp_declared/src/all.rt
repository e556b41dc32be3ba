//! What all units declare.

ghost use Rattle.std.specs.Prelude.{◌≡◌, ◌<◌, ◌^◌, length, map, IfOk};
ghost use Rattle.pp_declared.specs.Declare.{declare, of_decls, with_names, with_sorts};
ghost use Rattle.pp_declared.specs.Declares.{class_names, def_names, typed_root};
ghost use Rattle.pp_declared.specs.Listed.{decls_in, defs_of, roots_of};
ghost use Rattle.pp_declared.specs.Shown.{AreFew, AreFewOfDefs, class_ins, decl_ins, def_ins, units_of};
ghost use Rattle.pp_fault.specs.Part.{Tells};

use crate::ctors::{all_ctors, all_field_names};
use crate::imports::check_imports;
use crate::listed::{ctors_of, decls_of, defs_of, roots_of};
use crate::roots::Roots;
use crate::signatures::all_signatures;
use crate::tables::{class_table, def_table};
use crate::well_formed::check_each;
use crate::{ClassAt, DeclAt, DefAt, NoMemory};
use pp_fault::Halt;
use pp_list::Items;
use pp_names::{NameTable, Names, Spaces};
use pp_text::Name;
use pp_tree::Unit;
use pp_typed::{Declared, TypedRoot, TypedRoots};
use std::alloc::Global;

/// What units declare, whose sources are numbered from 1. It refuses an import of what is no object, a declaration that
/// isn't well formed by itself, a name that is declared twice in its space, and constructors and functions whose roots,
/// types or numbers break a rule; `specs/Fault.antt` says which rule with which name at which place.
pub fn declare(alloc: Global, units: &[Unit]) -> Result<Names, Halt>
    requires { length units.now < 2 ^ 32 }
    ensures { Tells result (declare (units_of units.now)) }
{
    check_imports(alloc, units)?;
    let decls = decls_of(alloc, units)?;
    of_decls(alloc, decls.as_slice())
}

/// The classes of all roots, in the order of their numbers. The only error is want of memory.
pub fn root_classes<'a>(alloc: Global, units: &[Unit<'a>]) -> Result<Items<ClassAt<'a>>, NoMemory>
    requires { length units.now < 2 ^ 32 }
    ensures { IfOk result (λ cs. class_ins cs ≡ roots_of (decls_in (units_of units.now))) }
{
    let decls = decls_of(alloc, units)?;
    roots_of(alloc, decls.as_slice())
}

/// The definitions of all functions, in the order of their numbers. The only error is want of memory.
pub fn definitions<'a>(alloc: Global, units: &[Unit<'a>]) -> Result<Items<DefAt<'a>>, NoMemory>
    requires { length units.now < 2 ^ 32 }
    ensures { IfOk result (λ ds. def_ins ds ≡ defs_of (decls_in (units_of units.now))) }
{
    let decls = decls_of(alloc, units)?;
    defs_of(alloc, decls.as_slice())
}

#[tactic(auto, using(crate::proofs::Known::few_roots, crate::proofs::Known::few_ctors, crate::proofs::Known::few_defs))]
fn of_decls(alloc: Global, decls: &[DeclAt]) -> Result<Names, Halt>
    ensures { Tells result (of_decls (decl_ins decls.now)) }
{
    check_each(alloc, decls)?;
    let roots = roots_of(alloc, decls)?;
    let ctors = ctors_of(alloc, decls)?;
    let defs = defs_of(alloc, decls)?;
    with_names(alloc, roots.as_slice(), ctors.as_slice(), defs.as_slice())
}

fn with_names(
    alloc: Global,
    roots: &[ClassAt],
    ctors: &[ClassAt],
    defs: &[DefAt],
) -> Result<Names, Halt>
    requires few_roots { AreFew (class_ins roots.now) }
    requires few_ctors { AreFew (class_ins ctors.now) }
    requires few_defs { AreFewOfDefs (def_ins defs.now) }
    ensures { Tells result (with_names (class_ins roots.now) (class_ins ctors.now) (def_ins defs.now)) }
{
    let root_names = class_table(alloc, roots)?;
    let ctor_names = class_table(alloc, ctors)?;
    let def_names = def_table(alloc, defs)?;
    let spaces = Spaces {
        roots: root_names,
        ctors: ctor_names,
        functions: def_names,
    };
    with_sorts(alloc, roots, ctors, defs, spaces)
}

fn with_sorts(
    alloc: Global,
    roots: &[ClassAt],
    ctors: &[ClassAt],
    defs: &[DefAt],
    spaces: Spaces,
) -> Result<Names, Halt>
    requires few_roots { AreFew (class_ins roots.now) }
    requires few_ctors { AreFew (class_ins ctors.now) }
    requires few_defs { AreFewOfDefs (def_ins defs.now) }
    requires roots { spaces.roots ≡ class_names (class_ins roots.now) }
    requires ctors { spaces.ctors ≡ class_names (class_ins ctors.now) }
    requires functions { spaces.functions ≡ def_names (def_ins defs.now) }
    ensures { Tells result (with_sorts (class_ins roots.now) (class_ins ctors.now) (def_ins defs.now)) }
{
    let declared = declared_of(alloc, roots, &spaces.roots, ctors, defs)?;
    let names = Names::of(alloc, declared, spaces)?;
    Ok(names)
}

fn declared_of(
    alloc: Global,
    roots: &[ClassAt],
    names: &NameTable,
    ctors: &[ClassAt],
    defs: &[DefAt],
) -> Result<Declared, Halt>
    requires few_roots { AreFew (class_ins roots.now) }
    requires few_ctors { AreFew (class_ins ctors.now) }
    requires few_defs { AreFewOfDefs (def_ins defs.now) }
    requires names { names.now ≡ class_names (class_ins roots.now) }
    ensures { Tells result (with_sorts (class_ins roots.now) (class_ins ctors.now) (def_ins defs.now)) }
{
    let typed = typed_roots(alloc, roots)?;
    let known = Roots {
        classes: roots,
        typed: typed.as_slice(),
        names,
    };
    let typed_ctors = all_ctors(alloc, &known, ctors)?;
    let functions = all_signatures(alloc, &known, defs)?;
    let field_names = all_field_names(alloc, ctors)?;
    Ok(Declared {
        roots: typed,
        ctors: typed_ctors,
        field_names,
        functions,
    })
}

/// The roots that classes declare. The only error is want of memory.
fn typed_roots(alloc: Global, classes: &[ClassAt]) -> Result<TypedRoots, NoMemory>
    requires { AreFew (class_ins classes.now) }
    ensures { IfOk result (λ roots. roots ≡ map typed_root (class_ins classes.now)) }
{
    let mut roots = Items::new(alloc);
    for i in 0..classes.len() {
        let class = &classes[i].class;
        roots.push(TypedRoot {
            name: Name::of(alloc, class.name)?,
            type_params: count(class.params),
        })?;
    }
    Ok(roots)
}

/// The number of names.
fn count(names: &[&str]) -> u32
    requires { length names.now < 2 ^ 32 }
    ensures { result ≡ length names.now }
{
    names.len() as u32
}
