//! The constructors of all units.

ghost use Rattle.std.specs.Prelude.{◌≡◌, ◌<◌, ◌^◌, [], count_by, length, map, nat_eq, IfOk};
ghost use Rattle.pp_declared.specs.Declare.{ctor_of_root, ctors_after, next_ctor};
ghost use Rattle.pp_declared.specs.Declares.{field_names, param_types};
ghost use Rattle.pp_declared.specs.Shown.{AreFew, class_in, class_ins};
ghost use Rattle.pp_declared.specs.WellFormed.{most_ctors, param_names};
ghost use Rattle.pp_fault.specs.Part.{Tells};
ghost use Rattle.pp_names.specs.Find.{owners_of};
ghost use Rattle.pp_sorts.specs.SortOf.{sorts_from};
ghost use Rattle.pp_sorts.specs.Words.{words_of};
ghost use Rattle.pp_tree.specs.Shown.{param_of};

use crate::counted::CountedCtors;
use crate::roots::{Roots, owner_of};
use crate::{ClassAt, NoMemory};
use pp_fault::{Halt, Rule, broken};
use pp_list::Items;
use pp_sorts::{TypeScope, sort_of};
use pp_text::Name;
use pp_tree::Param;
use pp_typed::{FieldNames, GenericSorts, TypedCtor, TypedCtors};
use std::alloc::Global;

/// The sorts of parameters or fields. It refuses the first type that is refused.
pub(crate) fn param_sorts(
    alloc: Global,
    scope: &TypeScope,
    params: &[Param],
) -> Result<GenericSorts, Halt>
    ensures { Tells result
        (sorts_from scope.now.roots.now (words_of scope.now.params.now) scope.now.source []
        (param_types (map param_of params.now))) }
{
    let mut sorts = Items::new(alloc);
    for param in params {
        sorts.push(sort_of(alloc, scope, &param.of)?)?;
    }
    Ok(sorts)
}

/// The constructors that classes declare. It refuses what a constructor extends, the 65th constructor of a root, and
/// the types of fields.
pub(crate) fn all_ctors(
    alloc: Global,
    roots: &Roots,
    classes: &[ClassAt],
) -> Result<TypedCtors, Halt>
    requires { AreFew (class_ins classes.now) }
    ensures { Tells result (ctors_after (class_ins roots.now.classes.now) [] (class_ins classes.now)) }
{
    let mut counted = CountedCtors::new(alloc, roots.classes.len())?;
    for i in 0..classes.len() {
        let ctor = next_ctor(alloc, roots, &counted, &classes[i])?;
        counted.push(ctor)?;
    }
    Ok(counted.ctors)
}

/// The constructor that a class declares, after others.
fn next_ctor(
    alloc: Global,
    roots: &Roots,
    before: &CountedCtors,
    c: &ClassAt,
) -> Result<TypedCtor, Halt>
    requires few { length (class_in c.now).class.params < 2 ^ 32 }
    requires roots { before.now.roots ≡ length roots.now.classes.now }
    ensures told { Tells result (next_ctor (class_ins roots.now.classes.now) before.now.ctors (class_in c.now)) }
    ensures root { IfOk result (λ t. t.root < before.now.roots) }
    ensures room { IfOk result (λ t. count_by (nat_eq t.root) (owners_of before.now.ctors) < most_ctors) }
{
    let root = owner_of(alloc, roots, c)?;
    if !before.has_room(root) {
        return broken(alloc, Rule::OverLimit, c.class.name, c.source, c.class.at);
    }
    typed_ctor(alloc, roots, c, root)
}

/// The constructor that a class declares, of this root.
fn typed_ctor(alloc: Global, roots: &Roots, c: &ClassAt, root: u32) -> Result<TypedCtor, Halt>
    requires few { length (class_in c.now).class.params < 2 ^ 32 }
    ensures told { Tells result (ctor_of_root (class_ins roots.now.classes.now) (class_in c.now) root) }
    ensures root { IfOk result (λ t. t.root ≡ root) }
{
    let scope = roots.scope(c.class.params, c.source);
    let fields = param_sorts(alloc, &scope, c.class.fields)?;
    Ok(TypedCtor {
        name: Name::of(alloc, c.class.name)?,
        root,
        fields,
        object: c.class.object,
    })
}

/// The names of the fields of each constructor. The only error is want of memory.
pub(crate) fn all_field_names(
    alloc: Global,
    classes: &[ClassAt],
) -> Result<Items<FieldNames>, NoMemory>
    ensures { IfOk result (λ names. names ≡ map field_names (class_ins classes.now)) }
{
    let mut all = Items::new(alloc);
    for c in classes {
        all.push(names_of(alloc, c.class.fields)?)?;
    }
    Ok(all)
}

/// The names of parameters or fields. The only error is want of memory.
fn names_of(alloc: Global, params: &[Param]) -> Result<FieldNames, NoMemory>
    ensures { IfOk result (λ names. names ≡ param_names (map param_of params.now)) }
{
    let mut names = Items::new(alloc);
    for param in params {
        names.push(Name::of(alloc, param.name)?)?;
    }
    Ok(names)
}
