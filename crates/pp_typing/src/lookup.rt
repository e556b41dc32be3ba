//! What names, applications and fields stand for.

ghost use Rattle.std.specs.Prelude.{◌≡◌, IfOk, option_copied};
ghost use Rattle.pp_names.specs.Places.{place_of};
ghost use Rattle.pp_rules.specs.Shapes.{application, applied_by, bare_function, case_object, ctor_at, field_place};
ghost use Rattle.pp_rules.specs.Shapes.{field_sort, function_at, is_bare_function, is_object, named_by, only_ctor};
ghost use Rattle.pp_rules.specs.Shapes.{own_params, the_only};

use pp_generic::{NoMemory, copies, copy};
use pp_list::{Items, at};
use pp_names::Names;
use pp_rules::{Callee, Target};
use pp_text::Name;
use pp_typed::{Declared, GenericSort, GenericSorts, TypedExprs, TypedKind};
use std::alloc::Global;

/// The application of a target to type arguments and arguments.
pub(crate) fn application(target: Target, sorts: GenericSorts, args: TypedExprs) -> TypedKind
    ensures { result ≡ application target sorts args }
{
    match target {
        Target::Function(i) => TypedKind::Call(i, sorts, args),
        Target::Ctor(i) => TypedKind::Construct(i, sorts, args),
    }
}

/// The first parameters of a declaration, as sorts. The only error is want of memory.
fn own_params(alloc: Global, count: u32) -> Result<GenericSorts, NoMemory>
    ensures { IfOk result (λ ss. ss ≡ own_params count) }
{
    let mut params = Items::new(alloc);
    for i in 0..count {
        params.push(GenericSort::Param(i))?;
    }
    Ok(params)
}

/// The function at this place. The only error is want of memory.
fn function_at(
    alloc: Global,
    declared: &Declared,
    place: Option<u32>,
) -> Result<Option<Callee>, NoMemory>
    ensures { IfOk result (λ c. c ≡ function_at declared.now place) }
{
    let Some(i) = place else {
        return Ok(None);
    };
    match at(declared.functions.as_slice(), i as usize) {
        None => Ok(None),
        Some(function) => {
            let params = copies(alloc, function.params.as_slice())?;
            let result = copy(alloc, &function.result)?;
            Ok(Some(Callee {
                target: Target::Function(i),
                type_params: function.type_params,
                params,
                result,
            }))
        }
    }
}

/// The constructor at this place. The only error is want of memory.
fn ctor_at(
    alloc: Global,
    declared: &Declared,
    place: Option<u32>,
) -> Result<Option<Callee>, NoMemory>
    ensures { IfOk result (λ c. c ≡ ctor_at declared.now place) }
{
    let Some(i) = place else {
        return Ok(None);
    };
    let Some(ctor) = at(declared.ctors.as_slice(), i as usize) else {
        return Ok(None);
    };
    match at(declared.roots.as_slice(), ctor.root as usize) {
        None => Ok(None),
        Some(root) => {
            let params = copies(alloc, ctor.fields.as_slice())?;
            let args = own_params(alloc, root.type_params)?;
            Ok(Some(Callee {
                target: Target::Ctor(i),
                type_params: root.type_params,
                params,
                result: GenericSort::Root(ctor.root, args),
            }))
        }
    }
}

/// The place of a function, where it has no parameter list.
fn bare_function(declared: &Declared, place: Option<u32>) -> Option<u32>
    ensures { result ≡ bare_function declared.now place }
{
    let i = place?;
    match at(declared.functions.as_slice(), i as usize) {
        Some(function) if !function.list => Some(i),
        _ => None,
    }
}

/// The place of a constructor, where it is a case object.
fn case_object(declared: &Declared, place: Option<u32>) -> Option<u32>
    ensures { result ≡ case_object declared.now place }
{
    let i = place?;
    match at(declared.ctors.as_slice(), i as usize) {
        Some(ctor) if ctor.object => Some(i),
        _ => None,
    }
}

/// What an application of a name applies: the function of that name or, where there is none, the constructor. The only
/// error is want of memory.
pub(crate) fn applied_by(
    alloc: Global,
    names: &Names,
    name: &str,
) -> Result<Option<Callee>, NoMemory>
    ensures { IfOk result (λ c. c ≡ applied_by names.now name.now) }
{
    let declared = names.declared();
    match function_at(alloc, declared, names.find_function(name))? {
        Some(function) => Ok(Some(function)),
        None => ctor_at(alloc, declared, names.find_ctor(name)),
    }
}

/// What a name that is no local stands for: a function without a parameter list or, where there is none, a case object.
/// The only error is want of memory.
pub(crate) fn named_by(alloc: Global, names: &Names, name: &str) -> Result<Option<Callee>, NoMemory>
    ensures { IfOk result (λ c. c ≡ named_by names.now name.now) }
{
    let declared = names.declared();
    let function = bare_function(declared, names.find_function(name));
    match function_at(alloc, declared, function)? {
        Some(function) => Ok(Some(function)),
        None => ctor_at(
            alloc,
            declared,
            case_object(declared, names.find_ctor(name)),
        ),
    }
}

/// The one place of a list that has one.
fn the_only(places: &[u32]) -> Option<u32>
    ensures { result ≡ the_only places.now }
{
    match places {
        [place] => Some(*place),
        _ => None,
    }
}

/// The one constructor of a root that has one.
pub(crate) fn only_ctor(names: &Names, root: u32) -> Option<u32>
    ensures { result ≡ only_ctor names.now root }
{
    if (root as usize) < names.declared().roots.len() {
        the_only(names.ctors_of(root))
    } else {
        None
    }
}

/// The place of the name in a list of names.
fn place_in(names: &[Name], name: &str) -> Option<usize>
    ensures { result ≡ place_of name.now names.now }
{
    names.iter().position(|n| name == n.as_str())
}

/// The place of the field of this name among the fields of a constructor.
pub(crate) fn field_place(declared: &Declared, ctor: u32, name: &str) -> Option<usize>
    ensures { result ≡ field_place declared.now ctor name.now }
{
    match at(declared.field_names.as_slice(), ctor as usize) {
        Some(names) => place_in(names.as_slice(), name),
        None => None,
    }
}

/// The declared sort of a field.
pub(crate) fn field_sort(declared: &Declared, ctor: u32, field: usize) -> Option<&GenericSort>
    ensures { option_copied result ≡ field_sort declared.now ctor field }
{
    match at(declared.ctors.as_slice(), ctor as usize) {
        Some(ctor) => at(ctor.fields.as_slice(), field),
        None => None,
    }
}
