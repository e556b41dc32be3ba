//! The checks of sites.

ghost use Rattle.std.specs.Prelude.{◌≡◌, ◌++◌, ◌∷◌, [], IfOk, length, slice_get};
ghost use Rattle.pp_translate.specs.Target.{setting};
ghost use Rattle.pp_translation.specs.Numbered as spec;

use crate::NoMemory;
use crate::target::Target;
use pp_list::{Items, at};
use pp_prog::{CheckId, CheckKind, FunctionId};
use pp_translation::{CheckAt, Frame};
use pp_typed::{Typed, TypedExpr};

/// Whether the function has a precondition. It takes no memory.
pub(crate) fn has_pre(typed: &Typed, f: u32) -> bool
    ensures { result ≡ spec.has_pre (slice_get typed.now.defs f) }
{
    match at(typed.defs.as_slice(), f as usize) {
        None => false,
        Some(d) => is_written(d.pre.as_slice()),
    }
}

/// Whether the function has a measure. It takes no memory.
pub(crate) fn has_measure(typed: &Typed, f: u32) -> bool
    ensures { result ≡ spec.has_measure (slice_get typed.now.defs f) }
{
    match at(typed.defs.as_slice(), f as usize) {
        None => false,
        Some(d) => is_written(d.measure.as_slice()),
    }
}

fn is_written(es: &[TypedExpr]) -> bool
    ensures { result ≡ spec.is_written es.now }
{
    es.len() > 0
}

/// Whether two functions have one group's number. It takes no memory.
pub(crate) fn same_group(groups: &[u32], f: u32, g: u32) -> bool
    ensures { result ≡ spec.same_number (slice_get groups.now f) (slice_get groups.now g) }
{
    match at(groups, f as usize) {
        None => false,
        Some(a) => match at(groups, g as usize) {
            None => false,
            Some(b) => *a == *b,
        },
    }
}

/// Whether a call demands that the measure goes down. It takes no memory.
pub(crate) fn descends(typed: &Typed, target: &Target, own: &Frame, f: u32, g: FunctionId) -> bool
    ensures { result ≡ spec.descends typed.now (setting target.now) own.now f g }
{
    own.measured && (has_measure(typed, f) && same_group(target.groups.as_slice(), own.number, g.0))
}

/// Lists a check, where there is one, and gives its number. A list has fewer than 2^32 checks: there is no memory for
/// more.
pub(crate) fn check_if(
    is: bool,
    own: &Frame,
    kind: CheckKind,
    e: &TypedExpr,
    checks: &mut Items<CheckAt>,
) -> Result<Option<CheckId>, NoMemory>
    ensures number { IfOk result (λ n. n ≡ spec.number_if is checks.old) }
    ensures listed { IfOk result
        (λ _. checks.new ≡ spec.more_if is
        (record { function = own.now.number; kind = kind; source = e.now.source; at = e.now.at }) checks.old) }
{
    if !is {
        return Ok(None);
    }
    let check = add_check(own, kind, e, checks)?;
    Ok(Some(check))
}

/// Lists a check, and gives its number.
pub(crate) fn add_check(
    own: &Frame,
    kind: CheckKind,
    e: &TypedExpr,
    checks: &mut Items<CheckAt>,
) -> Result<CheckId, NoMemory>
    ensures number { IfOk result (λ n. n.0 ≡ length checks.old) }
    ensures listed { IfOk result
        (λ _. checks.new ≡ checks.old
        ++ record { function = own.now.number; kind = kind; source = e.now.source; at = e.now.at } ∷ []) }
{
    let number = checks.len();
    if number >= u32::MAX as usize {
        return Err(NoMemory);
    }
    checks.push(CheckAt {
        function: own.number,
        kind,
        source: e.source,
        at: e.at,
    })?;
    Ok(CheckId(number as u32))
}
