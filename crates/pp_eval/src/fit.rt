//! The values that a pattern binds.

ghost use Rattle.std.specs.Prelude.{◌≡◌, IfOk, map};
ghost use Rattle.pp_prog.specs.Fits as spec;
ghost use Rattle.pp_prog.specs.Fits.{fit, fit_fields};

use crate::NoMemory;
use pp_list::Items;
use pp_prog::{Pattern, Value, Values};
use std::alloc::Global;

/// The values that the pattern binds, the outer before the inner and from left to right, or none where the value
/// doesn't fit. The only error is want of memory.
#[cycle(fit)]
pub(crate) fn bind(
    alloc: Global,
    pattern: &Pattern,
    value: &Value,
) -> Result<Option<Values>, NoMemory>
    ensures { IfOk result (λ bound. bound ≡ fit pattern.now value.now) }
{
    match (pattern, value) {
        (Pattern::Any, _) => Ok(Some(Items::new(alloc))),
        (Pattern::Bind(inner), _) => {
            let mut bound = Items::new(alloc);
            bound.push(value.copy(alloc)?)?;
            match bind(alloc, inner.get(), value)? {
                Some(more) => {
                    bound.append(more)?;
                    Ok(Some(bound))
                }
                None => Ok(None),
            }
        }
        (Pattern::Int(n), Value::Int(m)) => Ok(fits_if(alloc, *n == *m)),
        (Pattern::Bool(a), Value::Bool(b)) => Ok(fits_if(alloc, *a == *b)),
        (Pattern::Ctor(c, patterns), Value::Tree(d, fields)) => {
            if *c != *d {
                return Ok(None);
            }
            bind_fields(alloc, patterns.as_slice(), fields.as_slice())
        }
        _ => Ok(None),
    }
}

// The values that the patterns bind, each at the value at its place.
#[cycle(fit)]
fn bind_fields(
    alloc: Global,
    patterns: &[Pattern],
    values: &[Value],
) -> Result<Option<Values>, NoMemory>
    ensures { IfOk result (λ bound. bound ≡ fit_fields (map fit patterns.now) values.now) }
{
    if patterns.len() != values.len() {
        return Ok(None);
    }
    let mut bound = Items::new(alloc);
    for i in 0..patterns.len() {
        match bind(alloc, &patterns[i], &values[i])? {
            Some(more) => bound.append(more)?,
            None => return Ok(None),
        }
    }
    Ok(Some(bound))
}

fn fits_if(alloc: Global, fits: bool) -> Option<Values>
    ensures { result ≡ spec.fits_if fits }
{
    if fits { Some(Items::new(alloc)) } else { None }
}
