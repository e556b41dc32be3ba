//! The values that a pattern binds.

ghost use Rattle.std.specs.Prelude.{◌≡◌, ◌↔◌, IfOk, IsTrue, OnOk, map};
ghost use Rattle.pp_prog.specs.declared.value.Value.TheVariants.{Int, Bool};
ghost use Rattle.pp_prog.specs.Fits.{fit, fit_fields};
ghost use Rattle.pp_store.specs.Values.{AreHeld, IsHeld, value_of, values_of};
ghost use Rattle.pp_stack.specs.Moves.{Adds};

use crate::NoMemory;
use crate::head::{Look, look_at};
use pp_list::Items;
use pp_prog::{Pattern, Value};
use pp_store::{Held, Store};

/// Adds what the pattern binds at a value, the outer before the inner and from left to right, and says whether the
/// value fits. Where it doesn't, part of that may have been added.
#[cycle(fit)]
pub(crate) fn bind(
    store: &Store,
    env: &mut Items<Held>,
    pattern: &Pattern,
    held: Held,
) -> Result<bool, NoMemory>
    requires all { AreHeld store.now env.old }
    requires one { IsHeld store.now held }
    ensures held { OnOk result (AreHeld store.now env.new) }
    ensures bound { IfOk result (λ fits. Adds store.now env.old env.new fits
        (fit pattern.now (value_of store.now held))) }
{
    match pattern {
        Pattern::Any => Ok(true),
        Pattern::Bind(inner) => {
            env.push(held)?;
            bind(store, env, inner.get(), held)
        }
        Pattern::Int(n) => Ok(is_number(store, held, n)),
        Pattern::Bool(a) => Ok(is_truth(store, held, *a)),
        Pattern::Ctor(c, patterns) => match look_at(store, held) {
            Look::Tree(parts) => {
                if c.0 == parts.ctor.0 {
                    bind_fields(store, env, patterns.as_slice(), parts.fields)
                } else {
                    Ok(false)
                }
            }
            _ => Ok(false),
        },
    }
}

/// Adds what the patterns bind, each at the value at its place, and says whether all fit and none is left over.
#[cycle(fit)]
fn bind_fields(
    store: &Store,
    env: &mut Items<Held>,
    patterns: &[Pattern],
    helds: &[Held],
) -> Result<bool, NoMemory>
    requires all { AreHeld store.now env.old }
    requires fields { AreHeld store.now helds.now }
    ensures held { OnOk result (AreHeld store.now env.new) }
    ensures bound { IfOk result (λ fits. Adds store.now env.old env.new fits
        (fit_fields (map fit patterns.now) (values_of store.now helds.now))) }
{
    if patterns.len() != helds.len() {
        return Ok(false);
    }
    for i in 0..patterns.len() {
        if !bind(store, env, &patterns[i], helds[i])? {
            return Ok(false);
        }
    }
    Ok(true)
}

/// Whether it is this number.
fn is_number(store: &Store, held: Held, n: &i32) -> bool
    requires { IsHeld store.now held }
    ensures { IsTrue result ↔ (Int n.now ≡ value_of store.now held) }
{
    match look_at(store, held) {
        Look::Int(m) => Value::Int(*n).same(&Value::Int(m)),
        _ => false,
    }
}

/// Whether it is this truth value.
fn is_truth(store: &Store, held: Held, a: bool) -> bool
    requires { IsHeld store.now held }
    ensures { IsTrue result ↔ (Bool a ≡ value_of store.now held) }
{
    match look_at(store, held) {
        Look::Bool(b) => Value::Bool(a).same(&Value::Bool(b)),
        _ => false,
    }
}
