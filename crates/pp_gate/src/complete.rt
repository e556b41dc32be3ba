//! The assignment that the inputs determine.

ghost use Rattle.std.specs.Prelude.{◌≡◌, ◌≤◌, length, IfOk};
ghost use Rattle.pp_clause.specs.Assignment.{assigned};
ghost use Rattle.pp_clause.specs.Literal.{lit_value};
ghost use Rattle.pp_gate.specs.Gate.{gate_value};
ghost use Rattle.pp_gate.specs.Circuit.{IsWithin, FitsAfter, Gives};
ghost use Rattle.pp_gate.specs.Laws.{AgreeOnInputs};
ghost use Rattle.pp_gate.specs.Completion.{next_value};

use crate::NoMemory;
use crate::circuit::Circuit;
use crate::gate::Gate;
use pp_clause::{Assignment, Lit};

impl Circuit {
    /// The assignment that gives each gate its value, and the inputs those that they have under this one. It takes one
    /// pass over the gates.
    pub fn complete(&self, inputs: &Assignment) -> Result<Assignment, NoMemory>
        ensures len { IfOk result (λ r. length r ≡ length self.now) }
        ensures gives { IfOk result (λ r. Gives (assigned r) self.now) }
        ensures inputs { IfOk result (λ r. AgreeOnInputs self.now (assigned inputs.now) (assigned r)) }
    {
        let alloc = self.allocator();
        let gates = self.as_slice();
        let mut values = Vec::with_capacity(alloc, gates.len())?;
        for i in 0..gates.len() {
            let value = value_of(&values, inputs, gates[i]);
            values.push(value)?;
        }
        Assignment::of(alloc, &values)
    }
}

/// The value of a gate, from those of the variables before it and of the inputs.
fn value_of(values: &[bool], inputs: &Assignment, gate: Gate) -> bool
    requires { FitsAfter (length values.now) gate }
    ensures { result ≡ next_value (assigned values.now) (assigned inputs.now) gate }
{
    match gate {
        Gate::Truth => true,
        Gate::Input(var) => inputs.value(var),
        Gate::And(a, b) => {
            let first = value_in(values, a);
            let second = value_in(values, b);
            first && second
        }
        Gate::Xor(a, b) => {
            let first = value_in(values, a);
            let second = value_in(values, b);
            first != second
        }
        Gate::Mux(c, a, b) => {
            let chosen = if value_in(values, c) { a } else { b };
            value_in(values, chosen)
        }
        Gate::Majority(a, b, c) => {
            let first = value_in(values, a);
            let second = value_in(values, b);
            let third = value_in(values, c);
            if first {
                second || third
            } else {
                second && third
            }
        }
    }
}

/// The value of a literal.
fn value_in(values: &[bool], lit: Lit) -> bool
    requires { IsWithin (length values.now) lit }
    ensures { result ≡ lit_value (assigned values.now) lit }
{
    let value = values[lit.var() as usize - 1];
    if lit.is_positive() { value } else { !value }
}
