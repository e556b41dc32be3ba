//! Assignments: a truth value for each variable.

ghost use Rattle.std.specs.Prelude.{◌≡◌, ◌≤◌, IfOk};
ghost use Rattle.pp_clause.specs.Assignment.{assigned};

use crate::NoMemory;
use std::alloc::Global;
use std::marker::Model;

/// A truth value for each variable. Variables past the list are false.
#[derive(Drop)]
pub struct Assignment {
    values: Vec<bool>,
}

impl Model for Assignment {
    ghost use Rattle.std.specs.Prelude.{List, Bool};

    ghost Value = { List Bool };

    ghost view = { λ a. a.values.items };
}

impl Assignment {
    /// Gives variable 1 the first value, and so on.
    pub fn of(alloc: Global, values: &[bool]) -> Result<Assignment, NoMemory>
        ensures { IfOk result (λ a. a ≡ values.now) }
    {
        let values = Vec::from_slice(alloc, values)?;
        Ok(Assignment { values })
    }

    /// The value of a variable, which are numbered from 1.
    pub fn value(&self, var: u32) -> bool
        requires { 1 ≤ var }
        ensures { result ≡ assigned self.now var }
    {
        let place = var as usize - 1;
        if place < self.values.len() {
            self.values[place]
        } else {
            false
        }
    }
}
