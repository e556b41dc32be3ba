//! Which literals follow from the others. That is a guess as far as contracts go: minimization looks again at each.
ghost use Rattle.std.specs.Prelude.{◌≡◌, ◌+◌, [], IfOk, length};

use crate::NoMemory;
use pp_clause::Clauses;
use pp_trail::{Mark, Step};
use std::alloc::Global;

/// How many looks are taken for one literal at most.
const LOOKS: u32 = 1 << 16;

/// A variable whose reason is being read.
#[derive(Clone, Copy)]
struct Open {
    var: u32,
    reason: u32,
    // how many literals of the reason have been read
    read: usize,
}

/// Variables whose literals follow from other marked ones, in the order in which they were found out.
#[derive(Drop)]
pub struct Plan {
    // each variable after those that its reason needs
    order: Vec<u32>,
    // by variable, once that is known: whether its literal follows from marked ones
    known: Vec<Option<bool>>,
    // the variables for which it is known
    looked: Vec<u32>,
    open: Vec<Open>,
}

impl Plan {
    /// No plan yet, for variables up to this one.
    pub fn new(alloc: Global, vars: u32) -> Result<Plan, NoMemory>
        ensures none { IfOk result (λ p. p.order.items ≡ []) }
        ensures known { IfOk result (λ p. length p.known.items ≡ vars + 1) }
    {
        let known = vec![in alloc; None; vars as usize + 1]?;
        Ok(Plan {
            order: Vec::new(alloc),
            known,
            looked: Vec::new(alloc),
            open: Vec::new(alloc),
        })
    }

    /// The variables, each after those that its reason needs.
    pub fn order(&self) -> &[u32]
        ensures { result.now ≡ self.now.order.items }
    {
        self.order.as_slice()
    }

    /// Finds out which of the marked variables follow from the others.
    pub fn make(
        &mut self,
        clauses: &Clauses,
        trail: &[Step],
        places: &[Option<Mark>],
        seen: &[bool],
        met: &[u32],
    ) -> Result<(), NoMemory> {
        self.forget();
        for var in met {
            if is_marked(seen, *var) && self.known_of(*var).is_none() {
                self.look(clauses, trail, places, seen, *var)?;
            }
        }
        Ok(())
    }

    /// Forgets the plan.
    fn forget(&mut self) {
        for var in &self.looked {
            if (*var as usize) < self.known.len() {
                self.known[*var as usize] = None;
            }
        }
        self.looked.clear();
        self.order.clear();
        self.open.clear();
    }

    /// What is known of the variable.
    fn known_of(&self, var: u32) -> Option<bool> {
        if (var as usize) < self.known.len() {
            self.known[var as usize]
        } else {
            Some(false)
        }
    }

    /// Notes whether the variable follows from marked ones.
    fn note(&mut self, var: u32, follows: bool) -> Result<(), NoMemory> {
        if (var as usize) < self.known.len() {
            self.looked.push(var)?;
            self.known[var as usize] = Some(follows);
        }
        if follows {
            self.order.push(var)?;
        }
        Ok(())
    }

    /// Finds out whether the variable follows from marked ones: each literal of its reason is marked or follows itself.
    fn look(
        &mut self,
        clauses: &Clauses,
        trail: &[Step],
        places: &[Option<Mark>],
        seen: &[bool],
        var: u32,
    ) -> Result<(), NoMemory> {
        self.enter(trail, places, seen, var)?;
        for _ in 0..LOOKS {
            let Some(top) = self.open.pop() else {
                return Ok(());
            };
            match next_literal(clauses, &top) {
                Some(other) => {
                    self.open.push(Open {
                        var: top.var,
                        reason: top.reason,
                        read: top.read.saturating_add(1),
                    })?;
                    if other != top.var {
                        self.visit(trail, places, seen, other)?;
                    }
                }
                None => self.note(top.var, true)?,
            }
        }
        self.open.clear();
        Ok(())
    }

    /// Looks at a variable that an open one needs.
    fn visit(
        &mut self,
        trail: &[Step],
        places: &[Option<Mark>],
        seen: &[bool],
        var: u32,
    ) -> Result<(), NoMemory> {
        match self.known_of(var) {
            Some(true) => Ok(()),
            Some(false) => {
                if !is_marked(seen, var) {
                    self.fail(seen)?;
                }
                Ok(())
            }
            None => self.enter(trail, places, seen, var),
        }
    }

    /// Opens the variable where it has a reason. A decision follows from nothing.
    fn enter(
        &mut self,
        trail: &[Step],
        places: &[Option<Mark>],
        seen: &[bool],
        var: u32,
    ) -> Result<(), NoMemory> {
        match reason_of(trail, places, var) {
            Some(reason) => {
                self.open.push(Open {
                    var,
                    reason,
                    read: 0,
                })?;
                Ok(())
            }
            None => {
                self.note(var, false)?;
                if !is_marked(seen, var) {
                    self.fail(seen)?;
                }
                Ok(())
            }
        }
    }

    /// Closes the open variables that need one which neither follows nor is marked, as far up as that reaches.
    fn fail(&mut self, seen: &[bool]) -> Result<(), NoMemory> {
        for _ in 0..self.open.len() {
            let Some(top) = self.open.pop() else {
                return Ok(());
            };
            self.note(top.var, false)?;
            if is_marked(seen, top.var) {
                return Ok(());
            }
        }
        Ok(())
    }
}

/// Whether the variable is marked.
fn is_marked(seen: &[bool], var: u32) -> bool {
    (var as usize) < seen.len() && seen[var as usize]
}

/// The reason of the variable's step.
fn reason_of(trail: &[Step], places: &[Option<Mark>], var: u32) -> Option<u32> {
    if (var as usize) >= places.len() {
        return None;
    }
    let mark = places[var as usize]?;
    if (mark.place as usize) < trail.len() {
        trail[mark.place as usize].reason
    } else {
        None
    }
}

/// The variable of the next literal of the open variable's reason.
fn next_literal(clauses: &Clauses, open: &Open) -> Option<u32> {
    if open.reason == 0 || open.reason as usize > clauses.len() {
        return None;
    }
    let lits = clauses.get(open.reason).lits();
    if open.read < lits.len() {
        Some(lits[open.read].var())
    } else {
        None
    }
}
