//! Propagation from end to end, and the way back.
ghost use Rattle.std.specs.Prelude.{◌≡◌, ◌≤◌, length, take, IfSome, IfNone, IfOk, OnErr};
ghost use Rattle.pp_clause.specs.New.{IsClosed};
ghost use Rattle.pp_trail.specs.Trail.{lits, IsFalse};
ghost use Rattle.pp_watch.specs.Watching.{IsSound, IsSized, Grows};

use crate::NoMemory;
use crate::levels::cut;
use crate::state::State;

impl State {
    /// Makes literals true that clauses leave no other choice for, as long as there are such. The answer is the number
    /// of a false clause, if there is one.
    pub fn close(&mut self) -> Result<Option<u32>, NoMemory>
        requires { IsSound self.old }
        ensures grows { IfOk result (λ _. Grows self.old.trail self.new.trail) }
        ensures sound { IfOk result (λ _. IsSound self.new) }
        ensures closed { IfOk result (λ o. IfNone o (IsClosed self.new.trail.clauses (lits self.new.trail.steps))) }
        ensures conflict { IfOk result (λ o. IfSome o (IsFalse self.new.trail.clauses (lits self.new.trail.steps))) }
        ensures sized { OnErr result (IsSized self.new) }
    {
        if let Some(number) = self.attach_all()? {
            return Ok(Some(number));
        }
        if let Some(number) = self.visit_all()? {
            return Ok(Some(number));
        }
        self.note_level()?;
        Ok(None)
    }

    /// Notes that nothing more is to do at this length of the trail.
    fn note_level(&mut self) -> Result<(), NoMemory>
        requires sound { IsSound self.old }
        requires heads { length self.old.heads.items ≡ length self.old.trail.clauses }
        requires visited { self.old.visited ≡ length self.old.trail.steps }
        ensures trail { self.new.trail ≡ self.old.trail }
        ensures sound { IfOk result (λ _. IsSound self.new) }
        ensures closed { IfOk result (λ _. IsClosed self.new.trail.clauses (lits self.new.trail.steps)) }
        ensures sized { OnErr result (IsSized self.new) }
    {
        let len = self.trail.steps().len();
        cut(&mut self.levels, len);
        self.levels.push(len)?;
        Ok(())
    }

    /// Keeps the first `len` steps of the trail.
    pub fn undo(&mut self, len: usize)
        requires sound { IsSound self.old }
        requires within { len ≤ length self.old.trail.steps }
        ensures trail { self.new.trail ≡ record self.old.trail { steps = take len self.old.trail.steps } }
        ensures sound { IsSound self.new }
    {
        self.trail.undo(len);
        let kept = self.trail.steps().len();
        cut(&mut self.levels, kept + 1);
        match self.levels.last() {
            Some(level) => self.visited = *level,
            None => self.forget(),
        }
    }

    /// Lets all clauses wait again.
    pub fn forget(&mut self)
        requires { IsSized self.old }
        ensures trail { self.new.trail ≡ self.old.trail }
        ensures sound { IsSound self.new }
    {
        self.visited = 0;
        self.levels.clear();
        self.heads.clear();
        self.lists.clear();
    }
}
