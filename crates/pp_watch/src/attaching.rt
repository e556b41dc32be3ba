//! Lets clauses that wait watch two of their literals.
ghost use Rattle.std.specs.Prelude.{◌≡◌, ◌+◌, ◌<◌, ◌^◌, length, IfSome, IfNone, IfOk, OnErr};
ghost use Rattle.pp_trail.specs.Trail.{lits, IsFalse};
ghost use Rattle.pp_watch.specs.Watching.{IsSound, IsSized};
ghost use Rattle.pp_watch.specs.Looking.{IsChoice, IsNumbered};
ghost use Rattle.pp_watch.specs.Attaching.{Attaches, CanWatch, Settles, waiting};

use crate::NoMemory;
use crate::finding::{bound, choose, lits_of, third};
use crate::head::Head;
use crate::levels::cut;
use crate::state::State;
use crate::watcher::Watcher;
use pp_trail::Step;

impl State {
    /// Lets all clauses that wait watch literals, and adds a step where one leaves no other choice. The answer is the
    /// number of a false clause, if there is one.
    pub fn attach_all(&mut self) -> Result<Option<u32>, NoMemory>
        requires { IsSound self.old }
        ensures attaches { IfOk result (λ _. Attaches self.old self.new) }
        ensures all { IfOk result (λ o. IfNone o (length self.new.heads.items ≡ length self.new.trail.clauses)) }
        ensures sized { OnErr result (IsSized self.new) }
        ensures conflict { IfOk result (λ o. IfSome o (IsFalse self.new.trail.clauses (lits self.new.trail.steps))) }
    {
        while self.heads.len() < self.trail.clauses().len() {
            let next = self.heads.len() as u32 + 1;
            if let Some(number) = self.attach(next)? {
                return Ok(Some(number));
            }
        }
        Ok(None)
    }

    /// Lets the first clause that waits watch two of its literals.
    fn attach(&mut self, number: u32) -> Result<Option<u32>, NoMemory>
        requires sound { IsSound self.old }
        requires next { number ≡ length self.old.heads.items + 1 }
        requires some { length self.old.heads.items < length self.old.trail.clauses }
        ensures attaches { IfOk result (λ _. Attaches self.old self.new) }
        ensures more { IfOk result (λ o. IfNone o (length self.new.heads.items ≡ length self.old.heads.items + 1)) }
        ensures sized { OnErr result (IsSized self.new) }
        ensures conflict { IfOk result (λ o. IfSome o (IsFalse self.new.trail.clauses (lits self.new.trail.steps))) }
    {
        let head = choose(&self.trail, lits_of(&self.trail, number));
        match head {
            Some(head) => {
                self.settle(&head, number);
                self.watch(&head, number)?;
                Ok(None)
            }
            None => Ok(Some(number)),
        }
    }

    /// Adds a step where the clause with this number leaves no other choice.
    fn settle(&mut self, head: &Head, number: u32)
        requires sound { IsSound self.old }
        requires next { number ≡ length self.old.heads.items + 1 }
        requires some { length self.old.heads.items < length self.old.trail.clauses }
        requires clause { IsNumbered self.old number }
        requires choice { IsChoice (lits self.old.trail.steps) (waiting self.old) head.now }
        ensures { Settles self.old head.now self.new }
    {
        if let Some(bound) = bound(&self.trail, head) {
            cut(&mut self.levels, bound);
            if !self.trail.is_true(head.first) {
                self.trail.push(Step {
                    lit: head.first,
                    reason: Some(number),
                });
            }
        }
    }

    /// Lets the first clause that waits watch these literals.
    fn watch(&mut self, head: &Head, number: u32) -> Result<(), NoMemory>
        requires sound { IsSound self.old }
        requires next { number ≡ length self.old.heads.items + 1 }
        requires clause { IsNumbered self.old number }
        requires can { CanWatch self.old head.now }
        ensures trail { self.new.trail ≡ self.old.trail }
        ensures visited { self.new.visited ≡ self.old.visited }
        ensures sound { IfOk result (λ _. IsSound self.new) }
        ensures more { IfOk result (λ _. length self.new.heads.items ≡ length self.old.heads.items + 1) }
        ensures sized { OnErr result (IsSized self.new) }
    {
        let clause = lits_of(&self.trail, number);
        self.lists.push(
            head.first,
            Watcher {
                number,
                blocker: head.second,
                third: third(clause, head.first, head.second),
            },
        )?;
        self.lists.push(
            head.second,
            Watcher {
                number,
                blocker: head.first,
                third: third(clause, head.second, head.first),
            },
        )?;
        self.heads.push(Head {
            first: head.first,
            second: head.second,
            look: head.look,
        })?;
        Ok(())
    }
}
