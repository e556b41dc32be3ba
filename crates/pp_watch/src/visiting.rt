//! Visits what watches false literals.
ghost use Rattle.std.specs.Prelude.{◌≡◌, ◌≢◌, ◌+◌, ◌-◌, ◌<◌, ◌≤◌, true, false, length, IfSome, IfNone, IfOk, OnErr};
ghost use Rattle.std.specs.Prelude.{slice_index_or};
ghost use Rattle.pp_clause.specs.Literal.{opposite};
ghost use Rattle.pp_clause.specs.Clause.{has};
ghost use Rattle.pp_trail.specs.Trail.{lits, IsFalse};
ghost use Rattle.pp_watch.specs.Watching.{IsSound, IsSized, Grows, clause_at};
ghost use Rattle.pp_trail.specs.Marks.{code};
ghost use Rattle.pp_watch.specs.Lists.{watchers_of};
ghost use Rattle.pp_watch.specs.Looking.{AreLookedAt, AreOthersFalse, Advances, HasOther, IsBeside, IsNear};
ghost use Rattle.pp_watch.specs.Looking.{IsNumbered};

use crate::NoMemory;
use crate::finding::{Found, lits_of, other_not_false, third};
use crate::head::Head;
use crate::state::State;
use crate::watcher::Watcher;
use pp_clause::Lit;
use pp_trail::Step;

impl State {
    /// Visits the steps of the trail that haven't been visited, and those that this adds. The answer is the number of a
    /// false clause, if there is one.
    pub fn visit_all(&mut self) -> Result<Option<u32>, NoMemory>
        requires { IsSound self.old }
        ensures grows { IfOk result (λ _. Grows self.old.trail self.new.trail) }
        ensures sound { IfOk result (λ _. IsSound self.new) }
        ensures heads { IfOk result (λ _. length self.new.heads.items ≡ length self.old.heads.items) }
        ensures all { IfOk result (λ o. IfNone o (self.new.visited ≡ length self.new.trail.steps)) }
        ensures conflict { IfOk result (λ o. IfSome o (IsFalse self.new.trail.clauses (lits self.new.trail.steps))) }
        ensures sized { OnErr result (IsSized self.new) }
    {
        while self.visited < self.trail.steps().len() {
            let lit = self.trail.steps()[self.visited].lit.negated();
            if let Some(number) = self.visit(lit)? {
                return Ok(Some(number));
            }
            self.visited += 1;
        }
        Ok(None)
    }

    /// Looks at the clauses that watch a false literal.
    fn visit(&mut self, lit: Lit) -> Result<Option<u32>, NoMemory>
        requires sound { IsSound self.old }
        requires negated { has (lits self.old.trail.steps) (opposite lit) ≡ true }
        requires listed { code lit < length self.old.lists }
        ensures advances { IfOk result (λ _. Advances self.old self.new) }
        ensures looked { IfOk result (λ o. IfNone o (AreLookedAt self.new lit 0)) }
        ensures conflict { IfOk result (λ o. IfSome o (IsFalse self.new.trail.clauses (lits self.new.trail.steps))) }
        ensures sized { OnErr result (IsSized self.new) }
    {
        let mut place = self.lists.count(lit);
        while place > 0 {
            place -= 1;
            if let Some(number) = self.look(lit, place)? {
                return Ok(Some(number));
            }
        }
        Ok(None)
    }

    /// Looks at the clause that watches a false literal at this place of the literal's list.
    fn look(&mut self, lit: Lit, place: usize) -> Result<Option<u32>, NoMemory>
        requires sound { IsSound self.old }
        requires negated { has (lits self.old.trail.steps) (opposite lit) ≡ true }
        requires place { place < length (watchers_of self.old.lists lit) }
        requires looked { AreLookedAt self.old lit (place + 1) }
        ensures advances { IfOk result (λ _. Advances self.old self.new) }
        ensures looked { IfOk result (λ o. IfNone o (AreLookedAt self.new lit place)) }
        ensures within { IfOk result (λ o. IfNone o (place ≤ length (watchers_of self.new.lists lit))) }
        ensures conflict { IfOk result (λ o. IfSome o (IsFalse self.new.trail.clauses (lits self.new.trail.steps))) }
        ensures sized { OnErr result (IsSized self.new) }
    {
        let watcher = self.lists.get(lit, place);
        if self.trail.is_true(watcher.blocker) {
            return Ok(None);
        }
        if watcher.third.index() == lit.index() {
            return self.look_at_head(lit, place, watcher);
        }
        self.look_short(lit, place, watcher)
    }

    /// Looks at a clause of at most three literals, those of a watcher of a false one and that one.
    fn look_short(
        &mut self,
        lit: Lit,
        place: usize,
        watcher: Watcher,
    ) -> Result<Option<u32>, NoMemory>
        requires sound { IsSound self.old }
        requires negated { has (lits self.old.trail.steps) (opposite lit) ≡ true }
        requires place { place < length (watchers_of self.old.lists lit) }
        requires looked { AreLookedAt self.old lit (place + 1) }
        requires watcher { watcher ≡ slice_index_or (watchers_of self.old.lists lit) place watcher }
        requires not_true { has (lits self.old.trail.steps) watcher.blocker ≡ false }
        requires short { code watcher.third ≢ code lit }
        ensures advances { IfOk result (λ _. Advances self.old self.new) }
        ensures looked { IfOk result (λ o. IfNone o (AreLookedAt self.new lit place)) }
        ensures within { IfOk result (λ o. IfNone o (place ≤ length (watchers_of self.new.lists lit))) }
        ensures conflict { IfOk result (λ o. IfSome o (IsFalse self.new.trail.clauses (lits self.new.trail.steps))) }
        ensures sized { OnErr result (IsSized self.new) }
    {
        if self.trail.is_true(watcher.third) {
            return Ok(None);
        }
        // tells that the clauses are in range
        let _clauses = self.trail.clauses();
        if self.trail.is_false(watcher.third) {
            return Ok(self.force(lit, place, watcher.number, watcher.blocker));
        }
        if self.trail.is_false(watcher.blocker) {
            return Ok(self.force(lit, place, watcher.number, watcher.third));
        }
        self.look_at_head(lit, place, watcher)
    }

    /// Looks at the two literals that the clause of a watcher watches.
    fn look_at_head(
        &mut self,
        lit: Lit,
        place: usize,
        watcher: Watcher,
    ) -> Result<Option<u32>, NoMemory>
        requires sound { IsSound self.old }
        requires negated { has (lits self.old.trail.steps) (opposite lit) ≡ true }
        requires place { place < length (watchers_of self.old.lists lit) }
        requires looked { AreLookedAt self.old lit (place + 1) }
        requires watcher { watcher ≡ slice_index_or (watchers_of self.old.lists lit) place watcher }
        ensures advances { IfOk result (λ _. Advances self.old self.new) }
        ensures looked { IfOk result (λ o. IfNone o (AreLookedAt self.new lit place)) }
        ensures within { IfOk result (λ o. IfNone o (place ≤ length (watchers_of self.new.lists lit))) }
        ensures conflict { IfOk result (λ o. IfSome o (IsFalse self.new.trail.clauses (lits self.new.trail.steps))) }
        ensures sized { OnErr result (IsSized self.new) }
    {
        let head = self.heads[watcher.number as usize - 1];
        if head.first.index() == lit.index() {
            self.look_beside(lit, place, watcher.number, head.second, head.look)
        } else if head.second.index() == lit.index() {
            self.look_beside(lit, place, watcher.number, head.first, head.look)
        } else {
            self.lists.remove(lit, place);
            Ok(None)
        }
    }

    /// Looks at a clause that watches a false literal and this other one, at its literals from the place `from` on.
    fn look_beside(
        &mut self,
        lit: Lit,
        place: usize,
        number: u32,
        other: Lit,
        from: usize,
    ) -> Result<Option<u32>, NoMemory>
        requires sound { IsSound self.old }
        requires negated { has (lits self.old.trail.steps) (opposite lit) ≡ true }
        requires looked { AreLookedAt self.old lit (place + 1) }
        requires beside { IsBeside self.old lit place number other }
        ensures advances { IfOk result (λ _. Advances self.old self.new) }
        ensures looked { IfOk result (λ o. IfNone o (AreLookedAt self.new lit place)) }
        ensures within { IfOk result (λ o. IfNone o (place ≤ length (watchers_of self.new.lists lit))) }
        ensures conflict { IfOk result (λ o. IfSome o (IsFalse self.new.trail.clauses (lits self.new.trail.steps))) }
        ensures sized { OnErr result (IsSized self.new) }
    {
        if other.index() == lit.index() {
            return Ok(None);
        }
        if self.trail.is_true(other) {
            self.block(lit, place, number, other, other);
            return Ok(None);
        }
        match other_not_false(&self.trail, lits_of(&self.trail, number), other, from) {
            Some(new) => {
                if self.trail.is_true(new.lit) {
                    self.block(lit, place, number, other, new.lit);
                    return Ok(None);
                }
                self.rewatch(lit, place, number, other, new)?;
                Ok(None)
            }
            None => Ok(self.force(lit, place, number, other)),
        }
    }

    /// Notes a true literal of a clause that watches a false one, so that the next look at it can be short.
    fn block(&mut self, lit: Lit, place: usize, number: u32, other: Lit, blocker: Lit)
        requires sound { IsSound self.old }
        requires looked { AreLookedAt self.old lit (place + 1) }
        requires beside { IsBeside self.old lit place number other }
        requires held { has (clause_at self.old.trail.clauses (number - 1)) blocker ≡ true }
        requires itself { has (lits self.old.trail.steps) blocker ≡ true }
        ensures advances { Advances self.old self.new }
        ensures looked { AreLookedAt self.new lit place }
        ensures within { place ≤ length (watchers_of self.new.lists lit) }
    {
        let watcher = Watcher {
            number,
            blocker,
            third: lit,
        };
        self.lists.set(lit, place, watcher);
    }

    /// Lets a clause watch a literal in place of a false one.
    fn rewatch(
        &mut self,
        lit: Lit,
        place: usize,
        number: u32,
        other: Lit,
        new: Found,
    ) -> Result<(), NoMemory>
        requires sound { IsSound self.old }
        requires negated { has (lits self.old.trail.steps) (opposite lit) ≡ true }
        requires looked { AreLookedAt self.old lit (place + 1) }
        requires beside { IsBeside self.old lit place number other }
        requires apart { code other ≢ code lit }
        requires clause { IsNumbered self.old number }
        requires new { HasOther self.old number other new.lit }
        ensures advances { IfOk result (λ _. Advances self.old self.new) }
        ensures looked { IfOk result (λ _. AreLookedAt self.new lit place) }
        ensures within { IfOk result (λ _. place ≤ length (watchers_of self.new.lists lit)) }
        ensures sized { OnErr result (IsSized self.new) }
    {
        self.lists.push(
            new.lit,
            Watcher {
                number,
                blocker: other,
                third: third(lits_of(&self.trail, number), new.lit, other),
            },
        )?;
        self.heads[number as usize - 1] = Head {
            first: new.lit,
            second: other,
            look: new.place,
        };
        self.lists.remove(lit, place);
        Ok(())
    }

    /// Makes the other watched literal of a clause true, where all others are false. The answer is the clause's number,
    /// where that one is false too.
    fn force(&mut self, lit: Lit, place: usize, number: u32, other: Lit) -> Option<u32>
        requires sound { IsSound self.old }
        requires looked { AreLookedAt self.old lit (place + 1) }
        requires near { IsNear self.old lit place number other }
        requires clause { IsNumbered self.old number }
        requires not_true { has (lits self.old.trail.steps) other ≡ false }
        requires others { AreOthersFalse self.old number other }
        ensures advances { Advances self.old self.new }
        ensures looked { IfNone result (AreLookedAt self.new lit place) }
        ensures within { IfNone result (place ≤ length (watchers_of self.new.lists lit)) }
        ensures conflict { IfSome result (IsFalse self.new.trail.clauses (lits self.new.trail.steps)) }
    {
        if self.trail.is_false(other) {
            return Some(number);
        }
        self.trail.push(Step {
            lit: other,
            reason: Some(number),
        });
        None
    }
}
