//! The watchers of each literal.
ghost use Rattle.std.specs.Prelude.{◌≡◌, ◌+◌, ◌*◌, ◌<◌, [], ◌∷◌, ◌++◌, length, replicate, slice_index_or, slice_set};
ghost use Rattle.std.specs.Prelude.{IfOk, OnOk};
ghost use Rattle.std.specs.List.{swap_remove};
ghost use Rattle.pp_clause.specs.Literal.{Literal};
ghost use Rattle.pp_trail.specs.Marks.{code};
ghost use Rattle.pp_watch.specs.Lists.{watchers_of, with_watchers};

use crate::NoMemory;
use crate::watcher::Watcher;
use pp_clause::{Clauses, Lit};
use std::alloc::Global;
use std::marker::Model;

/// For each literal the watchers that stand in its list.
#[derive(Drop)]
pub struct Lists {
    // by the literal's index
    items: Vec<Vec<Watcher>>,
}

impl Model for Lists {
    ghost use Rattle.std.specs.Prelude.{List, map};
    ghost use Rattle.pp_watch.specs.declared.watcher.Watcher.{Watcher};

    ghost Value = { List (List Watcher) };

    ghost view = { λ l. map (λ ws. ws.items) l.items.items };
}

impl Lists {
    /// An empty list for each literal of the variables up to this one, with room for the clauses that have it. So the
    /// lists stand in memory in order, and none of these clauses makes one grow.
    pub fn over(alloc: Global, clauses: &Clauses, vars: u32) -> Result<Lists, NoMemory>
        ensures { IfOk result (λ l. l ≡ replicate (2 * vars + 2) []) }
    {
        let count = 2 * vars as usize + 2;
        let room = occurrences(alloc, clauses, count)?;
        let mut items = Vec::with_capacity(alloc, count)?;
        for index in 0..count {
            items.push(Vec::with_capacity(alloc, room[index])?)?;
        }
        Ok(Lists { items })
    }

    /// How many watchers the literal has.
    pub fn count(&self, lit: Lit) -> usize
        requires { code lit < length self.now }
        ensures { result ≡ length (watchers_of self.now lit) }
    {
        self.items[lit.index()].len()
    }

    /// The literal's watcher at this place.
    pub fn get(&self, lit: Lit, place: usize) -> Watcher
        requires within { code lit < length self.now }
        requires place { place < length (watchers_of self.now lit) }
        ensures { result ≡ slice_index_or (watchers_of self.now lit) place result }
    {
        self.items[lit.index()][place]
    }

    /// Adds a watcher of the literal, at the end.
    pub fn push(&mut self, lit: Lit, watcher: Watcher) -> Result<(), NoMemory>
        requires { code lit < length self.old }
        ensures ok { OnOk result (self.new ≡ with_watchers self.old lit (watchers_of self.old lit ++ watcher ∷ [])) }
        ensures len { length self.new ≡ length self.old }
    {
        self.items[lit.index()].push(watcher)?;
        Ok(())
    }

    /// Takes the literal's watcher at this place away. The last one takes its place.
    pub fn remove(&mut self, lit: Lit, place: usize) -> Watcher
        requires within { code lit < length self.old }
        requires place { place < length (watchers_of self.old lit) }
        ensures value { result ≡ slice_index_or (watchers_of self.old lit) place result }
        ensures lists { self.new ≡ with_watchers self.old lit (swap_remove (watchers_of self.old lit) place result) }
    {
        self.items[lit.index()].swap_remove(place)
    }

    /// Puts a watcher in the place of the literal's watcher at this place.
    pub fn set(&mut self, lit: Lit, place: usize, watcher: Watcher)
        requires within { code lit < length self.old }
        requires place { place < length (watchers_of self.old lit) }
        ensures { self.new ≡ with_watchers self.old lit (slice_set (watchers_of self.old lit) place watcher) }
    {
        self.items[lit.index()][place] = watcher;
    }

    /// Takes all watchers away.
    pub fn clear(&mut self)
        ensures len { length self.new ≡ length self.old }
        ensures none { (l : Literal) → watchers_of self.new l ≡ [] }
    {
        for list in self.items.iter_mut() {
            list.clear();
        }
    }
}

/// How many times each literal stands in the clauses, by index, for the indices below `count`.
fn occurrences(alloc: Global, clauses: &Clauses, count: usize) -> Result<Vec<usize>, NoMemory>
    ensures { IfOk result (λ v. length v.items ≡ count) }
{
    let mut found: Vec<usize> = vec![in alloc; 0; count]?;
    for place in 0..clauses.len() {
        for lit in clauses.get(place as u32 + 1).lits() {
            if lit.index() < found.len() {
                found[lit.index()] = found[lit.index()].saturating_add(1);
            }
        }
    }
    Ok(found)
}
