//! In which order variables are decided. The solver's answers are right in any order; this one is a guess at a good
//! one: first come the variables that the caller names, then those that the last conflicts met, each with the sign
//! that it had last. Of equally active ones, which most are that no conflict met, the one with the lowest number comes
//! first: a gate has a greater number than its parts, so most gates follow from what is decided, and few variables are
//! decided that have nothing to do with the next conflict. Some searches get lost there: their lemmas each rule out
//! little more than one assignment of the variables that were met first. So from time to time all activities are
//! forgotten, and the order of equals is turned round.
//!
//! Most variables are met by no conflict. So the heap has those alone that a conflict met or that the caller named; a
//! cursor walks to the others, by their numbers, and goes back where one is let go again. What comes first is the same
//! as if all were in the heap; proved is that all numbers are in range.
ghost use Rattle.std.specs.Prelude.{◌≡◌, ◌+◌, ◌<◌, ◌≤◌, ◌^◌, length, vec_len, IfOk, IfSome, IsTrue};

use crate::NoMemory;
use crate::heap::{Rank, Waiting, is_before, is_ranked, sift_down, sift_up};
use crate::restart::RESTART;
use pp_clause::Lit;
use pp_trail::Step;
use std::alloc::Global;
use std::marker::Model;

/// What a variable gains when a conflict meets it, at the start.
const FIRST_GAIN: u64 = 1 << 20;

/// After how many conflicts all activities are forgotten at first. Each time this takes as many more. It is always at a
/// restart, since the decisions that stayed would lead the search back to where it was lost.
const PATIENCE: u64 = 30 * RESTART as u64;

/// Above this all activities are made smaller, each by the same shift.
const GREATEST_ACTIVITY: u64 = 1 << 60;

/// By how many bits they are made smaller then.
const SHIFT: u32 = 40;

/// Variables that wait to be decided, and the sign that each had last.
#[derive(Drop)]
pub struct Order {
    // by variable
    ranks: Vec<Rank>,
    // by variable: whether it is decided as true
    signs: Vec<bool>,
    // by variable
    waiting: Vec<Waiting>,
    // no variable comes after those at places 2 i + 1 and 2 i + 2 below its place i
    heap: Vec<usize>,
    // no variable that it walks to has a lower number, or a higher one where the order of equals is turned round
    cursor: usize,
    gain: u64,
    // whether the highest number comes first of equals, and not the lowest
    turned: bool,
    // after how many conflicts activities are forgotten
    patience: u64,
    // how many of these are left
    left: u64,
}

impl Model for Order {
    ghost use Rattle.std.specs.Prelude.{ℕ, vec_len};
    ghost use Rattle.pp_cdcl.specs.Order.{IsSized};

    ghost Value = { ℕ };

    ghost view = { λ o. vec_len o.ranks };

    ghost invariant = { λ o. IsSized (vec_len o.ranks) (vec_len o.signs) (vec_len o.waiting) o.heap.items };
}

impl Order {
    /// All variables up to this one, each at first false: those that are named, and of others those with lower numbers
    /// first.
    pub fn new(alloc: Global, vars: u32, first: &[u32]) -> Result<Order, NoMemory>
        ensures { IfOk result (λ order. order ≡ vars + 1) }
    {
        let count = vars as usize + 1;
        let ranks = ranks_of(alloc, count, first)?;
        let signs = vec![in alloc; false; count]?;
        let waiting = vec![in alloc; Waiting::Nowhere; count]?;
        let mut order = Order {
            ranks,
            signs,
            waiting,
            heap: Vec::new(alloc),
            cursor: count,
            gain: FIRST_GAIN,
            turned: false,
            patience: PATIENCE,
            left: PATIENCE,
        };
        for var in 1..count {
            order.queue(var)?;
        }
        Ok(order)
    }

    /// A number above all variables.
    pub fn len(&self) -> usize
        ensures { result ≡ self.now }
    {
        self.ranks.len()
    }

    /// Takes the first variable out, as the literal that is to be decided.
    pub fn pop(&mut self) -> Option<Lit>
        ensures order { self.new ≡ self.old }
        ensures in_range { IfSome result (λ lit. lit.var < self.old) }
    {
        let var = self.take()?;
        self.waiting[var] = Waiting::Nowhere;
        if is_var(var) {
            Some(Lit::new(var as u32, self.signs[var]))
        } else {
            None
        }
    }

    /// The first variable, which isn't in the heap any more.
    fn take(&mut self) -> Option<usize>
        ensures order { self.new ≡ self.old }
        ensures in_range { IfSome result (λ var. var < self.old) }
    {
        match self.ahead() {
            Some(var) => Some(var),
            None => self.take_top(),
        }
    }

    /// The variable that the cursor comes to next, if it comes before those in the heap.
    fn ahead(&mut self) -> Option<usize>
        ensures order { self.new ≡ self.old }
        ensures in_range { IfSome result (λ var. var < self.old) }
    {
        if !self.heap.is_empty() && is_ranked(&self.ranks, self.heap[0]) {
            return None;
        }
        self.walk();
        let next = self.cursor;
        if !is_ahead(&self.waiting, next) {
            return None;
        }
        if !self.heap.is_empty() && is_before(&self.ranks, self.turned, self.heap[0], next) {
            return None;
        }
        Some(next)
    }

    /// Moves the cursor to the next variable that it walks to.
    fn walk(&mut self)
        ensures { self.new ≡ self.old }
    {
        self.cursor = if self.turned {
            next_below(&self.waiting, self.cursor)
        } else {
            next_above(&self.waiting, self.cursor)
        };
    }

    /// Takes the variable on top out of the heap.
    fn take_top(&mut self) -> Option<usize>
        ensures order { self.new ≡ self.old }
        ensures in_range { IfSome result (λ var. var < self.old) }
    {
        let last = self.heap.pop()?;
        if self.heap.is_empty() {
            return Some(last);
        }
        let top = self.heap[0];
        self.heap[0] = last;
        self.waiting[last] = Waiting::Heap(0);
        sift_down(&mut self.heap, &mut self.waiting, &self.ranks, self.turned);
        Some(top)
    }

    /// Lets the variables of steps wait again, which are taken off the trail.
    pub fn release(&mut self, steps: &[Step]) -> Result<(), NoMemory> {
        for step in steps {
            self.requeue(step.lit)?;
        }
        Ok(())
    }

    /// Lets the variable of a literal wait again, with its sign.
    fn requeue(&mut self, lit: Lit) -> Result<(), NoMemory> {
        let var = lit.var() as usize;
        if var < self.signs.len() {
            self.signs[var] = lit.is_positive();
            self.queue(var)?;
        }
        Ok(())
    }

    /// Makes the variables more active that a conflict met. Later conflicts count more than earlier ones.
    pub fn bump_all(&mut self, vars: &[u32]) {
        for var in vars {
            self.bump(*var);
        }
        self.gain = self.gain.saturating_add(self.gain / 16);
        self.left = self.left.saturating_sub(1);
        if self.left == 0 {
            self.turn();
        }
    }

    /// Makes a variable more active. One that the cursor walks to isn't put into the heap here: what a conflict met has
    /// a value, and is looked at again when it is let go.
    fn bump(&mut self, var: u32) {
        let var = var as usize;
        if var < self.ranks.len() {
            let raised = self.ranks[var].activity.saturating_add(self.gain);
            self.ranks[var].activity = raised;
            if let Waiting::Heap(place) = self.waiting[var] {
                sift_up(
                    &mut self.heap,
                    &mut self.waiting,
                    &self.ranks,
                    self.turned,
                    place,
                );
            }
            if raised > GREATEST_ACTIVITY {
                self.shrink();
            }
        }
    }

    /// Makes all activities smaller. Those that differ little become the same.
    fn shrink(&mut self) {
        for rank in self.ranks.iter_mut() {
            rank.activity >>= SHIFT;
        }
        self.gain = (self.gain >> SHIFT).max(1);
        self.restore();
    }

    /// Forgets all activities, and turns the order of equals round.
    fn turn(&mut self) {
        for rank in self.ranks.iter_mut() {
            rank.activity = 0;
        }
        self.gain = FIRST_GAIN;
        self.turned = !self.turned;
        self.cursor = if self.turned { self.ranks.len() } else { 0 };
        self.patience = self.patience.saturating_add(PATIENCE);
        self.left = self.patience;
        self.restore();
    }

    /// Puts the heap in order again.
    fn restore(&mut self) {
        for place in 0..self.heap.len() {
            sift_up(
                &mut self.heap,
                &mut self.waiting,
                &self.ranks,
                self.turned,
                place,
            );
        }
    }

    /// Lets the variable wait, in the heap where a conflict met it or the caller named it.
    fn queue(&mut self, var: usize) -> Result<(), NoMemory>
        requires { var < self.old }
        ensures { self.new ≡ self.old }
    {
        if let Waiting::Heap(_) = self.waiting[var] {
            return Ok(());
        }
        if is_ranked(&self.ranks, var) {
            self.push(var)
        } else {
            self.put_ahead(var);
            Ok(())
        }
    }

    /// Puts the variable into the heap.
    fn push(&mut self, var: usize) -> Result<(), NoMemory>
        requires { var < self.old }
        ensures { self.new ≡ self.old }
    {
        let place = self.heap.len();
        self.heap.push(var)?;
        self.waiting[var] = Waiting::Heap(place);
        sift_up(
            &mut self.heap,
            &mut self.waiting,
            &self.ranks,
            self.turned,
            place,
        );
        Ok(())
    }

    /// Lets the cursor walk to the variable.
    fn put_ahead(&mut self, var: usize)
        requires { var < self.old }
        ensures { self.new ≡ self.old }
    {
        self.waiting[var] = Waiting::Ahead;
        self.cursor = if self.turned {
            self.cursor.max(var)
        } else {
            self.cursor.min(var)
        };
    }
}

/// Whether a variable may have this number.
fn is_var(number: usize) -> bool
    ensures { IsTrue result → (1 ≤ number) × (number ≤ 2 ^ 30) }
{
    0 < number && number <= 1 << 30
}

/// Whether this is a variable that the cursor walks to.
fn is_ahead(waiting: &[Waiting], var: usize) -> bool
    ensures { IsTrue result → var < length waiting.now }
{
    if var >= waiting.len() {
        return false;
    }
    match waiting[var] {
        Waiting::Ahead => true,
        Waiting::Nowhere | Waiting::Heap(_) => false,
    }
}

/// The next number from here on upward that the cursor walks to, or how many there are where there is none.
fn next_above(waiting: &[Waiting], from: usize) -> usize {
    for var in from..waiting.len() {
        if is_ahead(waiting, var) {
            return var;
        }
    }
    waiting.len()
}

/// The next number from here on downward that the cursor walks to, or 0.
fn next_below(waiting: &[Waiting], from: usize) -> usize {
    let mut var = from;
    while 0 < var && !is_ahead(waiting, var) {
        var -= 1;
    }
    var
}

/// The ranks of so many variables, of which these come first. Numbers of no variable are passed over.
fn ranks_of(alloc: Global, count: usize, first: &[u32]) -> Result<Vec<Rank>, NoMemory>
    ensures { IfOk result (λ r. vec_len r ≡ count) }
{
    let last = Rank {
        first: false,
        activity: 0,
    };
    let mut ranks = vec![in alloc; last; count]?;
    for var in first {
        if (*var as usize) < ranks.len() {
            ranks[*var as usize].first = true;
        }
    }
    Ok(ranks)
}
