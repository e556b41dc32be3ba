//! Refutations by cases.

ghost use Rattle.std.specs.Prelude.{◌≡◌, ◌<◌, ◌≤◌, ◌^◌, ℕ, true, All, IfOk, List, length};
ghost use Rattle.pp_steps.specs.declared.step.Step.{Step as AnyStep};
ghost use Rattle.pp_steps.specs.Meaning.{bit};
ghost use Rattle.pp_closure.specs.Facts.{Holds};
ghost use Rattle.pp_closure.specs.Refuted.{Denies, IsRefutation};
ghost use Rattle.pp_closure.specs.Valuation.{IsTrueIn, Valuation};

use crate::NoMemory;
use crate::agenda::Agenda;
use crate::closing::close;
use crate::facts::Facts;
use crate::seen::Seen;
use crate::undecided::{least_undecided, undecided};
use crate::wanted::{Unfoldables, Wishes};
use pp_list::Items;
use pp_prog::TypeTable;
use pp_steps::Step;
use std::alloc::Global;

/// How many cases are tried at most, and how many may be open at once; of calls that are unfolded on demand more, since
/// each test of a match is a case.
const MOST_CASES: u32 = 400;

const DEEPEST: u32 = 12;

const DEEPEST_ON_DEMAND: u32 = 60;

/// How much work is done at most. No option bounds it, so the limit has to: it is some tenths of a second.
const MOST_WORK: u64 = 10_000_000;

/// What all cases share: which steps are due, which were seen, how many cases may still be tried, and, where calls are
/// unfolded on demand, which are wanted.
#[derive(Drop)]
struct Work {
    agenda: Agenda,
    seen: Seen,
    left: u32,
    wishes: Option<Wishes>,
}

/// What comes of steps some of whose calls may be unfolded: they are refuted; or it isn't known, and these places of
/// what may be unfolded are wanted, which may be none, and so much work is left. Source: own.
#[derive(Drop)]
pub enum Refutation {
    Refuted,
    Unknown { wanted: Items<u32>, left: u64 },
}

/// Whether no values of the steps make those with these numbers true. Where it answers `false` nothing is known: it
/// gives up after so many cases, and at what it has no rule for. The only error is want of memory.
pub fn refuted(
    alloc: Global,
    table: &TypeTable,
    all: &[Step],
    fails: u32,
    supposed: &[u32],
) -> Result<bool, NoMemory>
    ensures { IfOk result (λ r. r ≡ true → Denies all.now fails supposed.now) }
{
    if all.len() > u32::MAX as usize {
        return Ok(false);
    }
    let facts = supposed_facts(alloc, all, fails, supposed)?;
    let mut work = Work {
        agenda: Agenda::new(alloc, all, MOST_WORK)?,
        seen: Seen::new(alloc),
        left: MOST_CASES,
        wishes: None,
    };
    by_cases(alloc, table, all, facts, &mut work, DEEPEST)
}

/// Whether no values of the steps make those with these numbers true; and else which calls are to be unfolded, so that
/// it may become known. Of these nothing is promised. The only error is want of memory.
pub fn refute_on_demand(
    alloc: Global,
    table: &TypeTable,
    all: &[Step],
    fails: u32,
    supposed: &[u32],
    calls: Unfoldables,
) -> Result<Refutation, NoMemory>
    ensures { IfOk result (IsRefutation all.now fails supposed.now) }
{
    if all.len() > u32::MAX as usize {
        return Ok(unknown(Items::new(alloc), 0));
    }
    let facts = supposed_facts(alloc, all, fails, supposed)?;
    let mut work = Work {
        agenda: Agenda::new(alloc, all, calls.work)?,
        seen: Seen::new(alloc),
        left: MOST_CASES,
        wishes: Some(Wishes::new(alloc, calls)),
    };
    if by_cases(alloc, table, all, facts, &mut work, DEEPEST_ON_DEMAND)? {
        return Ok(Refutation::Refuted);
    }
    let Work { agenda, wishes, .. } = work;
    let left = agenda.left();
    match wishes {
        Some(wishes) => Ok(unknown(wishes.wanted, left)),
        None => Ok(unknown(Items::new(alloc), left)),
    }
}

fn unknown(wanted: Items<u32>, left: u64) -> Refutation
    ensures { (ss : List AnyStep) (fails : ℕ) (supposed : List ℕ) → IsRefutation ss fails supposed result }
{
    Refutation::Unknown { wanted, left }
}

/// What is supposed, as facts. The only error is want of memory.
fn supposed_facts(
    alloc: Global,
    all: &[Step],
    fails: u32,
    supposed: &[u32],
) -> Result<Facts, NoMemory>
    requires { length all.now < 2 ^ 32 }
    ensures { IfOk result (λ f. (v : Valuation all.now) → IsTrueIn v fails → All (IsTrueIn v) supposed.now
        → Holds v.values f) }
{
    let mut facts = Facts::new(alloc, all.len() as u32)?;
    facts.assume(fails, true);
    for number in supposed {
        facts.assume(*number, true);
    }
    Ok(facts)
}

/// Whether the facts hold of no values of the steps, by the cases that are left, of which at most so many may be open
/// at once. Where calls are unfolded on demand a case that isn't refuted ends nothing, so that other ones may want calls
/// too.
fn by_cases(
    alloc: Global,
    table: &TypeTable,
    all: &[Step],
    mut facts: Facts,
    work: &mut Work,
    depth: u32,
) -> Result<bool, NoMemory>
    requires { length all.now ≤ 2 ^ 32 }
    ensures { IfOk result (λ r. r ≡ true → (v : Valuation all.now) → Holds v.values facts → ⊥) }
{
    let mut missed = false;
    for _ in 0..MOST_CASES {
        close(alloc, &mut facts, all, &mut work.agenda, &mut work.seen)?;
        if facts.refuted {
            work.agenda.clear();
            return Ok(!missed);
        }
        if depth == 0 || work.is_spent() {
            return Ok(false);
        }
        match work.next_test(alloc, table, all, &facts)? {
            None => return Ok(false),
            Some(test) => {
                let mut other = facts.copy(alloc)?;
                work.agenda.go_over();
                other.assume(test, false);
                let so_far = work.seen.so_far();
                if !by_cases(alloc, table, all, other, work, depth - 1)? {
                    if !work.may_go_on() {
                        return Ok(false);
                    }
                    missed = true;
                    work.agenda.clear();
                }
                work.seen.take_back(so_far)?;
                facts.assume(test, true);
            }
        }
    }
    Ok(false)
}

impl Work {
    /// Whether no case more may be tried.
    fn is_spent(&self) -> bool {
        self.left == 0 || self.agenda.is_spent()
    }

    /// Whether cases are tried beside one that wasn't refuted.
    fn may_go_on(&self) -> bool {
        match &self.wishes {
            Some(wishes) => wishes.are_few() && !self.is_spent(),
            None => false,
        }
    }

    /// The test that is decided next, if a case is to be tried: none where calls are wanted first, or where nothing is
    /// left to decide. The only error is want of memory.
    fn next_test(
        &mut self,
        alloc: Global,
        table: &TypeTable,
        all: &[Step],
        facts: &Facts,
    ) -> Result<Option<u32>, NoMemory> {
        self.left = self.left.saturating_sub(1);
        self.agenda.go_over();
        match &mut self.wishes {
            None => Ok(undecided(table, all, facts)),
            Some(wishes) => next_on_demand(alloc, all, facts, wishes),
        }
    }
}

/// The test that is decided next, unless calls are wanted first; where nothing is left to decide another call is wanted.
/// The only error is want of memory.
fn next_on_demand(
    alloc: Global,
    all: &[Step],
    facts: &Facts,
    wishes: &mut Wishes,
) -> Result<Option<u32>, NoMemory> {
    if wishes.enter(alloc, all, facts)? {
        return Ok(None);
    }
    let test = least_undecided(all, facts);
    if test.is_none() {
        wishes.enter_last(alloc, all, facts)?;
    }
    Ok(test)
}
