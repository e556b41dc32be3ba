//! Checks that are open for the size of their rounds, proved together. That no guess run of the last round fails such a
//! check is told at little cost, that no run does isn't. But where each check of a function's cone is settled, or such
//! that no guess run of a round fails it, each function of the cone is good, so that no run fails a check of it.

ghost use Rattle.std.specs.Prelude.{◌≡◌, ◌↔◌, ◌<◌, ◌≤◌, ℕ, IfOk, IsTrue, OnOk, length};
ghost use Rattle.pp_limits.specs.declared.TheConstants.{ROUNDS};
ghost use Rattle.pp_checks.specs.Plan.{IsPlanOf};
ghost use Rattle.pp_induct.specs.declared.ends.Why.TheVariants.{Size};
ghost use Rattle.pp_induct.specs.Reports.{AreEnds, AreLimits};
ghost use Rattle.pp_induct.specs.Reports as reports;
ghost use Rattle.pp_induction.specs.Ends.{NoGuessFails};
ghost use Rattle.pp_prog.specs.declared.id.CheckId.{CheckId as AnyCheck};
ghost use Rattle.pp_prog.specs.declared.program.Program.{Program as AnyProgram};
ghost use Rattle.pp_sound.specs.Sound.{IsCheckOf};
ghost use Rattle.pp_verify.specs.Cones.{AreKeptOrProved};
ghost use Rattle.pp_verify.specs.GivenUp.{AreGivenUp, GivesUpOthers, HasHope, HasNoGuess, HasProof, HasTriedSize};
ghost use Rattle.pp_verify.specs.GivenUp as spec;
ghost use Rattle.pp_verify.specs.GivenUp.{HoldsOfOthers, IsAsked, IsLargeAt, IsLargeEnd};

use crate::NoMemory;
use crate::given_up::{GivenUp, give_up_unless, is_given_up, none_given_up};
use pp_checks::Plan;
use pp_estimate::Estimates;
use pp_induct::{CheckEnd, Ends, FRONTED_ABOVE, Limits, Why};
use pp_list::at;
use pp_prog::{CheckId, FunctionId, Program};
use pp_query::demanded_guesses_refuted;
use std::alloc::Global;

/// How many checks of a program are asked of in vain, before no more are.
const MOST_IN_VAIN: u32 = 16;

/// Proves checks that are open for the size of their rounds, in the last asked round: where it is refuted by cases that
/// a guess run fails such a check, and each other check of its function's cone is settled, or such too. The round that
/// ended it was left to the fronts, as each later one is, and its function isn't closed in the last. Every other end
/// stays as it is. Once too many checks were asked of in vain, no more are. The only error is want of memory.
pub fn prove_cones(
    alloc: Global,
    program: &Program,
    plan: &Plan,
    limits: Limits,
    ends: Ends,
) -> Result<Ends, NoMemory>
    requires plan { IsPlanOf plan.now program.now }
    requires limits { AreLimits limits }
    requires size { length ends ≡ length program.now.checks }
    requires ends { AreEnds program.now limits ends }
    ensures size { IfOk result (λ after. length after ≡ length program.now.checks) }
    ensures ends { IfOk result (λ after. AreEnds program.now limits after) }
    ensures kept { IfOk result (λ after. AreKeptOrProved limits ends after) }
{
    if !is_any_large(ends.as_slice()) {
        return Ok(ends);
    }
    let given_up = functions_given_up(alloc, program, plan, limits, ends.as_slice())?;
    Ok(prove_others(program, limits, ends, given_up.as_slice()))
}

/// Whether some check ended open by its size.
fn is_any_large(ends: &[CheckEnd]) -> bool
    ensures { IsTrue result ↔ ((c : ℕ) × IsLargeAt ends.now c) }
{
    for c in 0..ends.len() {
        if is_large_at(ends, c) {
            return true;
        }
    }
    false
}

/// Whether the check with this number ended open by its size.
fn is_large_at(ends: &[CheckEnd], c: usize) -> bool
    ensures { IsTrue result ↔ IsLargeAt ends.now c }
{
    match at(ends, c) {
        None => false,
        Some(end) => is_large(end),
    }
}

/// Whether the check ended open by its size.
fn is_large(end: &CheckEnd) -> bool
    ensures { IsTrue result ↔ IsLargeEnd end.now }
{
    match end {
        CheckEnd::Open { why, .. } => is_size(why),
        _ => false,
    }
}

fn is_size(why: &Why) -> bool
    ensures { IsTrue result ↔ (why.now ≡ Size) }
{
    match why {
        Why::Size => true,
        _ => false,
    }
}

/// Whether the check with this number ended open by its size, and the function isn't given up.
fn is_asked(ends: &[CheckEnd], given_up: &[bool], f: FunctionId, c: usize) -> bool
    ensures { IsTrue result ↔ IsAsked ends.now given_up.now f.0 c }
{
    is_large_at(ends, c) && !is_given_up(given_up, f)
}

/// The functions that are given up. Each check of another one that ended open by its size is proved in the last round.
fn functions_given_up(
    alloc: Global,
    program: &Program,
    plan: &Plan,
    limits: Limits,
    ends: &[CheckEnd],
) -> Result<GivenUp, NoMemory>
    requires plan { IsPlanOf plan.now program.now }
    requires limits { AreLimits limits }
    requires size { length ends.now ≡ length program.now.checks }
    requires ends { AreEnds program.now limits ends.now }
    ensures { IfOk result (λ marks. HoldsOfOthers program.now ends.now (HasProof program.now limits)
        (length program.now.checks) marks) }
{
    let mut given_up = none_given_up(alloc, program)?;
    give_up_by_ends(program, plan, limits, ends, &mut given_up);
    give_up_by_sizes(alloc, program, plan, limits, ends, &mut given_up)?;
    give_up_by_guesses(alloc, program, plan, limits, ends, &mut given_up)?;
    Ok(given_up)
}

/// Gives up the functions of checks that by their ends won't be settled.
fn give_up_by_ends(
    program: &Program,
    plan: &Plan,
    limits: Limits,
    ends: &[CheckEnd],
    given_up: &mut GivenUp,
)
    requires plan { IsPlanOf plan.now program.now }
    requires size { length ends.now ≡ length program.now.checks }
    requires marks { AreGivenUp program.now given_up.old }
    ensures { GivesUpOthers program.now ends.now (HasHope program.now limits) (length program.now.checks)
        given_up.old given_up.new }
{
    let checks = program.checks();
    for c in 0..checks.len() {
        let f = checks[c].function;
        let hope = has_hope(plan, limits, f, &ends[c]);
        give_up_unless(program, plan, hope, f, given_up);
    }
}

/// Whether by its end the check, which is one of this function, is settled, or it is open by its size and the function
/// isn't closed in the last round.
fn has_hope(plan: &Plan, limits: Limits, f: FunctionId, end: &CheckEnd) -> bool
    ensures { (p : AnyProgram) → IsPlanOf plan.now p → f.0 < length p.functions → IsTrue result
        → (c : AnyCheck) → HasHope p limits f.0 c end.now }
{
    match end {
        CheckEnd::Proved(_) => true,
        CheckEnd::Exhausted(_) => true,
        _ => is_large(end) && !plan.closed(f, limits.rounds, limits.depth),
    }
}

/// Gives up the functions of checks that are open by their size, where the round that ended them isn't left to the
/// fronts.
fn give_up_by_sizes(
    alloc: Global,
    program: &Program,
    plan: &Plan,
    limits: Limits,
    ends: &[CheckEnd],
    given_up: &mut GivenUp,
) -> Result<(), NoMemory>
    requires plan { IsPlanOf plan.now program.now }
    requires limits { AreLimits limits }
    requires size { length ends.now ≡ length program.now.checks }
    requires ends { AreEnds program.now limits ends.now }
    requires marks { AreGivenUp program.now given_up.old }
    ensures { OnOk result (GivesUpOthers program.now ends.now (HasTriedSize program.now limits)
        (length program.now.checks) given_up.old given_up.new) }
{
    let checks = program.checks();
    let mut estimates = Estimates::new(alloc)?;
    for c in 0..checks.len() {
        let f = checks[c].function;
        if is_asked(ends, given_up.as_slice(), f, c) {
            let round = round_after(&ends[c]);
            let check = CheckId(c as u32);
            let size = estimates.of(alloc, program, plan, check, round, limits.depth)?;
            give_up_unless(program, plan, size > FRONTED_ABOVE, f, given_up);
        }
    }
    Ok(())
}

/// The round after those that were searched of the check, where it is open.
fn round_after(end: &CheckEnd) -> u32
    requires { spec.round_after end.now ≤ ROUNDS.most }
    ensures { result ≡ spec.round_after end.now }
{
    match end {
        CheckEnd::Open { searched, .. } => next_round(*searched),
        _ => 0,
    }
}

fn next_round(searched: Option<u32>) -> u32
    requires { reports.next_round searched ≤ ROUNDS.most }
    ensures { result ≡ reports.next_round searched }
{
    match searched {
        None => 0,
        Some(n) => n + 1,
    }
}

/// Gives up the functions of checks that are open by their size, where a guess run of the last round may fail them.
fn give_up_by_guesses(
    alloc: Global,
    program: &Program,
    plan: &Plan,
    limits: Limits,
    ends: &[CheckEnd],
    given_up: &mut GivenUp,
) -> Result<(), NoMemory>
    requires plan { IsPlanOf plan.now program.now }
    requires limits { AreLimits limits }
    requires marks { AreGivenUp program.now given_up.old }
    ensures { OnOk result (GivesUpOthers program.now ends.now (HasNoGuess program.now limits)
        (length program.now.checks) given_up.old given_up.new) }
{
    let checks = program.checks();
    let mut left = MOST_IN_VAIN;
    for c in 0..checks.len() {
        let f = checks[c].function;
        if is_asked(ends, given_up.as_slice(), f, c) {
            let check = CheckId(c as u32);
            let refuted = is_refuted(alloc, program, plan, limits, check, &mut left)?;
            give_up_unless(program, plan, refuted, f, given_up);
        }
    }
    Ok(())
}

/// Whether it is refuted that a guess run of the last round fails the check. That isn't asked where no more may be
/// asked in vain.
fn is_refuted(
    alloc: Global,
    program: &Program,
    plan: &Plan,
    limits: Limits,
    check: CheckId,
    left: &mut u32,
) -> Result<bool, NoMemory>
    requires plan { IsPlanOf plan.now program.now }
    requires limits { AreLimits limits }
    requires check { check.0 < length program.now.checks }
    ensures { IfOk result (λ refuted. IsTrue refuted → (i : ℕ) → IsCheckOf program.now i check.0
        → NoGuessFails program.now i check limits.rounds) }
{
    if *left == 0 {
        return Ok(false);
    }
    let refuted = demanded_guesses_refuted(alloc, program, plan, check, limits.rounds)?;
    if !refuted {
        *left -= 1;
    }
    Ok(refuted)
}

/// The ends, where the checks that are open by their size are proved, but not those of functions that are given up.
fn prove_others(program: &Program, limits: Limits, ends: Ends, given_up: &[bool]) -> Ends
    requires size { length ends ≡ length program.now.checks }
    requires ends { AreEnds program.now limits ends }
    requires others { HoldsOfOthers program.now ends (HasProof program.now limits) (length program.now.checks)
        given_up.now }
    ensures size { length result ≡ length program.now.checks }
    ensures ends { AreEnds program.now limits result }
    ensures kept { AreKeptOrProved limits ends result }
{
    let checks = program.checks();
    let mut after = ends;
    for c in 0..checks.len() {
        if is_asked(after.as_slice(), given_up, checks[c].function, c) {
            after.set(c, CheckEnd::Proved(limits.rounds));
        }
    }
    after
}
