//! The agreement of open calls: two calls of one function with equal arguments have one answer.

ghost use Rattle.std.specs.Prelude.{◌≡◌, ◌∷◌, ◌++◌, [], IfOk, if◌then◌else◌, length, map, nat_eq, suc};
ghost use Rattle.pp_steps.specs.declared.step.Step.TheVariants as steps;
ghost use Rattle.pp_steps.specs.Guesses.{agreeing, agreeing_with, all_agreeing, answering_alike, equal_all};
ghost use Rattle.pp_steps.specs.Guesses.{equal_answers, implying};
ghost use Rattle.pp_steps.specs.Piece.{plain};
ghost use Rattle.pp_compile.specs.Guessed.{IsAdded, stands};
ghost use Rattle.pp_compile.specs.Written.{IsMade};

use crate::NoMemory;
use crate::emit::{emit, one};
use crate::standing::StandingCall;
use crate::work::{Ends, Work};
use pp_prog::BinaryOp;
use pp_steps::{Numbers, Step};

/// Where the first number is true, so is the second.
pub(crate) fn imply(work: &mut Work, a: u32, b: u32) -> Result<Ends, NoMemory>
    ensures { IfOk result (λ r. IsMade work.old work.new (implying (length work.old.steps) a b) r) }
{
    let not = emit(work, Step::Not(b))?;
    let fails = emit(work, Step::Both(a, not))?;
    one(work, Step::Not(fails), a)
}

// Whether the values are equal at each place, and the number is true.
fn all_equal(work: &mut Work, xs: &[u32], ys: &[u32], test: u32) -> Result<Ends, NoMemory>
    ensures { IfOk result (λ r. IsMade work.old work.new
        (equal_all (length work.old.steps) xs.now ys.now test) r) }
{
    match (xs.split_first(), ys.split_first()) {
        (None, None) => Ok(Ends {
            out: test,
            alive: test,
        }),
        (Some((x, xs)), Some((y, ys))) => {
            let same = emit(work, Step::Binary(BinaryOp::Equal, *x, *y))?;
            let both = emit(work, Step::Both(test, same))?;
            all_equal(work, xs, ys, both)
        }
        _ => one(work, Step::Bool(false), test),
    }
}

// Where both calls are reached and the number is true.
fn both_reached(
    work: &mut Work,
    same: u32,
    c: &StandingCall,
    d: &StandingCall,
) -> Result<Ends, NoMemory>
    ensures { IfOk result (λ r. IsMade work.old work.new
        (plain (steps.Both same c.now.call.reach ∷ steps.Both (length work.old.steps) d.now.call.reach ∷ [])
        (suc (length work.old.steps)) same) r) }
{
    let reached = emit(work, Step::Both(same, c.call.reach))?;
    one(work, Step::Both(reached, d.call.reach), same)
}

// Of calls that wait equally long, both have an answer or none has.
fn answer_alike(
    work: &mut Work,
    supposed: &mut Numbers,
    c: &StandingCall,
    d: &StandingCall,
    near: u32,
) -> Result<(), NoMemory>
    ensures { IfOk result (λ _. IsAdded work.old work.new supposed.old supposed.new
        (answering_alike (nat_eq c.now.call.wait d.now.call.wait) (length work.old.steps)
        (stands c.now) (stands d.now) near)) }
{
    if c.call.wait == d.call.wait {
        let alike = emit(work, Step::Binary(BinaryOp::Equal, c.has, d.has))?;
        let holds = imply(work, near, alike)?;
        supposed.push(holds.out)?;
    }
    Ok(())
}

// Where both have an answer, these are equal.
fn answer_equal(
    work: &mut Work,
    supposed: &mut Numbers,
    c: &StandingCall,
    d: &StandingCall,
    near: u32,
) -> Result<(), NoMemory>
    ensures { IfOk result (λ _. IsAdded work.old work.new supposed.old supposed.new
        (equal_answers (length work.old.steps) (stands c.now) (stands d.now) near)) }
{
    let first = emit(work, Step::Both(near, c.has))?;
    let both = emit(work, Step::Both(first, d.has))?;
    let equal = emit(work, Step::Binary(BinaryOp::Equal, c.result, d.result))?;
    let holds = imply(work, both, equal)?;
    supposed.push(holds.out)?;
    Ok(())
}

// Two calls of one function.
fn agree(
    work: &mut Work,
    supposed: &mut Numbers,
    c: &StandingCall,
    d: &StandingCall,
    true_one: u32,
) -> Result<(), NoMemory>
    ensures { IfOk result (λ _. IsAdded work.old work.new supposed.old supposed.new
        (agreeing (length work.old.steps) (stands c.now) (stands d.now) true_one)) }
{
    let same = all_equal(
        work,
        c.call.args.as_slice(),
        d.call.args.as_slice(),
        true_one,
    )?;
    let near = both_reached(work, same.out, c, d)?;
    answer_alike(work, supposed, c, d, near.out)?;
    answer_equal(work, supposed, c, d, near.out)
}

// Two calls, which agree if they are of one function.
fn agree_if_same(
    work: &mut Work,
    supposed: &mut Numbers,
    c: &StandingCall,
    d: &StandingCall,
    true_one: u32,
) -> Result<(), NoMemory>
    ensures { IfOk result (λ _. IsAdded work.old work.new supposed.old supposed.new
        (if nat_eq c.now.call.callee.0 d.now.call.callee.0
        then agreeing (length work.old.steps) (stands c.now) (stands d.now) true_one else plain [] [] true_one)) }
{
    if c.call.callee.0 == d.call.callee.0 {
        agree(work, supposed, c, d, true_one)
    } else {
        Ok(())
    }
}

// The call with each of these.
fn agree_with(
    work: &mut Work,
    supposed: &mut Numbers,
    c: &StandingCall,
    others: &[StandingCall],
    true_one: u32,
) -> Result<(), NoMemory>
    ensures { IfOk result (λ _. IsAdded work.old work.new supposed.old supposed.new
        (agreeing_with (length work.old.steps) (stands c.now) (map stands others.now) true_one)) }
{
    for d in others {
        agree_if_same(work, supposed, c, d, true_one)?;
    }
    Ok(())
}

// The call with each of these, and then with each of those.
fn agree_with_both(
    work: &mut Work,
    supposed: &mut Numbers,
    c: &StandingCall,
    before: &[StandingCall],
    earlier: &[StandingCall],
    true_one: u32,
) -> Result<(), NoMemory>
    ensures { IfOk result (λ _. IsAdded work.old work.new supposed.old supposed.new
        (agreeing_with (length work.old.steps) (stands c.now) (map stands before.now ++ map stands earlier.now)
        true_one)) }
{
    agree_with(work, supposed, c, before, true_one)?;
    agree_with(work, supposed, c, earlier, true_one)
}

/// Each new call with the old ones and with the new ones before it.
pub(crate) fn agree_all(
    work: &mut Work,
    supposed: &mut Numbers,
    before: &[StandingCall],
    new: &[StandingCall],
    true_one: u32,
) -> Result<(), NoMemory>
    ensures { IfOk result (λ _. IsAdded work.old work.new supposed.old supposed.new
        (all_agreeing (length work.old.steps) (map stands before.now) (map stands new.now) true_one)) }
{
    for i in 0..new.len() {
        agree_with_both(work, supposed, &new[i], before, &new[..i], true_one)?;
    }
    Ok(())
}
