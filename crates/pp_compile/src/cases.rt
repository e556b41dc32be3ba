//! The steps of matches.

ghost use Rattle.std.specs.Prelude.{◌≡◌, ◌<◌, ◌^◌, ℕ, IfOk, List, [], length, map, take};
ghost use Rattle.std.specs.Option.{option_map};
ghost use Rattle.pp_steps.specs.Compile as spec;
ghost use Rattle.pp_steps.specs.Compile.{deciding};
ghost use Rattle.pp_compile.specs.Sites.{arm_at, compile_at};
ghost use Rattle.pp_compile.specs.Written.{IsCased, IsDecided, IsTried, no_case};

use crate::NoMemory;
use crate::calls::Site;
use crate::emit::{all_of, choose, emit, unless, when};
use crate::exprs::{asks, value_of};
use crate::patterns::fit;
use crate::work::{Branch, Goes, Tests, Tried, Work};
use pp_list::Items;
use pp_prog::{Case, CheckId, Expr};
use pp_steps::{Numbers, Step};
use std::alloc::Global;

/// The steps of cases, from the first whose pattern fits the value with this number and whose guard is true.
#[cycle(compile)]
pub(crate) fn case_of(
    alloc: Global,
    site: Site<'_>,
    env: &mut Numbers,
    reach: u32,
    cases: &[Case],
    check: Option<CheckId>,
    value: u32,
    work: &mut Work,
) -> Result<Branch, NoMemory>
    requires { length cases.now < 2 ^ 32 }
    ensures made { IfOk result (λ r. IsCased work.old work.new
        (spec.cases site.entry.asked (map (arm_at site.entry) cases.now) check value
        (length work.old.steps) env.old reach) r) }
    ensures kept { IfOk result (λ _. env.new ≡ env.old) }
{
    match cases.split_first() {
        None => none_fits(work, asks(site.asked, check), reach),
        Some((case, rest)) => {
            let tried = attempt(alloc, site, env, reach, case, value, work)?;
            let right = case_of(alloc, site, env, tried.missed, rest, check, value, work)?;
            let both = choose(work, tried.taken, tried.left, right.out, right.alive)?;
            Ok(Branch {
                out: Some(both.out),
                alive: both.alive,
            })
        }
    }
}

// One case: its pattern, its guard and its body.
#[cycle(compile)]
fn attempt(
    alloc: Global,
    site: Site<'_>,
    env: &mut Numbers,
    reach: u32,
    case: &Case,
    value: u32,
    work: &mut Work,
) -> Result<Tried, NoMemory>
    ensures made { IfOk result (λ r. IsTried work.old work.new
        (arm_at site.entry case.now) value (length work.old.steps) env.old reach r) }
    ensures kept { IfOk result (λ _. env.new ≡ env.old) }
{
    let mut found = Tests {
        tests: Items::new(alloc),
        bound: Items::new(alloc),
    };
    fit(work, &mut found, &case.pattern, value)?;
    let fits = all_of(work, found.tests.as_slice(), reach)?;
    let depth = env.len();
    env.append(found.bound)?;
    let goes = decide(alloc, site, env, reach, &case.guard, fits, work)?;
    let left = value_of(alloc, site, env, goes.taken, &case.body, work)?;
    truncate(env, depth);
    Ok(Tried {
        taken: goes.taken,
        missed: goes.missed,
        left,
    })
}

// Where the case is taken, and where the next one is tried.
#[cycle(compile)]
fn decide(
    alloc: Global,
    site: Site<'_>,
    env: &mut Numbers,
    reach: u32,
    guard: &Option<Expr>,
    fits: u32,
    work: &mut Work,
) -> Result<Goes, NoMemory>
    ensures made { IfOk result (λ r. IsDecided work.old work.new
        (deciding (option_map (compile_at site.entry) guard.now)
        (length work.old.steps) env.old reach fits) r) }
    ensures kept { IfOk result (λ _. env.new ≡ env.old) }
{
    match guard {
        None => {
            let missed = unless(work, reach, fits)?;
            Ok(Goes {
                taken: fits,
                missed,
            })
        }
        Some(guard) => {
            let x = value_of(alloc, site, env, fits, guard, work)?;
            let taken = when(work, x.alive, x.out)?;
            let refused = unless(work, x.alive, x.out)?;
            let missed = emit(work, Step::Choose(fits, refused, reach))?;
            Ok(Goes { taken, missed })
        }
    }
}

// No case is left.
fn none_fits(work: &mut Work, asked: bool, reach: u32) -> Result<Branch, NoMemory>
    ensures { IfOk result (λ r. IsCased work.old work.new (no_case asked (length work.old.steps) reach) r) }
{
    let alive = emit(work, Step::Bool(false))?;
    if asked {
        work.fails.push(reach)?;
    }
    Ok(Branch { out: None, alive })
}

// Keeps the first numbers alone.
fn truncate(env: &mut Numbers, depth: usize)
    ensures { env.new ≡ take depth env.old }
{
    while env.len() > depth {
        let _ = env.pop();
    }
}
