//! How many functions have each verdict: the summary of a report, and its status.

ghost use Rattle.std.specs.Prelude.{◌≡◌, ◌<◌, ◌^◌, IfOk, count_by, length, string_bytes};
ghost use Rattle.pp_modes.specs.Verdicts as spec;

use crate::{NoMemory, Status};
use pp_induct::Verdict;
use pp_print::summary_line;
use std::alloc::Global;

fn is_valid(verdict: &Verdict) -> bool
    ensures { result ≡ spec.is_valid verdict.now }
{
    match verdict {
        Verdict::Valid => true,
        _ => false,
    }
}

fn is_invalid(verdict: &Verdict) -> bool
    ensures { result ≡ spec.is_invalid verdict.now }
{
    match verdict {
        Verdict::Invalid(_) => true,
        _ => false,
    }
}

fn is_open(verdict: &Verdict) -> bool
    ensures { result ≡ spec.is_open verdict.now }
{
    match verdict {
        Verdict::Open(_) => true,
        _ => false,
    }
}

fn is_depending(verdict: &Verdict) -> bool
    ensures { result ≡ spec.is_depending verdict.now }
{
    match verdict {
        Verdict::Depends(_) => true,
        _ => false,
    }
}

/// How many functions have each verdict.
#[derive(Clone, Copy)]
struct Counts {
    valid: u32,
    invalid: u32,
    open: u32,
    depending: u32,
}

fn counts_of(verdicts: &[Verdict]) -> Counts
    requires { length verdicts.now < 2 ^ 32 }
    ensures valid { result.valid ≡ count_by spec.is_valid verdicts.now }
    ensures invalid { result.invalid ≡ count_by spec.is_invalid verdicts.now }
    ensures opens { result.«open» ≡ count_by spec.is_open verdicts.now }
    ensures depending { result.depending ≡ count_by spec.is_depending verdicts.now }
{
    Counts {
        valid: verdicts.iter().filter(|verdict| is_valid(verdict)).count() as u32,
        invalid: verdicts
            .iter()
            .filter(|verdict| is_invalid(verdict))
            .count() as u32,
        open: verdicts.iter().filter(|verdict| is_open(verdict)).count() as u32,
        depending: verdicts
            .iter()
            .filter(|verdict| is_depending(verdict))
            .count() as u32,
    }
}

/// The status of a report with so many functions that are invalid, that are open, and that depend on others.
fn status_for(invalid: u32, open: u32, depending: u32) -> Status
    ensures { result ≡ spec.status_for invalid «open» depending }
{
    if invalid > 0 {
        return Status::SomeInvalid;
    }
    if open > 0 || depending > 0 {
        return Status::SomeOpen;
    }
    Status::AllValid
}

/// The status of a report with these verdicts.
pub(crate) fn status_by(verdicts: &[Verdict]) -> Status
    requires { length verdicts.now < 2 ^ 32 }
    ensures { result ≡ spec.status_by verdicts.now }
{
    let counts = counts_of(verdicts);
    status_for(counts.invalid, counts.open, counts.depending)
}

/// The line on how many functions have each verdict.
pub(crate) fn summary(alloc: Global, verdicts: &[Verdict]) -> Result<String, NoMemory>
    requires { length verdicts.now < 2 ^ 32 }
    ensures { IfOk result (λ line. string_bytes line ≡ spec.summary_by verdicts.now) }
{
    let Counts {
        valid,
        invalid,
        open,
        depending,
    } = counts_of(verdicts);
    summary_line(alloc, valid, invalid, open, depending)
}
