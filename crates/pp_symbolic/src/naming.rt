//! How many values have to be named, so that a domain can follow the steps of a guess run.

ghost use Rattle.std.specs.Prelude.{◌≡◌, length};
ghost use Rattle.pp_guess_values.specs.NamedGuess.{looked_at, all_looked_at};
ghost use Rattle.pp_symbolic.specs.Naming.{more_than_named, most_fields};

use pp_prog::TypeTable;
use pp_steps::Step;

/// One more than the values that have to be named for these steps, at most 2^30: for each step a default and its value,
/// and for each look as many fields as any constructor has.
pub(crate) fn values_to_name(table: &TypeTable, steps: &[Step]) -> u64
    ensures { result ≡ more_than_named table.now steps.now }
{
    let of_steps = (steps.len() as u64).saturating_mul(2);
    let of_looks = widest(table).saturating_mul(looks(steps));
    of_steps
        .saturating_add(of_looks)
        .saturating_add(1)
        .min(1 << 30)
}

/// As many fields as a constructor of the table has at most.
fn widest(table: &TypeTable) -> u64
    ensures { result ≡ most_fields table.now }
{
    let mut most: u64 = 0;
    for ctor in table.ctors.as_slice() {
        most = most.max(ctor.fields.as_slice().len() as u64);
    }
    most
}

/// How many trees the steps look at, each as often as they do.
fn looks(steps: &[Step]) -> u64
    ensures { result ≡ length (all_looked_at steps.now) }
{
    let mut count = 0;
    for step in steps {
        count += looks_of(step);
    }
    count
}

/// How many trees the step looks at: one or none.
fn looks_of(step: &Step) -> u64
    ensures { result ≡ length (looked_at step.now) }
{
    match step {
        Step::IsCtor(..) | Step::Field(..) => 1,
        _ => 0,
    }
}
