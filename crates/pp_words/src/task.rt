//! What is asked of the program.

ghost use Rattle.std.specs.Prelude.{◌≡◌};
ghost use Rattle.std.specs.Option.{option_map};
ghost use Rattle.pp_words.specs.Task as spec;
ghost use Rattle.pp_words.specs.Task.{listing, making, running, verifying};
ghost use Rattle.pp_words.specs.Told.{given_told, mode_told, task_told};

use crate::given::Given;
use crate::number::{number, number_of};
use crate::order::{Order, order_of};
use pp_limits::{DEPTH, FUEL, GATES, LEAST_SEED, LEMMAS, MOST_SEED, MOST_SOURCES, ROUNDS};

/// How far functions are verified.
#[derive(Clone, Copy, Debug, PartialEq, Eq)]
pub struct Numbers {
    /// The greatest round, 0 to 12.
    pub rounds: u32,
    /// The greatest height of arguments, 1 to 6.
    pub depth: u32,
    /// How many lemmas a query may take, 1 to 1,000,000.
    pub lemmas: u32,
    /// How many gates a round may be estimated at, 1 to 4,000,000.
    pub gates: u32,
}

/// What is asked of the program.
#[derive(Clone, Copy, Debug, PartialEq, Eq)]
pub enum Task<'a> {
    /// Verify each function: in which order its checks are worked on, and how far.
    Verify(Order, Numbers),
    /// List each check with the estimate of a round.
    List {
        /// The round, 0 to 12.
        rounds: u32,
        /// The height of the arguments, 1 to 6.
        depth: u32,
    },
    /// Run a function without parameters.
    Run {
        /// Its printed name, any text.
        function: &'a str,
        /// How many calls may be nested, 0 to 100000.
        fuel: u32,
    },
    /// Make a source, and verify each function of it.
    Make {
        /// What the source is made from, 1 to 200.
        seed: u32,
        /// How far its functions are verified.
        numbers: Numbers,
    },
}

// The modes.
#[derive(Clone, Copy, Debug, PartialEq, Eq)]
enum Mode {
    Verify,
    List,
    Run,
    Make,
}

fn mode_named(name: &str) -> Option<Mode>
    ensures { option_map mode_told result ≡ spec.mode_named name.now }
{
    match name {
        "verify" => Some(Mode::Verify),
        "list" => Some(Mode::List),
        "run" => Some(Mode::Run),
        "make" => Some(Mode::Make),
        _ => None,
    }
}

// Whether there are 1 to 16 files where the mode reads them, and else none.
fn has_files(mode: Mode, given: &Given) -> bool
    ensures { result ≡ spec.has_files (mode_told mode) (given_told given.now) }
{
    let files = given.files.len();
    match mode {
        Mode::Make => files == 0,
        _ => 1 <= files && files <= MOST_SOURCES,
    }
}

// Whether the mode reads each option that is given.
fn reads_all(mode: Mode, given: &Given) -> bool
    ensures { result ≡ spec.reads_all (mode_told mode) (given_told given.now) }
{
    let round = given.rounds.is_none() && given.depth.is_none();
    let limits = given.lemmas.is_none() && given.gates.is_none();
    let order = given.order.is_none();
    let run = given.function.is_none() && given.fuel.is_none();
    let seed = given.seed.is_none();
    match mode {
        Mode::Verify => run && seed,
        Mode::List => limits && order && run && seed,
        Mode::Run => round && limits && order && seed,
        Mode::Make => order && run,
    }
}

fn numbers_in(given: &Given) -> Option<Numbers>
    ensures { result ≡ spec.numbers_in (given_told given.now) }
{
    Some(Numbers {
        rounds: number_of(ROUNDS, given.rounds)?,
        depth: number_of(DEPTH, given.depth)?,
        lemmas: number_of(LEMMAS, given.lemmas)?,
        gates: number_of(GATES, given.gates)?,
    })
}

fn verify<'a>(given: &Given<'a>) -> Option<Task<'a>>
    ensures { option_map task_told result ≡ spec.asked verifying (given_told given.now) }
{
    Some(Task::Verify(order_of(given.order)?, numbers_in(given)?))
}

fn list<'a>(given: &Given<'a>) -> Option<Task<'a>>
    ensures { option_map task_told result ≡ spec.asked listing (given_told given.now) }
{
    Some(Task::List {
        rounds: number_of(ROUNDS, given.rounds)?,
        depth: number_of(DEPTH, given.depth)?,
    })
}

fn run<'a>(given: &Given<'a>) -> Option<Task<'a>>
    ensures { option_map task_told result ≡ spec.asked running (given_told given.now) }
{
    Some(Task::Run {
        function: given.function?,
        fuel: number_of(FUEL, given.fuel)?,
    })
}

fn make<'a>(given: &Given<'a>) -> Option<Task<'a>>
    ensures { option_map task_told result ≡ spec.asked making (given_told given.now) }
{
    Some(Task::Make {
        seed: number(given.seed?, LEAST_SEED, MOST_SEED)?,
        numbers: numbers_in(given)?,
    })
}

// What the values ask in this mode; None where they don't fit it.
fn task_in<'a>(mode: Mode, given: &Given<'a>) -> Option<Task<'a>>
    ensures { option_map task_told result ≡ spec.task_in (mode_told mode) (given_told given.now) }
{
    if !has_files(mode, given) || !reads_all(mode, given) {
        return None;
    }
    match mode {
        Mode::Verify => verify(given),
        Mode::List => list(given),
        Mode::Run => run(given),
        Mode::Make => make(given),
    }
}

/// What the values ask; None where they don't fit together.
pub(crate) fn asked<'a>(given: &Given<'a>) -> Option<Task<'a>>
    ensures { option_map task_told result ≡ spec.task_of (given_told given.now) }
{
    let mode = match given.mode {
        Some(name) => mode_named(name)?,
        None => Mode::Verify,
    };
    task_in(mode, given)
}
