//! The command line as a command of `clap`.

ghost use Rattle.std.specs.Prelude.{◌≡◌, ◌≢◌, [], IfOk, IsErrOf, codes, false};
ghost use Rattle.clap.specs.Words.{app_of, found_of, new_app, rows_of, rule_of, with_rule};
ghost use Rattle.clap.specs.Values.{kind_of};
ghost use Rattle.clap.specs.declared.error.kind.ErrorKind.TheVariants as kind;
ghost use Rattle.pp_words.specs.Command as spec;
ghost use Rattle.pp_words.specs.Told.{texts};

use crate::NoMemory;
use crate::line::WordsFault;
use clap::error::ErrorKind;
use clap::{Arg, ArgAction, ArgMatches, Command, Error};
use std::alloc::Global;

fn option<'a>(alloc: Global, name: &'a str) -> Arg<'a>
    ensures rule { rule_of result ≡ spec.option_rule name.entry.now }
    ensures local { result.global ≡ false }
{
    Arg::new(alloc, name).long(name).action(ArgAction::Set)
}

fn bare<'a>(alloc: Global) -> Command<'a>
    ensures app { app_of result ≡ spec.bare (new_app (codes "pureproof")) }
{
    Command::new(alloc, "pureproof")
        .no_binary_name(true)
        .disable_help_flag(true)
        .disable_version_flag(true)
}

fn with_option<'a>(
    alloc: Global,
    command: Command<'a>,
    name: &'a str,
) -> Result<Command<'a>, NoMemory>
    ensures { IfOk result (λ next. app_of next ≡ with_rule (app_of command.entry) (spec.option_rule name.entry.now)) }
{
    command.arg(option(alloc, name))
}

fn with_limits<'a>(alloc: Global, command: Command<'a>) -> Result<Command<'a>, NoMemory>
    ensures { IfOk result (λ next. app_of next ≡ spec.with_limits (app_of command.entry)) }
{
    let command = with_option(alloc, command, "rounds")?;
    let command = with_option(alloc, command, "depth")?;
    let command = with_option(alloc, command, "lemmas")?;
    with_option(alloc, command, "gates")
}

fn with_run<'a>(alloc: Global, command: Command<'a>) -> Result<Command<'a>, NoMemory>
    ensures { IfOk result (λ next. app_of next ≡ spec.with_run (app_of command.entry)) }
{
    let command = with_option(alloc, command, "function")?;
    with_option(alloc, command, "fuel")
}

fn with_files<'a>(alloc: Global, command: Command<'a>) -> Result<Command<'a>, NoMemory>
    ensures { IfOk result (λ next. app_of next ≡ with_rule (app_of command.entry) spec.file_rule) }
{
    command.arg(Arg::new(alloc, "file").action(ArgAction::Append))
}

#[tactic(auto, unfolding(crate::specs::Command::command))]
fn command<'a>(alloc: Global) -> Result<Command<'a>, NoMemory>
    ensures { IfOk result (λ command. app_of command ≡ spec.command) }
{
    let command = with_option(alloc, bare(alloc), "mode")?;
    let command = with_limits(alloc, command)?;
    let command = with_option(alloc, command, "order")?;
    let command = with_run(alloc, command)?;
    let command = with_option(alloc, command, "seed")?;
    with_files(alloc, command)
}

// What an error of the command means.
fn fault(error: &Error) -> WordsFault
    ensures { result ≡ WordsFault.Refused → kind_of error.now ≢ kind.OutOfMemory }
{
    match error.kind() {
        ErrorKind::OutOfMemory => WordsFault::Memory,
        _ => WordsFault::Refused,
    }
}

/// What the command finds in the words. Refused: a rule of the command is broken.
pub(crate) fn matches<'a>(alloc: Global, words: &'a [&'a str]) -> Result<ArgMatches<'a>, WordsFault>
    ensures taken { IfOk result (λ matches. spec.faults_in (texts words.entry.now) ≡ []) }
    ensures values { IfOk result (λ matches. rows_of (found_of matches) ≡ spec.values_in (texts words.entry.now)) }
    ensures refused { IsErrOf result WordsFault.Refused → spec.faults_in (texts words.entry.now) ≢ [] }
{
    let command = command(alloc)?;
    match command.try_get_matches_from(words) {
        Ok(matches) => Ok(matches),
        Err(error) => Err(fault(&error)),
    }
}
