//! The values that the words give.

ghost use Rattle.std.specs.Prelude.{◌≡◌, IfOk, [], codes, unwrap_or};
ghost use Rattle.clap.specs.Words.{all_of, found_of, rows_of};
ghost use Rattle.pp_words.specs.Line.{given_in};
ghost use Rattle.pp_words.specs.Told.{given_told, texts};

use crate::NoMemory;
use clap::ArgMatches;
use std::alloc::Global;

/// The values that the words give, as they are written.
#[derive(Drop)]
pub(crate) struct Given<'a> {
    pub mode: Option<&'a str>,
    pub rounds: Option<&'a str>,
    pub depth: Option<&'a str>,
    pub lemmas: Option<&'a str>,
    pub gates: Option<&'a str>,
    pub order: Option<&'a str>,
    pub function: Option<&'a str>,
    pub fuel: Option<&'a str>,
    pub seed: Option<&'a str>,
    pub files: Vec<&'a str>,
}

fn files<'a>(alloc: Global, matches: &ArgMatches<'a>) -> Result<Vec<&'a str>, NoMemory>
    ensures { IfOk result (λ files. texts files.items ≡ unwrap_or
        (all_of (codes "file") (rows_of (found_of matches.now))) []) }
{
    match matches.get_raw("file") {
        Some(files) => Vec::from_slice(alloc, files),
        None => Ok(Vec::new(alloc)),
    }
}

/// The values that a command found in the words.
pub(crate) fn values<'a>(alloc: Global, matches: &ArgMatches<'a>) -> Result<Given<'a>, NoMemory>
    ensures { IfOk result (λ given. given_told given ≡ given_in (rows_of (found_of matches.now))) }
{
    let files = files(alloc, matches)?;
    Ok(Given {
        mode: matches.get_str("mode"),
        rounds: matches.get_str("rounds"),
        depth: matches.get_str("depth"),
        lemmas: matches.get_str("lemmas"),
        gates: matches.get_str("gates"),
        order: matches.get_str("order"),
        function: matches.get_str("function"),
        fuel: matches.get_str("fuel"),
        seed: matches.get_str("seed"),
        files,
    })
}
