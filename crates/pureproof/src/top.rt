//! The top call.

ghost use Rattle.std.specs.Prelude.{◌≡◌, List, ℕ};
ghost use Rattle.pp_words.specs.Told.{texts};
ghost use Rattle.pureproof.specs.Ends.{Comes, Ends, Fetched, InvalidFail, MadeIsReadBack, OpenAreSearched};
ghost use Rattle.pureproof.specs.Ends.{TextIsReadBack, ValidLinesAreTrue, Verifies, the_run};
ghost use Rattle.pureproof.specs.Fetched.{told};
ghost use Rattle.pureproof.specs.Shown.{took};

use crate::Status;
use crate::responding::due;
use crate::show::{put_refusal, put_response};
use pp_print::memory_line;
use pp_seam::{Shelf, Sink};
use std::alloc::Global;

// Responds, and shows.
fn carry_out<'a, S: Shelf, K: Sink, E: Sink>(
    alloc: Global,
    words: &'a [&'a str],
    shelf: &mut S,
    out: &mut K,
    err: &mut E,
) -> Status
    ensures ends { Ends (the_run (texts words.entry.now) (told S.held S.asked S.failed S.seen shelf.old shelf.new)
        (took K.taken K.faults out.old out.new) (took E.taken E.faults err.old err.new)) result }
    ensures fetched { Fetched (texts words.entry.now) (told S.held S.asked S.failed S.seen shelf.old shelf.new) }
    ensures kept { (p : List ℕ) → S.held shelf.new p ≡ S.held shelf.old p }
{
    match due(alloc, words, shelf) {
        Ok(response) => put_response(&response, out, err),
        Err(_) => put_refusal(Status::Memory, memory_line(), err),
    }
}

/// Does all that the program does: it reads the words, fetches the sources that they name, or makes one, and puts a
/// report on `out`, or one line on `err` that says why there is none. The words don't include the program's name. The
/// status says how it ended; with `ReadFault`, `WriteFault` and `Memory` something outside gave out.
pub fn pureproof<'a, S: Shelf, K: Sink, E: Sink>(
    alloc: Global,
    words: &'a [&'a str],
    shelf: &mut S,
    out: &mut K,
    err: &mut E,
) -> Status
    // what is shown is an answer to the words and the sources, or why there is none; a fault may cut it
    ensures ends { Ends (the_run (texts words.entry.now) (told S.held S.asked S.failed S.seen shelf.old shelf.new)
        (took K.taken K.faults out.old out.new) (took E.taken E.faults err.old err.new)) result }

    // each answer that is due comes, in modes `verify` and `make` some report, unless something outside gives out
    ensures comes { Comes (the_run (texts words.entry.now) (told S.held S.asked S.failed S.seen shelf.old shelf.new)
        (took K.taken K.faults out.old out.new) (took E.taken E.faults err.old err.new)) result }
    ensures reports { Verifies (the_run (texts words.entry.now)
        (told S.held S.asked S.failed S.seen shelf.old shelf.new) (took K.taken K.faults out.old out.new)
        (took E.taken E.faults err.old err.new)) result }

    // in mode `verify` each function gets one printed line, which says `valid` only where every call that meets the
    // precondition evaluates, with some fuel, to a value that meets the postcondition
    ensures valid { ValidLinesAreTrue (the_run (texts words.entry.now)
        (told S.held S.asked S.failed S.seen shelf.old shelf.new) (took K.taken K.faults out.old out.new)
        (took E.taken E.faults err.old err.new)) result }
    // `invalid` only with arguments whose run fails the named check
    ensures invalid { InvalidFail (the_run (texts words.entry.now)
        (told S.held S.asked S.failed S.seen shelf.old shelf.new) (took K.taken K.faults out.old out.new)
        (took E.taken E.faults err.old err.new)) result }
    // and `open at round n` only where no arguments up to the stated depth fail that check with calls nested at most n
    // deep
    ensures open_at { OpenAreSearched (the_run (texts words.entry.now)
        (told S.held S.asked S.failed S.seen shelf.old shelf.new) (took K.taken K.faults out.old out.new)
        (took E.taken E.faults err.old err.new)) result }

    // the printed text tells all this: in mode `verify` it is read back as one verdict of each function, with one
    // check, one list of arguments, one round and one reason
    ensures read_back { TextIsReadBack (the_run (texts words.entry.now)
        (told S.held S.asked S.failed S.seen shelf.old shelf.new) (took K.taken K.faults out.old out.new)
        (took E.taken E.faults err.old err.new)) result }

    // in mode `make` nothing is fetched, and the printed text is read back as how many functions the made source has,
    // and how many of them have each verdict; these verdicts are true
    ensures made { MadeIsReadBack (the_run (texts words.entry.now)
        (told S.held S.asked S.failed S.seen shelf.old shelf.new) (took K.taken K.faults out.old out.new)
        (took E.taken E.faults err.old err.new)) result }

    // nothing but the files of the words is fetched, and the shelf holds what it held
    ensures fetched { Fetched (texts words.entry.now) (told S.held S.asked S.failed S.seen shelf.old shelf.new) }
    ensures kept { (p : List ℕ) → S.held shelf.new p ≡ S.held shelf.old p }
{
    carry_out(alloc, words, shelf, out, err)
}
