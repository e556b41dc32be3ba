//! Showing what is due.

ghost use Rattle.std.specs.Prelude.{map, string_bytes};
ghost use Rattle.pp_modes.specs.Responses.{refusal, report, response_of};
ghost use Rattle.pureproof.specs.Shown.{IsStill, Shows, Took, took};

use crate::{Response, Status};
use pp_print::{put_lines, write_fault_line};
use pp_seam::Sink;

/// Puts the lines of a report on `out`; after a fault there its line goes to `err`.
fn put_report<K: Sink, E: Sink>(
    status: Status,
    lines: &[String],
    out: &mut K,
    err: &mut E,
) -> Status
    ensures { Shows (took K.taken K.faults out.old out.new) (took E.taken E.faults err.old err.new)
        (report status (map string_bytes lines.now)) result }
{
    match put_lines(out, lines) {
        Ok(()) => status,
        Err(_) => {
            let _ = err.put(write_fault_line().as_bytes());
            Status::WriteFault
        }
    }
}

/// Puts the line of a refusal on `err`.
pub(crate) fn put_refusal<E: Sink>(status: Status, line: &str, err: &mut E) -> Status
    ensures { (out : Took) → IsStill out
        → Shows out (took E.taken E.faults err.old err.new) (refusal status line.now) result }
{
    match err.put(line.as_bytes()) {
        Ok(()) => status,
        Err(_) => Status::WriteFault,
    }
}

/// Puts a response.
pub(crate) fn put_response<K: Sink, E: Sink>(
    response: &Response,
    out: &mut K,
    err: &mut E,
) -> Status
    ensures { Shows (took K.taken K.faults out.old out.new) (took E.taken E.faults err.old err.new)
        (response_of response.now) result }
{
    match response {
        Response::Report(status, lines) => put_report(*status, lines, out, err),
        Response::Refusal(status, line) => put_refusal(*status, line.as_str(), err),
    }
}
