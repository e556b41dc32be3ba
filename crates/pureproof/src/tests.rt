//! Whole runs in memory, and what is shown where something outside gives out. What is answered to which sources is
//! tried by the program `pp_answer_cases`, and files by the script `check_program.sh`.

use super::*;
use pp_seam::{Bytes, Shelves};
use std::alloc::Global;
use std::process::Abort;
use std::test::Fail;

const EDGE: &str = "object A {\n  def edge(): Int = Int.MinValue / -1 + -7 % 3\n}\n";

const CALLS: &str = "object A {
  def g(x: Int): Int = {
    require(x != 5)
    x
  }
  def f(x: Int): Int = g(x)
}
";

// What gives out in a run: nothing, the fetch with this number, the put on `out` with this number when so many bytes of
// it are taken, or the first put on `err`.
#[derive(Clone, Copy)]
enum GivesOut {
    Nothing,
    Fetch(u32),
    Put(u32, usize),
    Refusal,
}

// What a run on the files `a.scala` and `b.scala`, which have these bytes, ends with: the status, and what `out` and
// `err` took.
#[derive(Clone, Copy)]
struct Row<'a> {
    words: &'a [&'a str],
    source: &'a str,
    gives_out: GivesOut,
    status: Status,
    out: &'a str,
    err: &'a str,
}

fn run_row(alloc: Global, rt: &impl Abort, row: &Row) -> Result<(), Fail> {
    let mut shelf = Shelves::new(alloc);
    shelf.add("a.scala", row.source.as_bytes())?;
    shelf.add("b.scala", row.source.as_bytes())?;
    let mut out = Bytes::with_room(alloc, 1000)?;
    let mut err = Bytes::with_room(alloc, 1000)?;
    match row.gives_out {
        GivesOut::Nothing => {}
        GivesOut::Fetch(call) => shelf.fail_at(call)?,
        GivesOut::Put(call, after) => out.fail_at(call, after),
        GivesOut::Refusal => err.fail_at(1, 0),
    }
    let status = pureproof(alloc, row.words, &mut shelf, &mut out, &mut err);
    assert_eq!(rt; status, row.status);
    assert_eq!(rt; out.taken(), row.out.as_bytes());
    assert_eq!(rt; err.taken(), row.err.as_bytes());
    Ok(())
}

#[test]
fn an_answer_refusals_and_faults(rt: HostRuntime) -> Result<(), Fail> {
    let rows = [
        Row {
            words: &["--mode", "run", "a.scala", "--function=edge"],
            source: EDGE,
            gives_out: GivesOut::Nothing,
            status: Status::AllValid,
            out: "edge = 2147483647\n",
            err: "",
        },
        Row {
            words: &["a.scala", "c.scala"],
            source: EDGE,
            gives_out: GivesOut::Nothing,
            status: Status::ReadFault,
            out: "",
            err: "read fault: c.scala\n",
        },
        Row {
            words: &["--mode", "run", "a.scala"],
            source: EDGE,
            gives_out: GivesOut::Nothing,
            status: Status::Words,
            out: "",
            err: "words refused\n",
        },
        Row {
            words: &[],
            source: EDGE,
            gives_out: GivesOut::Refusal,
            status: Status::WriteFault,
            out: "",
            err: "",
        },
        Row {
            words: &["--mode", "make", "--seed", "1"],
            source: CALLS,
            gives_out: GivesOut::Fetch(1),
            status: Status::AllValid,
            out: "made 2 functions\n2 valid, 0 invalid, 0 open, 0 depending\n",
            err: "",
        },
        Row {
            words: &["a.scala", "b.scala"],
            source: CALLS,
            gives_out: GivesOut::Fetch(1),
            status: Status::ReadFault,
            out: "",
            err: "read fault: a.scala\n",
        },
        Row {
            words: &["a.scala", "b.scala"],
            source: CALLS,
            gives_out: GivesOut::Fetch(2),
            status: Status::ReadFault,
            out: "",
            err: "read fault: b.scala\n",
        },
    ];
    for row in &rows {
        run_row(rt.alloc(), &rt, row)?;
    }
    Ok(())
}

#[test]
fn each_line_is_a_put_that_may_fail(rt: HostRuntime) -> Result<(), Fail> {
    let first = "g: valid, 0 checks\n";
    let second = "g: valid, 0 checks\nf: invalid, precondition at 1:6:24, x = 5\n";
    let puts = [
        (1, 0, ""),
        (1, 3, "g: "),
        (1, 19, first),
        (2, 0, first),
        (2, 3, "g: valid, 0 checks\nf: "),
        (2, 42, second),
        (3, 0, second),
        (
            3,
            3,
            "g: valid, 0 checks\nf: invalid, precondition at 1:6:24, x = 5\n1 v",
        ),
        (
            3,
            40,
            "g: valid, 0 checks\nf: invalid, precondition at 1:6:24, x = 5\n1 valid, 1 invalid, 0 open, 0 depending\n",
        ),
    ];
    for (call, after, out) in puts {
        let row = Row {
            words: &["a.scala"],
            source: CALLS,
            gives_out: GivesOut::Put(call, after),
            status: Status::WriteFault,
            out,
            err: "write fault\n",
        };
        run_row(rt.alloc(), &rt, &row)?;
    }
    Ok(())
}
