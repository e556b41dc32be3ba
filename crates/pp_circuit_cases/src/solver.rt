//! Clauses, trails, the checker of logs and the solver, by cases. A case is a name, the number of lemmas, the
//! assumptions, and the clauses, with a colon before each of the last two; each clause ends with a semicolon, and a
//! negative number is the negation of a variable. Behind a bar stands the text of a log, in which `/` is a line feed
//! and `%` a carriage return.
//!
//! - `log |TEXT` answers `log`, where the text is that of a log that is written the same, and else its first wrong
//!   line.
//! - `accepts : ASSUMPTIONS : CLAUSES |TEXT` answers whether the log refutes the clauses under the assumptions.
//! - `solve LEMMAS : ASSUMPTIONS : CLAUSES` answers `sat`, `unsat` or `spent`, and `wrong` where the assignment leaves
//!   a clause or an assumption false, the log isn't accepted, or a spent log hasn't so many lemmas. `lemmas LEMMAS :
//!   ..` tries nothing of the kind, and answers of a log how many lemmas it has: `benches/solver.sh` times it.
//! - `clause : LITERALS` answers the clause of the literals, and `none` where there is none; `chain NUMBERS` answers
//!   `chain` or `none`; `holds VALUES : CLAUSES` answers whether the assignment of these values, 1 and 0 of the
//!   variables in order, makes the clauses true, and `value VALUES : VARIABLE` the variable's value.
//! - `lit LITERAL` answers variable, sign and index of the literal and of its negation, by default the first;
//!   `ascending LITERALS` the clause of literals that are in order, or `no`; `copies : : CLAUSES` the clauses.
//! - `model LEMMAS : ..` answers which variables up to 9 are true, `last LEMMAS : ..` the last clause of the log, and
//!   `evidence LEMMAS : ..` of lemmas that are spent the assumptions, and how many lemmas and clauses there are.
//! - `three LEMMAS` answers how many lists of four clauses over three variables are decided as all assignments tell.
//! - `learn : DECISIONS : CLAUSES` decides the literals that are open in order, each after the propagation of those
//!   before, and answers what is learnt of the first clause that is false: a clause and its chain, the literal that the
//!   last decision made false, how many steps make the others false, and the variables that were met. `refute :
//!   DECISIONS : CLAUSES` propagates once, after all decisions, and answers what is derived of these alone. Both answer
//!   `none` where no clause is false.
//! - `ring STEPS` answers whether a log is accepted whose chain goes so many steps round a ring of clauses of ten
//!   literals, which follows from them.
//! - `values CLAUSES|CALLS` makes calls to a trail over the clauses: `+` adds the clause of the letters behind it,
//!   `?` decides a literal, `<` keeps so many steps, `!` propagates. At `!` and `.` it shows what is true, with a
//!   semicolon, and an exclamation mark where a clause is false. Here a literal is a letter, a capital for a
//!   negation, and `0` is no literal. `steps CLAUSES|CALLS` shows the steps instead, each with its place and its
//!   reason. The last 2,000 lines are random, and `scripts/solver_orders.py` works out by a plain scan what they
//!   show.

use crate::case::{Case, Fields, MOST};
use crate::numbers::{halves, meaning, push_all};
use crate::{learning, lists, orders, ring, three};
use pp_case_line::CaseLine;
use pp_cdcl::{Answer, solve};
use pp_clause::{Assignment, Clause, Lemma, Lit, Log, NoMemory};
use pp_refute::{LogFault, accepts, log_text, read_log};
use std::alloc::Global;

/// What a case asks for.
#[derive(Clone, Copy)]
pub enum Request {
    Accepts,
    Ascending,
    Chain,
    Clause,
    Copies,
    Evidence,
    Holds,
    Last,
    Learn,
    Lemmas,
    Lit,
    Log,
    Model,
    Refute,
    Ring,
    Solve,
    Steps,
    Three,
    Value,
    Values,
}

/// The names of the requests.
const REQUESTS: [(&str, Request); 20] = [
    ("accepts", Request::Accepts),
    ("ascending", Request::Ascending),
    ("chain", Request::Chain),
    ("clause", Request::Clause),
    ("copies", Request::Copies),
    ("evidence", Request::Evidence),
    ("holds", Request::Holds),
    ("last", Request::Last),
    ("learn", Request::Learn),
    ("lemmas", Request::Lemmas),
    ("lit", Request::Lit),
    ("log", Request::Log),
    ("model", Request::Model),
    ("refute", Request::Refute),
    ("ring", Request::Ring),
    ("solve", Request::Solve),
    ("steps", Request::Steps),
    ("three", Request::Three),
    ("value", Request::Value),
    ("values", Request::Values),
];

/// Adds the answer to a case.
pub fn push_answer(line: &mut CaseLine, alloc: Global, case: &str) -> Result<(), NoMemory> {
    let (head, text) = halves(case, '|');
    let (name, given) = halves(head, ' ');
    match meaning(&REQUESTS, name) {
        Some(Request::Values) => orders::push_answer(line, alloc, false, given, text),
        Some(Request::Steps) => orders::push_answer(line, alloc, true, given, text),
        Some(request) => push_numbered(line, alloc, request, &Fields::read(alloc, given)?, text),
        None => {
            line.put("no such request");
            Ok(())
        }
    }
}

/// Adds the answer to a case whose fields are numbers, and that may have the text of a log.
fn push_numbered(
    line: &mut CaseLine,
    alloc: Global,
    request: Request,
    fields: &Fields,
    text: &str,
) -> Result<(), NoMemory> {
    match request {
        Request::Log => push_on_text(line, alloc, None, text),
        Request::Accepts => push_on_text(line, alloc, Some(fields), text),
        Request::Ring => ring::push_answer(line, alloc, fields),
        Request::Clause
        | Request::Chain
        | Request::Holds
        | Request::Value
        | Request::Lit
        | Request::Ascending => lists::push_answer(line, alloc, request, fields),
        _ => push_on_problem(line, alloc, request, &Case::of(alloc, fields)?),
    }
}

/// Adds whether the log of a text refutes the problem, or is written so where there is no problem, or the first line of
/// the text that is wrong.
pub fn push_on_text(
    line: &mut CaseLine,
    alloc: Global,
    problem: Option<&Fields>,
    text: &str,
) -> Result<(), NoMemory> {
    let text = log_bytes(alloc, text)?;
    match read_log(alloc, &text) {
        Ok(log) => push_on_log(line, alloc, problem, &log, &text),
        Err(fault) => push_fault(line, fault),
    }
}

/// Adds whether a log refutes the problem, or is written as the text.
fn push_on_log(
    line: &mut CaseLine,
    alloc: Global,
    problem: Option<&Fields>,
    log: &Log,
    text: &[u8],
) -> Result<(), NoMemory> {
    match problem {
        Some(problem) => push_accepted(line, alloc, &Case::of(alloc, problem)?, log),
        None => push_written(line, alloc, log, text),
    }
}

/// Adds the first line that is wrong.
fn push_fault(line: &mut CaseLine, fault: LogFault) -> Result<(), NoMemory> {
    match fault {
        LogFault::Syntax(number) => {
            line.put("line ");
            line.put(number);
            Ok(())
        }
        LogFault::Memory => Err(NoMemory),
    }
}

/// The text of a log that a case has behind its bar.
fn log_bytes(alloc: Global, text: &str) -> Result<Vec<u8>, NoMemory> {
    let mut bytes = Vec::new(alloc);
    for byte in text.as_bytes() {
        bytes.push(match *byte {
            b'/' => b'\n',
            b'%' => b'\r',
            byte => byte,
        })?;
    }
    Ok(bytes)
}

/// Adds whether the log is written as the text.
fn push_written(
    line: &mut CaseLine,
    alloc: Global,
    log: &Log,
    text: &[u8],
) -> Result<(), NoMemory> {
    let written = log_text(alloc, log)?;
    line.put(if written.as_slice() == text {
        "log"
    } else {
        "written otherwise"
    });
    Ok(())
}

/// Adds whether the log refutes the clauses under the assumptions.
fn push_accepted(
    line: &mut CaseLine,
    alloc: Global,
    case: &Case,
    log: &Log,
) -> Result<(), NoMemory> {
    let yes = accepts(alloc, &case.clauses, case.assumptions.as_slice(), log)?;
    line.put(yes);
    Ok(())
}

/// Adds the answer to a case on a problem.
fn push_on_problem(
    line: &mut CaseLine,
    alloc: Global,
    request: Request,
    case: &Case,
) -> Result<(), NoMemory> {
    match request {
        Request::Copies => lists::push_copies(line, alloc, &case.clauses),
        Request::Learn => learning::push_answer(line, alloc, false, case),
        Request::Refute => learning::push_answer(line, alloc, true, case),
        Request::Three => three::push_answer(line, alloc, case.lemmas),
        Request::Solve => push_kind(line, alloc, case),
        _ => push_solved(line, alloc, request, case),
    }
}

/// What the solver answers. Where an assumption is the negation of another it is the empty log.
fn solved(alloc: Global, case: &Case) -> Result<Answer, NoMemory> {
    let assumptions = case.assumptions.as_slice();
    let apart = Clause::of(alloc, assumptions)?.is_some();
    if apart && case.clauses.len() as u64 <= MOST {
        let lemmas = case.lemmas.clamp(1, MOST);
        return solve(alloc, &case.clauses, assumptions, &[], lemmas);
    }
    Ok(Answer::Unsat(Log::new(alloc)))
}

/// Adds the kind of the solver's answer, and `wrong` where it isn't what its kind promises.
fn push_kind(line: &mut CaseLine, alloc: Global, case: &Case) -> Result<(), NoMemory> {
    line.put(kind(alloc, case)?);
    Ok(())
}

/// The kind of the solver's answer, and `wrong` where it isn't what its kind promises.
pub fn kind(alloc: Global, case: &Case) -> Result<&'static str, NoMemory> {
    let answer = solved(alloc, case)?;
    tried_kind(alloc, case, &answer)
}

fn tried_kind(alloc: Global, case: &Case, answer: &Answer) -> Result<&'static str, NoMemory> {
    let right = is_right(alloc, case, answer)?;
    Ok(if right { kind_of(answer) } else { "wrong" })
}

fn kind_of(answer: &Answer) -> &'static str {
    match answer {
        Answer::Sat(_) => "sat",
        Answer::Unsat(_) => "unsat",
        Answer::Spent(_) => "spent",
    }
}

/// Whether the answer is what its kind promises.
fn is_right(alloc: Global, case: &Case, answer: &Answer) -> Result<bool, NoMemory> {
    match answer {
        Answer::Sat(a) => Ok(is_model(case, a)),
        Answer::Unsat(log) => accepts(alloc, &case.clauses, case.assumptions.as_slice(), log),
        Answer::Spent(log) => Ok(log.as_slice().len() as u64 == case.lemmas),
    }
}

/// Whether the assignment makes the clauses and the assumptions true.
fn is_model(case: &Case, a: &Assignment) -> bool {
    for lit in case.assumptions.as_slice() {
        if a.value(lit.var()) != lit.is_positive() {
            return false;
        }
    }
    case.clauses.holds(a)
}

/// Adds what a case asks of the solver's answer.
fn push_solved(
    line: &mut CaseLine,
    alloc: Global,
    request: Request,
    case: &Case,
) -> Result<(), NoMemory> {
    let answer = solved(alloc, case)?;
    match request {
        Request::Model => push_model(line, &answer),
        Request::Last => push_last(line, lemmas(&answer)),
        Request::Evidence => push_evidence(line, case, lemmas(&answer).len()),
        _ => push_count(line, &answer),
    }
    Ok(())
}

/// The lemmas of an answer that has a log.
fn lemmas(answer: &Answer) -> &[Lemma] {
    match answer {
        Answer::Sat(_) => &[],
        Answer::Unsat(log) | Answer::Spent(log) => log.as_slice(),
    }
}

/// Adds the kind of the answer, and of one with a log how many lemmas this has.
fn push_count(line: &mut CaseLine, answer: &Answer) {
    line.put(kind_of(answer));
    if !matches!(answer, Answer::Sat(_)) {
        line.put(", ");
        line.put(lemmas(answer).len());
        line.put(" lemmas");
    }
}

/// Adds the kind of the answer, and of an assignment the variables from 1 to 9 that are true.
fn push_model(line: &mut CaseLine, answer: &Answer) {
    line.put(kind_of(answer));
    if let Answer::Sat(a) = answer {
        for var in 1..10u32 {
            if a.value(var) {
                push_all(line, &[var]);
            }
        }
    }
}

/// Adds the last clause of a log.
fn push_last(line: &mut CaseLine, lemmas: &[Lemma]) {
    line.put("last");
    if let Some(last) = lemmas.last() {
        push_lits(line, last.clause.lits());
    }
}

/// Adds the assumptions of the evidence that a problem's lemmas are spent, and the number of lemmas and of clauses.
fn push_evidence(line: &mut CaseLine, case: &Case, lemmas: usize) {
    line.put("assuming");
    push_lits(line, case.assumptions.as_slice());
    line.put(", ");
    line.put(lemmas);
    line.put(" lemmas over ");
    line.put(case.clauses.len());
}

/// Adds the numbers of literals, each behind a blank.
pub fn push_lits(line: &mut CaseLine, lits: &[Lit]) {
    for lit in lits {
        line.put(if lit.is_positive() { " " } else { " -" });
        line.put(lit.var());
    }
}
