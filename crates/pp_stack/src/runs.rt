//! A run of a function.

ghost use Rattle.std.specs.Prelude.{◌≡◌, ◌≢◌, ◌<◌, ◌≤◌, [], None, IfNone, IfOk, IfSome, OnErr, length, slice_get};
ghost use Rattle.pp_limits.specs.declared.TheConstants.{FUEL};
ghost use Rattle.std.specs.Option.{option_map};
ghost use Rattle.pp_eval.specs.Invocation.{calls_to, frame_of};
ghost use Rattle.pp_eval.specs.Meaning.{guarded, meaning};
ghost use Rattle.pp_eval.specs.declared.outcome.Outcome.{Outcome};
ghost use Rattle.pp_eval.specs.Operators.{truth};
ghost use Rattle.pp_eval.specs.Part.{Part, Tells, and_then};
ghost use Rattle.pp_eval.specs.Runs as spec;
ghost use Rattle.pp_eval.specs.Runs.{AreArguments, run_in};
ghost use Rattle.pp_stack.specs.Moves.{AllHeld, IsIdle, Measures, Truths, Values};
ghost use Rattle.pp_stack.specs.State.{frame_in, root, scope, state_of};
ghost use Rattle.pp_stack.specs.Left.{calls, value_in};

use crate::NoMemory;
use crate::machine::Machine;
use crate::stacks::Stacks;
use crate::todo::{Code, Here, Todo};
use pp_eval::{Halt, Outcome, Stop};
use pp_list::Items;
use pp_prog::{Expr, Function, FunctionId, Program, Value};
use pp_store::{Held, Store};
use std::alloc::Global;

/// The outcome of the run of `f` on these arguments, which have the parameters' sorts, with this fuel, which is at most
/// 100,000: the precondition, the measure list, the body and the postcondition. The only error is want of memory.
pub fn run(
    alloc: Global,
    program: &Program,
    f: FunctionId,
    args: &[Value],
    fuel: u32,
) -> Result<Outcome, NoMemory>
    requires function { f.0 < length program.now.functions }
    requires arguments { AreArguments program.now.types.ctors (slice_get program.now.functions f.0) args.now }
    requires fuel { fuel ≤ FUEL.most }
    ensures { IfOk result (λ outcome. outcome ≡ run_in program.now f.0 args.now fuel) }
{
    let mut turns = u64::MAX;
    counted(alloc, program, f, args, fuel, &mut turns)
}

/// What `run` gives, or None where the turns of the machine are spent before: each takes one from `turns`, and where
/// they come to 0 the run is given up, and nothing else is known of it. Without turns it isn't begun. The only error is
/// want of memory, and turns are left then.
pub fn run_within(
    alloc: Global,
    program: &Program,
    f: FunctionId,
    args: &[Value],
    fuel: u32,
    turns: &mut u64,
) -> Result<Option<Outcome>, NoMemory>
    requires function { f.0 < length program.now.functions }
    requires arguments { AreArguments program.now.types.ctors (slice_get program.now.functions f.0) args.now }
    requires fuel { fuel ≤ FUEL.most }
    ensures outcome { IfOk result (λ found. IfSome found (λ o. o ≡ run_in program.now f.0 args.now fuel)) }
    ensures spent { IfOk result (λ found. IfNone found (turns.new ≡ 0)) }
    ensures memory { OnErr result (turns.new ≢ 0) }
{
    if *turns == 0 {
        return Ok(None);
    }
    let run = counted(alloc, program, f, args, fuel, turns);
    unless_spent(run, *turns)
}

/// What a run gave that left so many turns: with none it was given up.
fn unless_spent(run: Result<Outcome, NoMemory>, turns: u64) -> Result<Option<Outcome>, NoMemory>
    ensures outcome { IfOk result (λ found. IfSome found (λ o. run ≡ Ok o)) }
    ensures spent { IfOk result (λ found. IfNone found (turns ≡ 0)) }
    ensures memory { OnErr result (turns ≢ 0) }
{
    match run {
        Ok(outcome) => Ok(Some(outcome)),
        Err(error) => { if turns == 0 { Ok(None) } else { Err(error) } }
    }
}

/// The outcome of a run, which takes its turns from these, and is given up for want of them as for want of memory.
fn counted(
    alloc: Global,
    program: &Program,
    f: FunctionId,
    args: &[Value],
    fuel: u32,
    turns: &mut u64,
) -> Result<Outcome, NoMemory>
    requires { f.0 < length program.now.functions }
    ensures { IfOk result (λ outcome. outcome ≡ run_in program.now f.0 args.now fuel) }
{
    let code = Code {
        ctors: program.types().ctors.as_slice(),
        functions: program.functions.as_slice(),
    };
    ended(run_with(alloc, code, program.function(f), args, fuel, turns))
}

/// The outcome of a run that came to this.
fn ended(run: Result<Outcome, Halt>) -> Result<Outcome, NoMemory>
    ensures { (part : Part Outcome) → Tells run part → IfOk result (λ o. o ≡ spec.outcome part) }
{
    match run {
        Ok(outcome) => Ok(outcome),
        Err(Halt::Memory) => Err(NoMemory),
        Err(Halt::Stopped(Stop::Fails(c))) => Ok(Outcome::Fails(c)),
        Err(Halt::Stopped(Stop::Inner(g, c))) => Ok(Outcome::Inner(g, c)),
        Err(Halt::Stopped(Stop::Deep)) => Ok(Outcome::Deep),
        Err(Halt::Stopped(Stop::Stuck)) => Ok(Outcome::Deep),
    }
}

/// The run of f, with this fuel.
pub(crate) fn run_with<'a>(
    alloc: Global,
    code: Code<'a>,
    f: &'a Function,
    args: &[Value],
    fuel: u32,
    turns: &mut u64,
) -> Result<Outcome, Halt>
    ensures { Tells result (spec.run_with (calls_to code.entry.ctors.now code.entry.functions.now fuel)
        f.now args.now) }
{
    let mut machine = machine_on(alloc, args, fuel)?;
    if machine.holds(alloc, code, &f.pre, turns)? {
        machine.start(alloc, code, f, turns)
    } else {
        Ok(Outcome::Outside)
    }
}

/// A machine in the frame of a run on these arguments.
fn machine_on<'a>(alloc: Global, args: &[Value], fuel: u32) -> Result<Machine<'a>, NoMemory>
    ensures { IfOk result (λ m. IsIdle m (root fuel args.now)) }
{
    let mut store = Store::new(alloc);
    let mut env = Items::new(alloc);
    for arg in args {
        env.push(store.load(alloc, arg)?)?;
    }
    let here = Here {
        fuel,
        called: None,
        bound: args.len(),
        measured: None,
    };
    let stacks = Stacks {
        temps: Items::new(alloc),
        env,
        measures: Items::new(alloc),
        here,
        store,
    };
    Ok(Machine {
        todo: Items::new(alloc),
        stacks,
    })
}

impl<'a> Machine<'a> {
    // The value of an expression.
    fn value(
        &mut self,
        alloc: Global,
        code: Code<'a>,
        e: &'a Expr,
        turns: &mut u64,
    ) -> Result<Held, Halt>
        requires held { AllHeld self.old.stacks }
        requires idle { self.old.todo ≡ [] }
        requires own { self.old.stacks.here.called ≡ None }
        ensures { Values result (state_of self.old.stacks) self.new
            (value_in code.entry e.now (state_of self.old.stacks)) }
    {
        self.todo.push(Todo::Eval(e))?;
        self.run(alloc, code, turns)?;
        self.stacks.pop()
    }

    /// Whether the condition is true.
    pub(crate) fn truth(
        &mut self,
        alloc: Global,
        code: Code<'a>,
        e: &'a Expr,
        turns: &mut u64,
    ) -> Result<bool, Halt>
        requires held { AllHeld self.old.stacks }
        requires idle { self.old.todo ≡ [] }
        requires own { self.old.stacks.here.called ≡ None }
        ensures { Truths result (state_of self.old.stacks) self.new
            (and_then (value_in code.entry e.now (state_of self.old.stacks)) truth) }
    {
        self.todo.push(Todo::Eval(e))?;
        self.run(alloc, code, turns)?;
        self.stacks.test(alloc)
    }

    // Whether the condition is true; none always is.
    fn holds(
        &mut self,
        alloc: Global,
        code: Code<'a>,
        condition: &'a Option<Expr>,
        turns: &mut u64,
    ) -> Result<bool, Halt>
        requires held { AllHeld self.old.stacks }
        requires idle { self.old.todo ≡ [] }
        requires own { self.old.stacks.here.called ≡ None }
        ensures { Truths result (state_of self.old.stacks) self.new
            (guarded (option_map (meaning (calls code.entry self.old.stacks.here.fuel)) condition.now)
            (frame_in (state_of self.old.stacks)) (scope (state_of self.old.stacks))) }
    {
        match condition {
            None => Ok(true),
            Some(e) => self.truth(alloc, code, e, turns),
        }
    }

    // The measure list, the body and the postcondition, where the precondition is true.
    fn start(
        &mut self,
        alloc: Global,
        code: Code<'a>,
        f: &'a Function,
        turns: &mut u64,
    ) -> Result<Outcome, Halt>
        requires held { AllHeld self.old.stacks }
        requires idle { self.old.todo ≡ [] }
        requires own { state_of self.old.stacks ≡ root self.old.stacks.here.fuel (state_of self.old.stacks).env }
        ensures { Tells result (spec.started (calls code.entry self.old.stacks.here.fuel) f.now
            (state_of self.old.stacks).env) }
    {
        self.measure(alloc, code, f.measure.as_slice(), turns)?;
        let held = self.value(alloc, code, &f.body, turns)?;
        self.finish(alloc, code, &f.post, held, turns)
    }

    // The measure list of the run's own frame.
    fn measure(
        &mut self,
        alloc: Global,
        code: Code<'a>,
        exprs: &'a [Expr],
        turns: &mut u64,
    ) -> Result<(), Halt>
        requires held { AllHeld self.old.stacks }
        requires idle { self.old.todo ≡ [] }
        requires own { state_of self.old.stacks ≡ root self.old.stacks.here.fuel (state_of self.old.stacks).env }
        ensures { Measures result (state_of self.old.stacks) self.new
            (frame_of (calls code.entry self.old.stacks.here.fuel) exprs.now (state_of self.old.stacks).env) }
    {
        if exprs.is_empty() {
            return Ok(());
        }
        self.todo.push(Todo::EvalAll(exprs))?;
        self.run(alloc, code, turns)?;
        let count = self.stacks.measure(0)?;
        self.stacks.here.measured = Some(count);
        Ok(())
    }
}
