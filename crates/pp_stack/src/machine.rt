//! A machine: what is left to do, and the values that it works on.

ghost use Rattle.std.specs.Prelude.{◌≡◌, ◌∷◌, None, OnOk};
ghost use Rattle.pp_store.specs.Values.{IsHeld, value_of};
ghost use Rattle.pp_stack.specs.Left.{after, and_also, asserted, branch, choose, decided, evaluate, evaluate_all, left};
ghost use Rattle.pp_stack.specs.Left.{chosen, let_in, or_else, plan, plan_binary};
ghost use Rattle.pp_stack.specs.Moves.{AllHeld, Comes, Ends};
ghost use Rattle.pp_stack.specs.State.{state_of};

use crate::NoMemory;
use crate::see::{failed, see};
use crate::stacks::Stacks;
use crate::todo::{Code, Todo};
use pp_eval::{Halt, Stop};
use pp_list::Items;
use pp_prog::{BinaryOp, Case, CheckId, Expr};
use pp_store::Held;
use std::alloc::Global;

/// A machine. Of what is left to do the last comes first.
#[derive(Drop)]
pub(crate) struct Machine<'a> {
    pub(crate) todo: Items<Todo<'a>>,
    pub(crate) stacks: Stacks,
}

impl<'a> Machine<'a> {
    /// Does all that is left to do, a thing a turn. Each takes one from `turns`, and where they come to 0 it gives up,
    /// as for want of memory.
    pub(crate) fn run(&mut self, alloc: Global, code: Code<'a>, turns: &mut u64) -> Result<(), Halt>
        requires { AllHeld self.old.stacks }
        ensures { Ends result self.new (left code.entry self.old.todo (state_of self.old.stacks)) }
    {
        while *turns > 1 {
            *turns -= 1;
            match self.todo.pop() {
                None => return Ok(()),
                Some(todo) => self.take(alloc, code, todo)?,
            }
        }
        *turns = 0;
        Err(Halt::Memory)
    }

    // Does one thing; where it stops, it tells so as it is seen from the run's own frame.
    fn take(&mut self, alloc: Global, code: Code<'a>, todo: Todo<'a>) -> Result<(), Halt>
        requires { AllHeld self.old.stacks }
        ensures { Comes code.entry result self.new None
            (after code.entry todo.entry (left code.entry self.old.todo) (state_of self.old.stacks)) }
    {
        let here = self.stacks.here;
        match self.step(alloc, code, todo) {
            Ok(()) => Ok(()),
            Err(halt) => Err(see(here.called, halt)),
        }
    }

    // Does one thing.
    fn step(&mut self, alloc: Global, code: Code<'a>, todo: Todo<'a>) -> Result<(), Halt>
        requires { AllHeld self.old.stacks }
        ensures { Comes code.entry result self.new self.old.stacks.here.called
            (after code.entry todo.entry (left code.entry self.old.todo) (state_of self.old.stacks)) }
    {
        match todo {
            Todo::Eval(e) => self.eval(code, e),
            Todo::EvalAll(exprs) => self.eval_all(code, exprs),
            Todo::Unary(op) => self.stacks.apply(alloc, op),
            Todo::Operate(op, check) => self.stacks.operate(alloc, op, check),
            Todo::AndAlso(b) => self.and_also(alloc, code, b),
            Todo::OrElse(b) => self.or_else(alloc, code, b),
            Todo::If(a, b) => self.branch(alloc, code, a, b),
            Todo::Assert(check, rest) => self.assert(alloc, code, check, rest),
            Todo::Construct(ctor, first) => self.stacks.construct(ctor, first),
            Todo::Field(k) => self.stacks.field(k),
            Todo::Cases(cases, check) => self.choose(code, cases, check),
            Todo::Guarded(body, cases, check, count) => {
                self.decide(alloc, code, body, cases, check, count)
            }
            Todo::Val(rest) => self.let_in(code, rest),
            Todo::Forget(count) => {
                self.stacks.forget(count);
                Ok(())
            }
            Todo::Call {
                callee,
                pre,
                measure,
                first,
            } => self.call(code, callee, pre, measure, first),
            Todo::Admit(site) => self.admit(alloc, code, site),
            Todo::Descend(site, first) => self.descend(alloc, code, site, first),
            Todo::Back(here) => {
                self.stacks.here = here;
                Ok(())
            }
            Todo::Leave(here) => {
                self.stacks.leave(here);
                Ok(())
            }
        }
    }

    // Evaluates an expression: a literal and a variable at once, and of any other its parts come first.
    fn eval(&mut self, code: Code<'a>, e: &'a Expr) -> Result<(), Halt>
        requires { AllHeld self.old.stacks }
        ensures { Comes code.entry result self.new self.old.stacks.here.called
            (evaluate code.entry e.now (left code.entry self.old.todo) (state_of self.old.stacks)) }
    {
        match e {
            Expr::Int(n) => self.stacks.push(Held::Int(*n)),
            Expr::Bool(b) => self.stacks.push(Held::Bool(*b)),
            Expr::Var(i) => self.stacks.variable(*i),
            _ => {
                let first = self.stacks.temps.len();
                expand(code, &mut self.todo, e, first)?;
                Ok(())
            }
        }
    }

    // Evaluates the first of the expressions, and then the others.
    fn eval_all(&mut self, code: Code<'a>, exprs: &'a [Expr]) -> Result<(), Halt>
        requires { AllHeld self.old.stacks }
        ensures { Comes code.entry result self.new self.old.stacks.here.called
            (evaluate_all code.entry exprs.now (left code.entry self.old.todo) (state_of self.old.stacks)) }
    {
        if let [e, others @ ..] = exprs {
            self.todo.push(Todo::EvalAll(others))?;
            self.todo.push(Todo::Eval(e))?;
        }
        Ok(())
    }

    // The right side, where the left is true.
    fn and_also(&mut self, alloc: Global, code: Code<'a>, b: &'a Expr) -> Result<(), Halt>
        requires { AllHeld self.old.stacks }
        ensures { Comes code.entry result self.new self.old.stacks.here.called
            (and_also code.entry b.now (left code.entry self.old.todo) (state_of self.old.stacks)) }
    {
        if self.stacks.test(alloc)? {
            self.todo.push(Todo::Eval(b))?;
            Ok(())
        } else {
            self.stacks.push(Held::Bool(false))
        }
    }

    // The right side, where the left is false.
    fn or_else(&mut self, alloc: Global, code: Code<'a>, b: &'a Expr) -> Result<(), Halt>
        requires { AllHeld self.old.stacks }
        ensures { Comes code.entry result self.new self.old.stacks.here.called
            (or_else code.entry b.now (left code.entry self.old.todo) (state_of self.old.stacks)) }
    {
        if self.stacks.test(alloc)? {
            self.stacks.push(Held::Bool(true))
        } else {
            self.todo.push(Todo::Eval(b))?;
            Ok(())
        }
    }

    // One of the two, by a condition.
    fn branch(
        &mut self,
        alloc: Global,
        code: Code<'a>,
        a: &'a Expr,
        b: &'a Expr,
    ) -> Result<(), Halt>
        requires { AllHeld self.old.stacks }
        ensures { Comes code.entry result self.new self.old.stacks.here.called
            (branch code.entry a.now b.now (left code.entry self.old.todo) (state_of self.old.stacks)) }
    {
        if self.stacks.test(alloc)? {
            self.todo.push(Todo::Eval(a))?;
            Ok(())
        } else {
            self.todo.push(Todo::Eval(b))?;
            Ok(())
        }
    }

    // The rest, where the condition is true.
    fn assert(
        &mut self,
        alloc: Global,
        code: Code<'a>,
        check: CheckId,
        rest: &'a Expr,
    ) -> Result<(), Halt>
        requires { AllHeld self.old.stacks }
        ensures { Comes code.entry result self.new self.old.stacks.here.called
            (asserted code.entry check rest.now (left code.entry self.old.todo) (state_of self.old.stacks)) }
    {
        if self.stacks.test(alloc)? {
            self.todo.push(Todo::Eval(rest))?;
            Ok(())
        } else {
            Err(Halt::Stopped(Stop::Fails(check)))
        }
    }

    // The rest, with the value in scope.
    fn let_in(&mut self, code: Code<'a>, rest: &'a Expr) -> Result<(), Halt>
        requires { AllHeld self.old.stacks }
        ensures { Comes code.entry result self.new self.old.stacks.here.called
            (let_in code.entry rest.now (left code.entry self.old.todo) (state_of self.old.stacks)) }
    {
        self.stacks.bind_one()?;
        self.todo.push(Todo::Forget(1))?;
        self.todo.push(Todo::Eval(rest))?;
        Ok(())
    }

    // The first case that is taken for the value on top.
    fn choose(
        &mut self,
        code: Code<'a>,
        cases: &'a [Case],
        check: Option<CheckId>,
    ) -> Result<(), Halt>
        requires { AllHeld self.old.stacks }
        ensures { Comes code.entry result self.new self.old.stacks.here.called
            (choose code.entry cases.now check (left code.entry self.old.todo) (state_of self.old.stacks)) }
    {
        let held = self.stacks.pop()?;
        match cases {
            [] => failed(check),
            [case, others @ ..] => self.attempt(code, case, others, check, held),
        }
    }

    // The case, where it is taken for the value, or else the others.
    fn attempt(
        &mut self,
        code: Code<'a>,
        case: &'a Case,
        others: &'a [Case],
        check: Option<CheckId>,
        held: Held,
    ) -> Result<(), Halt>
        requires all { AllHeld self.old.stacks }
        requires one { IsHeld self.old.stacks.store held }
        ensures { Comes code.entry result self.new self.old.stacks.here.called
            (chosen code.entry (case.now ∷ others.now) check (left code.entry self.old.todo)
            (value_of self.old.stacks.store held) (state_of self.old.stacks)) }
    {
        match self.stacks.bind(&case.pattern, held)? {
            None => {
                self.stacks.push(held)?;
                self.todo.push(Todo::Cases(others, check))?;
                Ok(())
            }
            Some(count) => match &case.guard {
                None => {
                    self.todo.push(Todo::Forget(count))?;
                    self.todo.push(Todo::Eval(&case.body))?;
                    Ok(())
                }
                Some(guard) => {
                    self.stacks.push(held)?;
                    self.todo
                        .push(Todo::Guarded(&case.body, others, check, count))?;
                    self.todo.push(Todo::Eval(guard))?;
                    Ok(())
                }
            },
        }
    }

    // The body of the case, where its guard is true, or else the other cases.
    fn decide(
        &mut self,
        alloc: Global,
        code: Code<'a>,
        body: &'a Expr,
        others: &'a [Case],
        check: Option<CheckId>,
        count: usize,
    ) -> Result<(), Halt>
        requires { AllHeld self.old.stacks }
        ensures { Comes code.entry result self.new self.old.stacks.here.called
            (decided code.entry body.now others.now check count (left code.entry self.old.todo)
            (state_of self.old.stacks)) }
    {
        if self.stacks.test(alloc)? {
            let _ = self.stacks.pop()?;
            self.todo.push(Todo::Forget(count))?;
            self.todo.push(Todo::Eval(body))?;
            Ok(())
        } else {
            self.stacks.forget(count);
            self.todo.push(Todo::Cases(others, check))?;
            Ok(())
        }
    }
}

/// Puts the parts of an expression before what is left to do, and what is made of them; `first` is how many values are
/// on top of which theirs come. A literal and a variable have no parts, and stay.
fn expand<'a>(
    code: Code<'a>,
    todo: &mut Items<Todo<'a>>,
    e: &'a Expr,
    first: usize,
) -> Result<(), NoMemory>
    ensures { OnOk result (left code.entry todo.new ≡ plan code.entry e.now first (left code.entry todo.old)) }
{
    match e {
        Expr::Unary(op, a) => {
            todo.push(Todo::Unary(*op))?;
            todo.push(Todo::Eval(a.get()))
        }
        Expr::Binary(op, a, b, check) => {
            expand_binary(code, todo, *op, a.get(), b.get(), *check)
        }
        Expr::Construct(ctor, args) => {
            todo.push(Todo::Construct(*ctor, first))?;
            todo.push(Todo::EvalAll(args.as_slice()))
        }
        Expr::Field(e, k) => {
            todo.push(Todo::Field(*k))?;
            todo.push(Todo::Eval(e.get()))
        }
        Expr::If(c, a, b) => {
            todo.push(Todo::If(a.get(), b.get()))?;
            todo.push(Todo::Eval(c.get()))
        }
        Expr::Match(e, cases, check) => {
            todo.push(Todo::Cases(cases.as_slice(), *check))?;
            todo.push(Todo::Eval(e.get()))
        }
        Expr::Val(bound, rest) => {
            todo.push(Todo::Val(rest.get()))?;
            todo.push(Todo::Eval(bound.get()))
        }
        Expr::Assert(check, c, rest) => {
            todo.push(Todo::Assert(*check, rest.get()))?;
            todo.push(Todo::Eval(c.get()))
        }
        Expr::Call {
            callee,
            args,
            pre,
            measure,
        } => {
            todo.push(Todo::Call {
                callee: *callee,
                pre: *pre,
                measure: *measure,
                first,
            })?;
            todo.push(Todo::EvalAll(args.as_slice()))
        }
        Expr::Int(_) => todo.push(Todo::Eval(e)),
        Expr::Bool(_) => todo.push(Todo::Eval(e)),
        Expr::Var(_) => todo.push(Todo::Eval(e)),
    }
}

/// Puts the operands of an operator before what is left to do, and what is made of them.
fn expand_binary<'a>(
    code: Code<'a>,
    todo: &mut Items<Todo<'a>>,
    op: BinaryOp,
    a: &'a Expr,
    b: &'a Expr,
    check: Option<CheckId>,
) -> Result<(), NoMemory>
    ensures { OnOk result (left code.entry todo.new ≡ plan_binary code.entry op a.now b.now check
        (left code.entry todo.old)) }
{
    match op {
        BinaryOp::AndAlso => {
            todo.push(Todo::AndAlso(b))?;
            todo.push(Todo::Eval(a))
        }
        BinaryOp::OrElse => {
            todo.push(Todo::OrElse(b))?;
            todo.push(Todo::Eval(a))
        }
        _ => {
            todo.push(Todo::Operate(op, check))?;
            todo.push(Todo::Eval(b))?;
            todo.push(Todo::Eval(a))
        }
    }
}
