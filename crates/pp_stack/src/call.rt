//! What a machine does for a call: the precondition, the measure list and the body are three frames, one after another.

ghost use Rattle.pp_stack.specs.Left.{admit, begin, call, descend, enter, in_body, left};
ghost use Rattle.pp_stack.specs.Moves.{AllHeld, Comes};
ghost use Rattle.pp_stack.specs.State.{inner, state_of};
ghost use Rattle.std.specs.Prelude.{◌≡◌};

use crate::machine::Machine;
use crate::see::failed;
use crate::todo::{Code, Here, Site, Todo};
use pp_eval::{Halt, Stop};
use pp_list::at;
use pp_prog::{CheckId, FunctionId};
use std::alloc::Global;

impl<'a> Machine<'a> {
    /// Begins a call with the values from this place on.
    pub(crate) fn call(
        &mut self,
        code: Code<'a>,
        callee: FunctionId,
        pre: Option<CheckId>,
        measure: Option<CheckId>,
        first: usize,
    ) -> Result<(), Halt>
        requires { AllHeld self.old.stacks }
        ensures { Comes code.entry result self.new self.old.stacks.here.called
            (call code.entry callee pre measure first (left code.entry self.old.todo) (state_of self.old.stacks)) }
    {
        if self.stacks.here.fuel == 0 {
            return Err(Halt::Stopped(Stop::Deep));
        }
        match at(code.functions, callee.0 as usize) {
            None => Err(Halt::Stopped(Stop::Stuck)),
            Some(function) => {
                let count = self.stacks.pass(first)?;
                let site = Site {
                    function,
                    callee,
                    count,
                    pre,
                    measure,
                };
                self.enter(code, site)
            }
        }
    }

    // The precondition, and then the rest of the call.
    fn enter(&mut self, code: Code<'a>, site: Site<'a>) -> Result<(), Halt>
        requires { AllHeld self.old.stacks }
        ensures { Comes code.entry result self.new self.old.stacks.here.called
            (enter code.entry site.entry (left code.entry self.old.todo) (state_of self.old.stacks)) }
    {
        match &site.function.pre {
            None => self.begin(code, site),
            Some(condition) => {
                let here = self.stacks.here;
                self.todo.push(Todo::Admit(site))?;
                self.todo.push(Todo::Back(here))?;
                self.todo.push(Todo::Eval(condition))?;
                self.stacks.here = inner(here, site, None);
                Ok(())
            }
        }
    }

    /// Goes on with the call where the precondition is true; else the site's check fails.
    pub(crate) fn admit(
        &mut self,
        alloc: Global,
        code: Code<'a>,
        site: Site<'a>,
    ) -> Result<(), Halt>
        requires { AllHeld self.old.stacks }
        ensures { Comes code.entry result self.new self.old.stacks.here.called
            (admit code.entry site.entry (left code.entry self.old.todo) (state_of self.old.stacks)) }
    {
        if self.stacks.test(alloc)? {
            self.begin(code, site)
        } else {
            failed(site.pre)
        }
    }

    // The measure list, and then the rest of the call.
    fn begin(&mut self, code: Code<'a>, site: Site<'a>) -> Result<(), Halt>
        requires { AllHeld self.old.stacks }
        ensures { Comes code.entry result self.new self.old.stacks.here.called
            (begin code.entry site.entry (left code.entry self.old.todo) (state_of self.old.stacks)) }
    {
        let here = self.stacks.here;
        let measure = site.function.measure.as_slice();
        if measure.is_empty() {
            return self.body(code, site, None);
        }
        let first = self.stacks.temps.len();
        self.todo.push(Todo::Descend(site, first))?;
        self.todo.push(Todo::Back(here))?;
        self.todo.push(Todo::EvalAll(measure))?;
        self.stacks.here = inner(here, site, None);
        Ok(())
    }

    /// Goes on with the call where the measure values from this place on are below the frame's; else the site's check
    /// fails.
    pub(crate) fn descend(
        &mut self,
        alloc: Global,
        code: Code<'a>,
        site: Site<'a>,
        first: usize,
    ) -> Result<(), Halt>
        requires { AllHeld self.old.stacks }
        ensures { Comes code.entry result self.new self.old.stacks.here.called
            (descend code.entry site.entry first (left code.entry self.old.todo) (state_of self.old.stacks)) }
    {
        self.stacks.compare(alloc, code.ctors, site.measure, first)?;
        let count = self.stacks.measure(first)?;
        self.body(code, site, Some(count))
    }

    // The body, in a frame with so many measure values.
    fn body(&mut self, code: Code<'a>, site: Site<'a>, measured: Option<usize>) -> Result<(), Halt>
        requires { AllHeld self.old.stacks }
        ensures { Comes code.entry result self.new self.old.stacks.here.called
            (in_body code.entry site.entry measured (left code.entry self.old.todo) (state_of self.old.stacks)) }
    {
        let here = self.stacks.here;
        self.todo.push(Todo::Leave(here))?;
        self.todo.push(Todo::Eval(&site.function.body))?;
        self.stacks.here = inner(here, site, measured);
        Ok(())
    }
}

/// The frame of the called function, with one unit of fuel less than its caller's.
fn inner(here: Here, site: Site<'_>, measured: Option<usize>) -> Here
    ensures { result ≡ inner here site.entry measured }
{
    Here {
        fuel: here.fuel.saturating_sub(1),
        called: Some(site.callee),
        bound: site.count,
        measured,
    }
}
