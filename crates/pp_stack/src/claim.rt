//! The end of a run: the postcondition, and the result.

ghost use Rattle.std.specs.Prelude.{◌≡◌, ◌∷◌, ◌++◌, [], None, Ok};
ghost use Rattle.pp_eval.specs.Meaning.{meaning};
ghost use Rattle.pp_eval.specs.Part.{Tells};
ghost use Rattle.pp_eval.specs.Runs as spec;
ghost use Rattle.pp_eval.specs.declared.outcome.Outcome.TheVariants.{Done};
ghost use Rattle.pp_store.specs.Values.{IsHeld, value_of};
ghost use Rattle.pp_stack.specs.Claims.{claimed};
ghost use Rattle.pp_stack.specs.Heads.{Shows};
ghost use Rattle.pp_stack.specs.Left.{calls};
ghost use Rattle.pp_stack.specs.Moves.{AllHeld, Moves};
ghost use Rattle.pp_stack.specs.State.{frame_in, pushed, scope, state_of, with_bound};

use crate::machine::Machine;
use crate::stacks::Stacks;
use crate::todo::Code;
use pp_eval::{Halt, Outcome, Stop};
use pp_prog::{CheckId, Expr};
use pp_store::Held;
use std::alloc::Global;

impl Stacks {
    /// Puts a value on top, and binds it too.
    fn bind_held(&mut self, held: Held) -> Result<(), Halt>
        requires all { AllHeld self.old }
        requires one { IsHeld self.old.store held }
        ensures { Moves result self.new (Ok (with_bound (value_of self.old.store held ∷ [])
            (pushed (state_of self.old) (value_of self.old.store held)))) }
    {
        self.push(held)?;
        self.push(held)?;
        self.bind_one()
    }
}

impl<'a> Machine<'a> {
    /// The outcome of a run whose body has this result: the postcondition, of the arguments and the result.
    pub(crate) fn finish(
        &mut self,
        alloc: Global,
        code: Code<'a>,
        post: &'a Option<(CheckId, Expr)>,
        held: Held,
        turns: &mut u64,
    ) -> Result<Outcome, Halt>
        requires all { AllHeld self.old.stacks }
        requires one { IsHeld self.old.stacks.store held }
        requires idle { self.old.todo ≡ [] }
        requires own { self.old.stacks.here.called ≡ None }
        ensures { Tells result (spec.finished (calls code.entry self.old.stacks.here.fuel) post.now
            (frame_in (state_of self.old.stacks)) (scope (state_of self.old.stacks))
            (value_of self.old.stacks.store held)) }
    {
        match post {
            None => self.done(alloc, held),
            Some((check, claim)) => {
                let result = self.claim(alloc, code, *check, claim, held, turns)?;
                self.done(alloc, result)
            }
        }
    }

    // The result, where the claim is true of it; else the check fails. It stays on top while the claim is evaluated.
    fn claim(
        &mut self,
        alloc: Global,
        code: Code<'a>,
        check: CheckId,
        claim: &'a Expr,
        held: Held,
        turns: &mut u64,
    ) -> Result<Held, Halt>
        requires all { AllHeld self.old.stacks }
        requires one { IsHeld self.old.stacks.store held }
        requires idle { self.old.todo ≡ [] }
        requires own { self.old.stacks.here.called ≡ None }
        ensures { Shows self.new.stacks.store result (claimed check (value_of self.old.stacks.store held)
            (meaning (calls code.entry self.old.stacks.here.fuel) claim.now (frame_in (state_of self.old.stacks))
            (scope (state_of self.old.stacks) ++ value_of self.old.stacks.store held ∷ []))) }
    {
        self.stacks.bind_held(held)?;
        if self.truth(alloc, code, claim, turns)? {
            self.stacks.pop()
        } else {
            Err(Halt::Stopped(Stop::Fails(check)))
        }
    }

    // The outcome with this result.
    fn done(&self, alloc: Global, held: Held) -> Result<Outcome, Halt>
        requires { IsHeld self.now.stacks.store held }
        ensures { Tells result (Ok (Done (value_of self.now.stacks.store held))) }
    {
        Ok(Outcome::Done(self.stacks.store.unload(alloc, held)?))
    }
}
