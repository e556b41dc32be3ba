//! Contracts, postconditions and misplaced names.

ghost use Rattle.std.specs.Prelude.{◌≡◌, [], IfOk, None, Some};
ghost use Rattle.pp_tokens.specs.declared.token.Token.{Token};
ghost use Rattle.pp_tokens.specs.Spans.{IsSpan};
ghost use Rattle.pp_tree.specs.Plain.{Word};
ghost use Rattle.pp_tree.specs.Shown.{tree_of};
ghost use Rattle.pp_grammar.specs.Words.{word};
ghost use Rattle.pp_grammar.specs.Joining.{late_behind};
ghost use Rattle.pp_grammar.specs.StepBodies.{misplaced_name};
ghost use Rattle.pp_grammar.specs.Bodies.{holding_at};
ghost use Rattle.pp_parse_state.specs.Shown.{Stops, shown, with_post};
ghost use Rattle.pp_parse_state.specs.Values.{stacked};
ghost use Rattle.pp_parse_state.specs.Words.{role_of};
ghost use Rattle.pp_parse_frames.specs.Taken.{claimed, measure_added, requirement_added, word_added};

use pp_parse_state::words::Role;
use pp_parse_state::{Current, NoMemory, Placed, Stack, Stop};
use pp_tree::Expr;
use pp_tree_build::{Built, Claim, name};

/// The name of the result in `holds` and in a claim with a hole.
pub const RES: &str = "res";

/// The contracts on the stack have one requirement more: the expression on the stack.
#[tactic(auto, using(pp_parse_state::proofs::Stacked::stacked_push))]
pub fn add_requirement(stack: &mut Stack<'_>) -> Result<(), NoMemory>
    ensures { IfOk result (λ _. shown stack.new ≡ requirement_added (shown stack.old)) }
{
    let claim = stack.take_expr();
    let mut contracts = stack.take_contracts();
    contracts.requirements.push(claim)?;
    stack.put_contracts(contracts)
}

/// Where a `decreases` stands that no `require` may follow, since one stands before it.
#[tactic(auto, using(crate::proofs::Late::behind_none, crate::proofs::Late::behind_some))]
fn late_behind(requirements: &[&Built<Expr>], at: u32) -> Option<u32>
    ensures { result ≡ late_behind (stacked (λ e. tree_of e.now.tree) requirements.now []) at }
{
    if requirements.is_empty() {
        return None;
    }
    Some(at)
}

/// The contracts on the stack have the measure whose `decreases` stands at the offset: the list of expressions.
#[tactic(auto, using(crate::proofs::Finished::list_finished))]
pub fn add_measure(stack: &mut Stack<'_>, at: u32) -> Result<(), NoMemory>
    ensures { IfOk result (λ _. shown stack.new ≡ measure_added at (shown stack.old)) }
{
    let components = stack.take_expr_list();
    let mut contracts = stack.take_contracts();
    contracts.late = late_behind(&contracts.requirements, at);
    contracts.measure = components;
    stack.put_contracts(contracts)
}

/// The token begins a contract: the contracts on the stack keep the first such word.
pub fn add_word<'a>(cx: &Current<'a, '_>, stack: &mut Stack<'a>) -> Result<(), NoMemory>
    requires { IsSpan cx.now.text.now cx.now.token }
    ensures { IfOk result (λ _. shown stack.new ≡ word_added (word cx.now.text.now cx.now.token) cx.now.token.from
        (shown stack.old)) }
{
    let word = cx.word()?;
    let mut contracts = stack.take_contracts();
    if contracts.first.is_none() {
        contracts.first = Some(Placed {
            word,
            at: cx.token.from,
        });
    }
    stack.put_contracts(contracts)
}

/// The name, the type and the expression on the stack become a postcondition.
pub fn claim(stack: &mut Stack<'_>, at: u32) -> Result<(), NoMemory>
    ensures { IfOk result (λ _. shown stack.new ≡ claimed at (shown stack.old)) }
{
    let claim = stack.take_expr();
    let of = stack.take_given_type();
    let name = stack.take_name();
    stack.put_post(Some(Claim {
        at,
        name,
        of,
        claim,
    }))
}

/// Puts the postcondition of `holds`, the result itself, on the stack.
pub fn hold<'a>(cx: &Current<'a, '_>, stack: &mut Stack<'a>) -> Result<(), NoMemory>
    ensures { IfOk result (λ _. shown stack.new ≡ with_post (holding_at cx.now.token) (shown stack.old)) }
{
    let at = cx.token.from;
    let claim = name(cx.arena, at, RES)?;
    stack.put_post(Some(Claim {
        at,
        name: RES,
        of: None,
        claim,
    }))
}

/// Why a name that was read before, which is no operand, is refused.
pub fn misplaced_name<'a>(at: u32, name: &'a str, role: Role) -> Stop<'a>
    ensures { (text : Word) (t : Token) → Stops result (misplaced_name text t at name.now (role_of role)) }
{
    match role {
        Role::Require | Role::Decreases => Stop::Unsupported(name, at),
        _ => Stop::Syntax(at),
    }
}
