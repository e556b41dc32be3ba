//! Lists of parts on the stack: what joins them, and what they become when they end.

ghost use Rattle.std.specs.Prelude.{◌≡◌, [], ◌∷◌, IfOk, option_map};
ghost use Rattle.pp_tree.specs.Plain.{matching, no_cases};
ghost use Rattle.pp_tree.specs.Shown.{pattern_of, tree_of};
ghost use Rattle.pp_grammar.specs.Joining.{cases_onto};
ghost use Rattle.pp_parse_state.specs.Parts.{top_case_list};
ghost use Rattle.pp_parse_state.specs.Shown.{expr_on, shown, with_case_list, with_expr};
ghost use Rattle.pp_parse_state.specs.Values.{case_text, stacked};
ghost use Rattle.pp_parse_state.specs.Shown.{without_case_list, without_expr, without_guard, without_pattern};
ghost use Rattle.pp_parse_frames.specs.Taken.{applied, applied_alone, case_on, expr_listed, pattern_listed};
ghost use Rattle.pp_parse_frames.specs.Taken.{pattern_whole, type_listed, type_whole};

use pp_parse_state::{Current, NoMemory, Stack};
use pp_tree::{Case, Expr, Pattern};
use pp_tree_build::{Built, case, ctor_pattern, matching, type_text};

/// The expression on the stack joins the list of expressions.
#[tactic(auto, using(pp_parse_state::proofs::Stacked::stacked_push))]
pub fn list_expr(stack: &mut Stack<'_>) -> Result<(), NoMemory>
    ensures { IfOk result (λ _. shown stack.new ≡ expr_listed (shown stack.old)) }
{
    let last = stack.take_expr();
    let mut list = stack.take_expr_list();
    list.push(last)?;
    stack.put_expr_list(list)
}

/// The type on the stack joins the list of types.
#[tactic(auto, using(pp_parse_state::proofs::Stacked::stacked_push))]
pub fn list_type(stack: &mut Stack<'_>) -> Result<(), NoMemory>
    ensures { IfOk result (λ _. shown stack.new ≡ type_listed (shown stack.old)) }
{
    let last = stack.take_type();
    let mut list = stack.take_type_list();
    list.push(last)?;
    stack.put_type_list(list)
}

/// The pattern on the stack joins the list of patterns.
#[tactic(auto, using(pp_parse_state::proofs::Stacked::stacked_push))]
pub fn list_pattern(stack: &mut Stack<'_>) -> Result<(), NoMemory>
    ensures { IfOk result (λ _. shown stack.new ≡ pattern_listed (shown stack.old)) }
{
    let last = stack.take_pattern();
    let mut list = stack.take_pattern_list();
    list.push(last)?;
    stack.put_pattern_list(list)
}

/// The name on the stack and the list of types become a type.
#[tactic(auto, using(crate::proofs::Finished::types_whole))]
pub fn whole_type<'a>(cx: &Current<'a, '_>, stack: &mut Stack<'a>, at: u32) -> Result<(), NoMemory>
    ensures { IfOk result (λ _. shown stack.new ≡ type_whole at (shown stack.old)) }
{
    let args = stack.take_type_list();
    let name = stack.take_name();
    stack.put_type(type_text(cx.arena, at, name, &args)?)
}

/// The name on the stack and the list of patterns become a constructor's pattern.
#[tactic(auto, using(crate::proofs::Finished::patterns_whole))]
pub fn whole_pattern<'a>(
    cx: &Current<'a, '_>,
    stack: &mut Stack<'a>,
    at: u32,
) -> Result<(), NoMemory>
    ensures { IfOk result (λ _. shown stack.new ≡ pattern_whole at (shown stack.old)) }
{
    let fields = stack.take_pattern_list();
    let name = stack.take_name();
    stack.put_pattern(ctor_pattern(cx.arena, at, None, name, &fields)?)
}

/// The name on the stack, the list of types and that of expressions become a call.
#[tactic(auto, using(crate::proofs::Finished::types_whole, crate::proofs::Finished::trees_whole))]
pub fn apply<'a>(cx: &Current<'a, '_>, stack: &mut Stack<'a>, at: u32) -> Result<(), NoMemory>
    ensures { IfOk result (λ _. shown stack.new ≡ applied at (shown stack.old)) }
{
    let args = stack.take_expr_list();
    let types = stack.take_type_list();
    let name = stack.take_name();
    stack.put_expr(pp_tree_build::apply(cx.arena, at, name, &types, &args)?)
}

/// The name on the stack and the list of types become a call without arguments.
#[tactic(auto, using(crate::proofs::Finished::types_whole))]
pub fn apply_alone<'a>(cx: &Current<'a, '_>, stack: &mut Stack<'a>, at: u32) -> Result<(), NoMemory>
    ensures { IfOk result (λ _. shown stack.new ≡ applied_alone at (shown stack.old)) }
{
    let types = stack.take_type_list();
    let name = stack.take_name();
    stack.put_expr(pp_tree_build::apply(cx.arena, at, name, &types, &[])?)
}

/// The case of these parts.
fn whole_case<'a>(
    cx: &Current<'a, '_>,
    pattern: &Built<Pattern<'a>>,
    guard: Option<&Built<Expr<'a>>>,
    body: &Built<Expr<'a>>,
) -> Result<&'a Built<Case<'a>>, NoMemory>
    ensures { IfOk result (λ c. case_text c.now.tree ≡ record {
      pattern = pattern_of pattern.now.tree;
      guard = option_map (λ g. tree_of g.now.tree) guard.entry;
      body = tree_of body.now.tree;
    }) }
{
    case(cx.arena, pattern, guard, body)
}

/// The pattern, the guard and the body on the stack join the list of cases.
#[tactic(auto, using(pp_parse_state::proofs::Stacked::stacked_push))]
pub fn list_case<'a>(cx: &Current<'a, '_>, stack: &mut Stack<'a>) -> Result<(), NoMemory>
    ensures { IfOk result (λ _. shown stack.new ≡ with_case_list (case_on (shown stack.old)
        ∷ top_case_list (shown stack.old).parts) (without_case_list (without_pattern (without_guard (without_expr
        (shown stack.old)))))) }
{
    let body = stack.take_expr();
    let guard = stack.take_guard();
    let pattern = stack.take_pattern();
    let mut list = stack.take_case_list();
    list.push(whole_case(cx, pattern, guard, body)?)?;
    stack.put_case_list(list)
}

/// The match of the expression, with all its cases.
#[tactic(auto, using(crate::proofs::Finished::cases_finished))]
fn match_of<'a>(
    cx: &Current<'a, '_>,
    at: u32,
    of: &'a Built<Expr<'a>>,
    cases: &[&Built<Case<'a>>],
) -> Result<&'a Built<Expr<'a>>, NoMemory>
    ensures { IfOk result (λ e. tree_of e.now.tree ≡ matching at (tree_of of.now.tree) (cases_onto
        (stacked (λ c. case_text c.now.tree) cases.now []) no_cases)) }
{
    matching(cx.arena, at, of, cases)
}

/// The expression on the stack and the list of cases become a match.
pub fn whole_match<'a>(cx: &Current<'a, '_>, stack: &mut Stack<'a>, at: u32) -> Result<(), NoMemory>
    ensures { IfOk result (λ _. shown stack.new ≡ with_expr (matching at (expr_on (shown stack.old))
        (cases_onto (top_case_list (shown stack.old).parts) no_cases))
        (without_case_list (without_expr (shown stack.old)))) }
{
    let cases = stack.take_case_list();
    let of = stack.take_expr();
    stack.put_expr(match_of(cx, at, of, &cases)?)
}
