//! Heads of classes and functions, and what they end in.

ghost use Rattle.std.specs.Prelude.{◌≡◌, IfOk, option_map};
ghost use Rattle.pp_tokens.specs.Spans.{IsSpan};
ghost use Rattle.pp_tree.specs.Shown.{type_of};
ghost use Rattle.pp_tree_build.specs.Parts.{class_as, class_parts, claim_parts};
ghost use Rattle.pp_grammar.specs.Units.{class_decl};
ghost use Rattle.pp_grammar.specs.Frames.{ends};
ghost use Rattle.pp_grammar.specs.Joining.{class_tree, def_tree, head_at, object_tree};
ghost use Rattle.pp_grammar.specs.Words.{word};
ghost use Rattle.pp_parse_state.specs.Parts.{top_contracts, top_head};
ghost use Rattle.pp_parse_state.specs.Shown.{Moves, expr_on, name_on, shown, type_on};
ghost use Rattle.pp_parse_state.specs.Values.{head_of};
ghost use Rattle.pp_parse_frames.specs.Taken.{param_added, params_ended, type_param_added};

use pp_parse_state::{Current, Head, Move, NoMemory, Stack, Stop};
use pp_tree::TypeText;
use pp_tree_build::{Built, Claim, ClassKind, ClassParts, DefParts, class, def, param};

/// The head on the stack has one type parameter more: the token.
#[tactic(auto, using(pp_parse_state::proofs::Stacked::stacked_push))]
pub fn add_type_param<'a>(cx: &Current<'a, '_>, stack: &mut Stack<'a>) -> Result<(), NoMemory>
    requires { IsSpan cx.now.text.now cx.now.token }
    ensures { IfOk result (λ _. shown stack.new ≡ type_param_added (word cx.now.text.now cx.now.token)
        (shown stack.old)) }
{
    let mut head = stack.take_head();
    head.type_params.push(cx.word()?)?;
    stack.put_head(head)
}

/// The head on the stack has one parameter more: that of the name and the type, which are on the stack too.
#[tactic(auto, using(pp_parse_state::proofs::Stacked::stacked_push))]
pub fn add_param<'a>(cx: &Current<'a, '_>, stack: &mut Stack<'a>, at: u32) -> Result<(), NoMemory>
    ensures { IfOk result (λ _. shown stack.new ≡ param_added at (shown stack.old)) }
{
    let of = stack.take_type();
    let name = stack.take_name();
    let mut head = stack.take_head();
    head.params.push(param(cx.arena, at, name, of)?)?;
    stack.put_head(head)
}

/// The head on the stack has its list of parameters.
pub fn end_params(stack: &mut Stack<'_>) -> Result<(), NoMemory>
    ensures { IfOk result (λ _. shown stack.new ≡ params_ended (shown stack.old)) }
{
    let mut head = stack.take_head();
    head.listed = true;
    stack.put_head(head)
}

/// Which kind of declaration a class or a trait is: with the word `case` a class is a constructor; with `sealed` and
/// without `case` it is a root, if it has neither fields nor a parent.
fn class_kind(sealed: bool, case: bool, is_trait: bool, parts: &ClassParts) -> ClassKind
    ensures { class_as result (class_parts parts.now) ≡ class_decl sealed case is_trait (class_parts parts.now) }
{
    if case && !is_trait {
        ClassKind::Ctor
    } else if sealed && !case && parts.fields.is_empty() && parts.parent.is_none() {
        ClassKind::Root
    } else {
        ClassKind::Other
    }
}

/// The class or trait, whose head is on the stack, ends.
#[tactic(auto, using(crate::proofs::Finished::list_finished))]
pub fn class_ends<'a>(
    cx: &Current<'a, '_>,
    stack: &mut Stack<'a>,
    sealed: bool,
    case: bool,
    is_trait: bool,
    parent: Option<&'a Built<TypeText<'a>>>,
) -> Result<Move, Stop<'a>>
    ensures { Moves result stack.new (ends (class_decl sealed case is_trait
        (class_tree (top_head (shown stack.old).parts) (option_map (λ t. type_of t.now.tree) parent.entry)))) }
{
    let head = stack.take_head();
    let parts = ClassParts {
        at: head.at,
        name: head.name,
        params: &head.type_params,
        fields: &head.params,
        parent,
        object: false,
    };
    let kind = class_kind(sealed, case, is_trait, &parts);
    stack.put_decl(class(cx.arena, kind, &parts)?)?;
    Ok(Move::Ends)
}

/// The case object, whose name and parent are on the stack, ends.
pub fn object_ends<'a>(
    cx: &Current<'a, '_>,
    stack: &mut Stack<'a>,
    at: u32,
) -> Result<Move, Stop<'a>>
    ensures { Moves result stack.new (ends (object_tree at (name_on (shown stack.old)) (type_on (shown stack.old)))) }
{
    let of = stack.take_type();
    let parts = ClassParts {
        at,
        name: stack.take_name(),
        params: &[],
        fields: &[],
        parent: Some(of),
        object: true,
    };
    stack.put_decl(class(cx.arena, ClassKind::Ctor, &parts)?)?;
    Ok(Move::Ends)
}

/// The head that begins with the name.
pub fn head_at<'a>(cx: &Current<'a, '_>, at: u32, name: &'a str) -> Head<'a>
    ensures { head_of result ≡ head_at at name.now }
{
    Head {
        at,
        name,
        type_params: Vec::new(cx.alloc),
        listed: false,
        params: Vec::new(cx.alloc),
    }
}

/// The function ends: its body, the type of its result, its contracts and its head are on the stack.
#[tactic(auto, using(crate::proofs::Finished::list_finished))]
pub fn def_ends<'a>(
    cx: &Current<'a, '_>,
    stack: &mut Stack<'a>,
    post: Option<Claim<'a>>,
) -> Result<Move, Stop<'a>>
    ensures { Moves result stack.new (ends (def_tree (top_head (shown stack.old).parts) (type_on (shown stack.old))
        (top_contracts (shown stack.old).parts) (expr_on (shown stack.old))
        (option_map claim_parts post.entry))) }
{
    let body = stack.take_expr();
    let head = stack.take_head();
    let result = stack.take_type();
    let contracts = stack.take_contracts();
    let parts = DefParts {
        at: head.at,
        name: head.name,
        type_params: &head.type_params,
        params: &head.params,
        list: head.listed,
        result,
        pre: &contracts.requirements,
        measure: &contracts.measure,
        body,
        post,
    };
    stack.put_decl(def(cx.arena, &parts)?)?;
    Ok(Move::Ends)
}
