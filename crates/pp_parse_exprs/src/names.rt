//! The steps behind a name in an expression.

ghost use Rattle.std.specs.Prelude.{[], ◌∷◌, false};
ghost use Rattle.pp_tokens.specs.Spans.{IsSpan};
ghost use Rattle.pp_tree.specs.Plain.{apply, name, no_trees, no_types};
ghost use Rattle.pp_grammar.specs.Frames.{args};
ghost use Rattle.pp_grammar.specs.Joining.{types_onto};
ghost use Rattle.pp_grammar.specs.StepExprs.{on_bound, on_have, on_name, on_want};
ghost use Rattle.pp_parse_state.specs.declared.mode.Mode.TheVariants.{AfterInt, AfterIntDot, AfterName};
ghost use Rattle.pp_parse_state.specs.declared.mode.Mode.TheVariants.{AfterNameTypes, ArgsOpen};
ghost use Rattle.pp_parse_state.specs.declared.stack.Stack.{Stack};
ghost use Rattle.pp_parse_state.specs.Parts.{top_type_list};
ghost use Rattle.pp_parse_state.specs.Shown.{Moves, frames, frames_of, name_on, shown, step_in, under_name, without_name};
ghost use Rattle.pp_parse_state.specs.Shown.{without_type_list};

use crate::infix::on_have;
use crate::operands::on_want;
use pp_parse_frames::lists::apply_alone;
use pp_parse_frames::opening::{behind_expr, open};
use pp_parse_state::words::bound_of;
use pp_parse_state::{Current, Frame, Mode, Move, Stack, Stop};
use pp_tokens::{Bracket, TokenKind};
use pp_tree_build::int;

/// Behind a name.
pub fn on_name<'a>(cx: &Current<'a, '_>, stack: &mut Stack<'a>, at: u32) -> Result<Move, Stop<'a>>
    requires { IsSpan cx.now.text.now cx.now.token }
    ensures { Moves result stack.new (on_name cx.now.text.now cx.now.token (under_name (shown stack.old)) at
        (name_on (shown stack.old)) cx.now.token.kind) }
{
    match cx.token.kind {
        TokenKind::Mark(Bracket::OpenSquare) => {
            stack.put_type_list(Vec::new(cx.alloc))?;
            open(stack, Frame::NameTypes(at), Mode::WantType)
        }
        TokenKind::Mark(Bracket::OpenRound) => {
            stack.put_type_list(Vec::new(cx.alloc))?;
            Ok(Move::Go(Mode::ArgsOpen(at)))
        }
        _ => on_bare_name(cx, stack, at),
    }
}

/// Behind a name that stands alone.
pub fn on_bare_name<'a>(
    cx: &Current<'a, '_>,
    stack: &mut Stack<'a>,
    at: u32,
) -> Result<Move, Stop<'a>>
    requires { IsSpan cx.now.text.now cx.now.token }
    ensures { Moves result stack.new (on_have cx.now.text.now cx.now.token (under_name (shown stack.old))
        (name at (name_on (shown stack.old))) false cx.now.token.kind) }
{
    let name = stack.take_name();
    stack.put_expr(pp_tree_build::name(cx.arena, at, name)?)?;
    on_have(cx, stack, false)
}

/// Behind a name with type arguments.
pub fn on_name_types<'a>(
    cx: &Current<'a, '_>,
    stack: &mut Stack<'a>,
    at: u32,
) -> Result<Move, Stop<'a>>
    requires { IsSpan cx.now.text.now cx.now.token }
    ensures { Moves result stack.new (step_in cx.now.text.now cx.now.token (AfterNameTypes at) (shown stack.old)) }
{
    match cx.token.kind {
        TokenKind::Mark(Bracket::OpenRound) => Ok(Move::Go(Mode::ArgsOpen(at))),
        _ => on_bare_types(cx, stack, at),
    }
}

/// Behind a name with type arguments and no others.
fn on_bare_types<'a>(cx: &Current<'a, '_>, stack: &mut Stack<'a>, at: u32) -> Result<Move, Stop<'a>>
    requires { IsSpan cx.now.text.now cx.now.token }
    ensures { Moves result stack.new (on_have cx.now.text.now cx.now.token
        (frames_of (without_type_list (without_name (shown stack.old))))
        (apply at (name_on (shown stack.old)) (types_onto (top_type_list (shown stack.old).parts) no_types) no_trees)
        false cx.now.token.kind) }
{
    apply_alone(cx, stack, at)?;
    on_have(cx, stack, false)
}

/// Before the first argument.
pub fn on_args_open<'a>(
    cx: &Current<'a, '_>,
    stack: &mut Stack<'a>,
    at: u32,
) -> Result<Move, Stop<'a>>
    requires { IsSpan cx.now.text.now cx.now.token }
    ensures { Moves result stack.new (step_in cx.now.text.now cx.now.token (ArgsOpen at) (shown stack.old)) }
{
    if !cx.closes_round() {
        return on_first_arg(cx, stack, at);
    }
    apply_alone(cx, stack, at)?;
    Ok(Move::Go(Mode::Have(false)))
}

/// The first argument begins.
fn on_first_arg<'a>(cx: &Current<'a, '_>, stack: &mut Stack<'a>, at: u32) -> Result<Move, Stop<'a>>
    requires { IsSpan cx.now.text.now cx.now.token }
    ensures { Moves result stack.new (on_want cx.now.text.now cx.now.token (args at
        (name_on (shown stack.old)) (types_onto (top_type_list (shown stack.old).parts) no_types) []
        ∷ frames_of (without_type_list (without_name (shown stack.old)))) cx.now.token.kind) }
{
    stack.put_expr_list(Vec::new(cx.alloc))?;
    stack.push(Frame::Args(at))?;
    on_want(cx, stack)
}

/// Behind `Int`, which stands before its bounds alone.
pub fn on_int<'a>(cx: &Current<'a, '_>, at: u32) -> Result<Move, Stop<'a>>
    requires { IsSpan cx.now.text.now cx.now.token }
    ensures { (s : Stack) → Moves result s (step_in cx.now.text.now cx.now.token (AfterInt at) (shown s)) }
{
    match cx.token.kind {
        TokenKind::Mark(Bracket::Dot) => Ok(Move::Go(Mode::AfterIntDot(at))),
        _ => Err(Stop::Syntax(at)),
    }
}

/// A bound of `Int`.
fn on_bound<'a>(
    cx: &Current<'a, '_>,
    stack: &mut Stack<'a>,
    at: u32,
    value: Option<i32>,
) -> Result<Move, Stop<'a>>
    requires { IsSpan cx.now.text.now cx.now.token }
    ensures { Moves result stack.new (on_bound cx.now.text.now cx.now.token (frames stack.old) at value) }
{
    match value {
        Some(n) => behind_expr(stack, int(cx.arena, at, n)?, Mode::Have(false)),
        None => Err(cx.refuse()),
    }
}

/// Behind `Int` and a dot.
pub fn on_int_dot<'a>(
    cx: &Current<'a, '_>,
    stack: &mut Stack<'a>,
    at: u32,
) -> Result<Move, Stop<'a>>
    requires { IsSpan cx.now.text.now cx.now.token }
    ensures { Moves result stack.new (step_in cx.now.text.now cx.now.token (AfterIntDot at) (shown stack.old)) }
{
    match cx.token.kind {
        TokenKind::Name => on_bound(cx, stack, at, bound_of(cx.text())),
        _ => Err(cx.refuse()),
    }
}
