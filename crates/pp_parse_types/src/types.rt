//! The steps in types.

ghost use Rattle.pp_tokens.specs.Spans.{IsSpan};
ghost use Rattle.pp_grammar.specs.StepTypes.{on_have_type};
ghost use Rattle.pp_parse_state.specs.declared.frame.Frame.TheVariants.{Header, NameTypes, ParamType, ParentType};
ghost use Rattle.pp_parse_state.specs.declared.frame.Frame.TheVariants.{ResultNameType, ResultNameTypeInRound};
ghost use Rattle.pp_parse_state.specs.declared.frame.Frame.TheVariants.{ResultType, TypeArgs, ValType};
ghost use Rattle.pp_parse_state.specs.declared.frame.Kind.TheVariants.{Def};
ghost use Rattle.pp_parse_state.specs.declared.mode.Mode.TheVariants.{AfterTypeName, HaveType, WantType};
ghost use Rattle.pp_parse_state.specs.Shown.{Moves, shown, step_in, type_on, under_type, with_frame};

use pp_parse_frames::heads::{add_param, class_ends, end_params, object_ends};
use pp_parse_frames::lists::{list_type, whole_type};
use pp_parse_frames::opening::{behind_word, open};
use pp_parse_state::{Contracts, Current, Frame, Kind, Mode, Move, Stack, Stop};
use pp_tokens::{Bracket, Operator, TokenKind};
use pp_tree_build::type_text;

/// Behind the type of a parameter.
fn on_param_type<'a>(cx: &Current<'a, '_>, stack: &mut Stack<'a>, at: u32) -> Result<Move, Stop<'a>>
    requires { IsSpan cx.now.text.now cx.now.token }
    ensures { Moves result stack.new (on_have_type cx.now.text.now cx.now.token
        (under_type (with_frame (ParamType at) (shown stack.old))) (type_on (shown stack.old)) cx.now.token.kind) }
{
    match stack.pop() {
        Some(Frame::Header(kind)) => on_typed_param(cx, stack, at, kind),
        _ => Err(cx.refuse()),
    }
}

/// Behind the type of a parameter, above the head.
fn on_typed_param<'a>(
    cx: &Current<'a, '_>,
    stack: &mut Stack<'a>,
    at: u32,
    kind: Kind,
) -> Result<Move, Stop<'a>>
    requires { IsSpan cx.now.text.now cx.now.token }
    ensures { Moves result stack.new (on_have_type cx.now.text.now cx.now.token
        (under_type (with_frame (ParamType at) (with_frame (Header kind) (shown stack.old))))
        (type_on (shown stack.old)) cx.now.token.kind) }
{
    add_param(cx, stack, at)?;
    match cx.token.kind {
        TokenKind::Mark(Bracket::Comma) => open(stack, Frame::Header(kind), Mode::WantParam),
        TokenKind::Mark(Bracket::CloseRound) => {
            end_params(stack)?;
            open(stack, Frame::Header(kind), Mode::AfterParams)
        }
        _ => Err(cx.refuse()),
    }
}

/// Behind the type of the result.
fn on_result_type<'a>(cx: &Current<'a, '_>, stack: &mut Stack<'a>) -> Result<Move, Stop<'a>>
    requires { IsSpan cx.now.text.now cx.now.token }
    ensures { Moves result stack.new (on_have_type cx.now.text.now cx.now.token
        (under_type (with_frame ResultType (shown stack.old))) (type_on (shown stack.old)) cx.now.token.kind) }
{
    match stack.pop() {
        Some(Frame::Header(Kind::Def)) => on_def_type(cx, stack),
        _ => Err(cx.refuse()),
    }
}

/// Behind the type of the result of a function, above its head.
fn on_def_type<'a>(cx: &Current<'a, '_>, stack: &mut Stack<'a>) -> Result<Move, Stop<'a>>
    requires { IsSpan cx.now.text.now cx.now.token }
    ensures { Moves result stack.new (on_have_type cx.now.text.now cx.now.token
        (under_type (with_frame ResultType (with_frame (Header Def) (shown stack.old)))) (type_on (shown stack.old))
        cx.now.token.kind) }
{
    match cx.token.kind {
        TokenKind::Op(Operator::Assign) => {
            stack.put_contracts(Contracts::none(cx.alloc))?;
            open(stack, Frame::BodyOf, Mode::WantBody)
        }
        _ => Err(cx.refuse()),
    }
}

/// Behind the parent: the class ends.
fn on_parent_type<'a>(cx: &Current<'a, '_>, stack: &mut Stack<'a>) -> Result<Move, Stop<'a>>
    requires { IsSpan cx.now.text.now cx.now.token }
    ensures { Moves result stack.new (on_have_type cx.now.text.now cx.now.token
        (under_type (with_frame ParentType (shown stack.old))) (type_on (shown stack.old)) cx.now.token.kind) }
{
    match stack.pop() {
        Some(
            Frame::Header(
                Kind::Class {
                    sealed,
                    case,
                    is_trait,
                },
            ),
        ) => {
            let parent = stack.take_type();
            class_ends(cx, stack, sealed, case, is_trait, Some(parent))
        }
        _ => Err(cx.refuse()),
    }
}

/// Behind a type argument.
fn on_type_arg<'a>(cx: &Current<'a, '_>, stack: &mut Stack<'a>, at: u32) -> Result<Move, Stop<'a>>
    requires { IsSpan cx.now.text.now cx.now.token }
    ensures { Moves result stack.new (on_have_type cx.now.text.now cx.now.token
        (under_type (with_frame (TypeArgs at) (shown stack.old))) (type_on (shown stack.old)) cx.now.token.kind) }
{
    list_type(stack)?;
    match cx.token.kind {
        TokenKind::Mark(Bracket::Comma) => open(stack, Frame::TypeArgs(at), Mode::WantType),
        TokenKind::Mark(Bracket::CloseSquare) => {
            whole_type(cx, stack, at)?;
            Ok(Move::Go(Mode::HaveType))
        }
        _ => Err(cx.refuse()),
    }
}

/// Behind a type argument of a name in an expression.
fn on_name_type<'a>(cx: &Current<'a, '_>, stack: &mut Stack<'a>, at: u32) -> Result<Move, Stop<'a>>
    requires { IsSpan cx.now.text.now cx.now.token }
    ensures { Moves result stack.new (on_have_type cx.now.text.now cx.now.token
        (under_type (with_frame (NameTypes at) (shown stack.old))) (type_on (shown stack.old)) cx.now.token.kind) }
{
    list_type(stack)?;
    match cx.token.kind {
        TokenKind::Mark(Bracket::Comma) => open(stack, Frame::NameTypes(at), Mode::WantType),
        TokenKind::Mark(Bracket::CloseSquare) => Ok(Move::Go(Mode::AfterNameTypes(at))),
        _ => Err(cx.refuse()),
    }
}

/// Behind the type of a `val`.
fn on_val_type<'a>(cx: &Current<'a, '_>, stack: &mut Stack<'a>, at: u32) -> Result<Move, Stop<'a>>
    requires { IsSpan cx.now.text.now cx.now.token }
    ensures { Moves result stack.new (on_have_type cx.now.text.now cx.now.token
        (under_type (with_frame (ValType at) (shown stack.old))) (type_on (shown stack.old)) cx.now.token.kind) }
{
    match cx.token.kind {
        TokenKind::Op(Operator::Assign) => {
            let of = stack.take_type();
            stack.put_given_type(Some(of))?;
            open(stack, Frame::ValValue(at), Mode::Want)
        }
        _ => Err(cx.refuse()),
    }
}

/// Behind the type of the result's name in a postcondition.
fn on_result_name_type<'a>(cx: &Current<'a, '_>, stack: &mut Stack<'a>) -> Result<Move, Stop<'a>>
    requires { IsSpan cx.now.text.now cx.now.token }
    ensures { Moves result stack.new (on_have_type cx.now.text.now cx.now.token
        (under_type (with_frame ResultNameType (shown stack.old))) (type_on (shown stack.old)) cx.now.token.kind) }
{
    match cx.token.kind {
        TokenKind::Op(Operator::Arrow) => {
            let of = stack.take_type();
            stack.put_given_type(Some(of))?;
            open(stack, Frame::Claiming, Mode::Want)
        }
        _ => Err(cx.refuse()),
    }
}

/// The same, in round brackets.
fn on_result_name_type_in_round<'a>(
    cx: &Current<'a, '_>,
    stack: &mut Stack<'a>,
) -> Result<Move, Stop<'a>>
    requires { IsSpan cx.now.text.now cx.now.token }
    ensures { Moves result stack.new (on_have_type cx.now.text.now cx.now.token
        (under_type (with_frame ResultNameTypeInRound (shown stack.old))) (type_on (shown stack.old))
        cx.now.token.kind) }
{
    match cx.token.kind {
        TokenKind::Mark(Bracket::CloseRound) => Ok(Move::Go(Mode::AfterLambdaTyped)),
        _ => Err(cx.refuse()),
    }
}

/// Behind a whole type.
pub fn on_have_type<'a>(cx: &Current<'a, '_>, stack: &mut Stack<'a>) -> Result<Move, Stop<'a>>
    requires { IsSpan cx.now.text.now cx.now.token }
    ensures { Moves result stack.new (step_in cx.now.text.now cx.now.token HaveType (shown stack.old)) }
{
    let Some(frame) = stack.pop() else {
        return Err(cx.refuse());
    };
    match frame {
        Frame::ParamType(at) => on_param_type(cx, stack, at),
        Frame::ResultType => on_result_type(cx, stack),
        Frame::ParentType => on_parent_type(cx, stack),
        Frame::ObjectParent(at) => object_ends(cx, stack, at),
        Frame::TypeArgs(at) => on_type_arg(cx, stack, at),
        Frame::NameTypes(at) => on_name_type(cx, stack, at),
        Frame::ValType(at) => on_val_type(cx, stack, at),
        Frame::ResultNameType => on_result_name_type(cx, stack),
        Frame::ResultNameTypeInRound => on_result_name_type_in_round(cx, stack),
        _ => Err(cx.refuse()),
    }
}

/// A type is wanted.
pub fn on_want_type<'a>(cx: &Current<'a, '_>, stack: &mut Stack<'a>) -> Result<Move, Stop<'a>>
    requires { IsSpan cx.now.text.now cx.now.token }
    ensures { Moves result stack.new (step_in cx.now.text.now cx.now.token WantType (shown stack.old)) }
{
    match cx.token.kind {
        TokenKind::Name => behind_word(cx, stack, Mode::AfterTypeName(cx.token.from)),
        _ => Err(cx.refuse()),
    }
}

/// Behind the name of a type.
pub fn on_type_name<'a>(
    cx: &Current<'a, '_>,
    stack: &mut Stack<'a>,
    at: u32,
) -> Result<Move, Stop<'a>>
    requires { IsSpan cx.now.text.now cx.now.token }
    ensures { Moves result stack.new (step_in cx.now.text.now cx.now.token (AfterTypeName at) (shown stack.old)) }
{
    match cx.token.kind {
        TokenKind::Mark(Bracket::OpenSquare) => {
            stack.put_type_list(Vec::new(cx.alloc))?;
            open(stack, Frame::TypeArgs(at), Mode::WantType)
        }
        _ => {
            let name = stack.take_name();
            stack.put_type(type_text(cx.arena, at, name, &[])?)?;
            on_have_type(cx, stack)
        }
    }
}
