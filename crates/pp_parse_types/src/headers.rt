//! The steps in the heads of classes and functions.

ghost use Rattle.pp_tokens.specs.Spans.{IsSpan};
ghost use Rattle.pp_grammar.specs.StepBodies.{on_after_params, on_no_params, on_type_param};
ghost use Rattle.pp_parse_state.specs.declared.frame.Frame.TheVariants.{Header};
ghost use Rattle.pp_parse_state.specs.declared.frame.Kind.TheVariants.{Class, Def};
ghost use Rattle.pp_parse_state.specs.declared.mode.Mode.TheVariants.{AfterHeadName, AfterObjectName, AfterParamName};
ghost use Rattle.pp_parse_state.specs.declared.mode.Mode.TheVariants.{AfterParams, AfterTypeParam, AfterTypeParams};
ghost use Rattle.pp_parse_state.specs.declared.mode.Mode.TheVariants.{ParamsOpen, WantName, WantObjectName};
ghost use Rattle.pp_parse_state.specs.declared.mode.Mode.TheVariants.{WantParam, WantTypeParam};
ghost use Rattle.pp_parse_state.specs.declared.stack.Stack.{Stack};
ghost use Rattle.pp_parse_state.specs.Shown.{Moves, frames, frames_of, shown, step_in, with_frame};

use pp_parse_frames::heads::{add_type_param, class_ends, end_params, head_at};
use pp_parse_frames::opening::{behind_word, open};
use pp_parse_state::{Current, Frame, Kind, Mode, Move, Stack, Stop};
use pp_tokens::{Bracket, Operator, Reserved, TokenKind};

/// The name of a class or a function is wanted.
pub fn on_want_name<'a>(
    cx: &Current<'a, '_>,
    stack: &mut Stack<'a>,
    kind: Kind,
) -> Result<Move, Stop<'a>>
    requires { IsSpan cx.now.text.now cx.now.token }
    ensures { Moves result stack.new (step_in cx.now.text.now cx.now.token (WantName kind) (shown stack.old)) }
{
    match cx.token.kind {
        TokenKind::Name => {
            stack.put_head(head_at(cx, cx.token.from, cx.word()?))?;
            open(stack, Frame::Header(kind), Mode::AfterHeadName)
        }
        _ => Err(cx.refuse()),
    }
}

/// Behind the parameters of a class.
fn on_class_params<'a>(
    cx: &Current<'a, '_>,
    stack: &mut Stack<'a>,
    sealed: bool,
    case: bool,
    is_trait: bool,
) -> Result<Move, Stop<'a>>
    requires { IsSpan cx.now.text.now cx.now.token }
    ensures { Moves result stack.new (on_after_params cx.now.text.now cx.now.token
        (frames_of (with_frame (Header (Class sealed case is_trait)) (shown stack.old))) cx.now.token.kind) }
{
    match cx.token.kind {
        TokenKind::Word(Reserved::Extends) => {
            let kind = Kind::Class {
                sealed,
                case,
                is_trait,
            };
            stack.push(Frame::Header(kind))?;
            open(stack, Frame::ParentType, Mode::WantType)
        }
        _ => class_ends(cx, stack, sealed, case, is_trait, None),
    }
}

/// Behind the parameters of a function.
fn on_def_params<'a>(cx: &Current<'a, '_>, stack: &mut Stack<'a>) -> Result<Move, Stop<'a>>
    requires { IsSpan cx.now.text.now cx.now.token }
    ensures { Moves result stack.new (on_after_params cx.now.text.now cx.now.token
        (frames_of (with_frame (Header Def) (shown stack.old))) cx.now.token.kind) }
{
    match cx.token.kind {
        TokenKind::Op(Operator::Colon) => {
            stack.push(Frame::Header(Kind::Def))?;
            open(stack, Frame::ResultType, Mode::WantType)
        }
        _ => Err(cx.refuse()),
    }
}

/// Behind the parameters.
pub fn on_after_params<'a>(cx: &Current<'a, '_>, stack: &mut Stack<'a>) -> Result<Move, Stop<'a>>
    requires { IsSpan cx.now.text.now cx.now.token }
    ensures { Moves result stack.new (step_in cx.now.text.now cx.now.token AfterParams (shown stack.old)) }
{
    match stack.pop() {
        Some(
            Frame::Header(
                Kind::Class {
                    sealed,
                    case,
                    is_trait,
                },
            ),
        ) => on_class_params(cx, stack, sealed, case, is_trait),
        Some(Frame::Header(Kind::Def)) => on_def_params(cx, stack),
        _ => Err(cx.refuse()),
    }
}

/// Behind the type parameters.
pub fn on_after_type_params<'a>(
    cx: &Current<'a, '_>,
    stack: &mut Stack<'a>,
) -> Result<Move, Stop<'a>>
    requires { IsSpan cx.now.text.now cx.now.token }
    ensures { Moves result stack.new (step_in cx.now.text.now cx.now.token AfterTypeParams (shown stack.old)) }
{
    match cx.token.kind {
        TokenKind::Mark(Bracket::OpenRound) => Ok(Move::Go(Mode::ParamsOpen)),
        _ => on_after_params(cx, stack),
    }
}

/// Behind the name of a class or a function.
pub fn on_head_name<'a>(cx: &Current<'a, '_>, stack: &mut Stack<'a>) -> Result<Move, Stop<'a>>
    requires { IsSpan cx.now.text.now cx.now.token }
    ensures { Moves result stack.new (step_in cx.now.text.now cx.now.token AfterHeadName (shown stack.old)) }
{
    match cx.token.kind {
        TokenKind::Mark(Bracket::OpenSquare) => Ok(Move::Go(Mode::WantTypeParam)),
        _ => on_after_type_params(cx, stack),
    }
}

/// A type parameter.
fn on_type_param<'a>(cx: &Current<'a, '_>, stack: &mut Stack<'a>) -> Result<Move, Stop<'a>>
    requires { IsSpan cx.now.text.now cx.now.token }
    ensures { Moves result stack.new (on_type_param cx.now.text.now cx.now.token (frames stack.old)) }
{
    match stack.pop() {
        Some(Frame::Header(kind)) => {
            add_type_param(cx, stack)?;
            open(stack, Frame::Header(kind), Mode::AfterTypeParam)
        }
        _ => Err(cx.refuse()),
    }
}

/// A type parameter is wanted.
pub fn on_want_type_param<'a>(cx: &Current<'a, '_>, stack: &mut Stack<'a>) -> Result<Move, Stop<'a>>
    requires { IsSpan cx.now.text.now cx.now.token }
    ensures { Moves result stack.new (step_in cx.now.text.now cx.now.token WantTypeParam (shown stack.old)) }
{
    match cx.token.kind {
        TokenKind::Name => on_type_param(cx, stack),
        _ => Err(cx.refuse()),
    }
}

/// Behind a type parameter.
pub fn on_after_type_param<'a>(cx: &Current<'a, '_>) -> Result<Move, Stop<'a>>
    requires { IsSpan cx.now.text.now cx.now.token }
    ensures { (s : Stack) → Moves result s (step_in cx.now.text.now cx.now.token AfterTypeParam (shown s)) }
{
    match cx.token.kind {
        TokenKind::Mark(Bracket::Comma) => Ok(Move::Go(Mode::WantTypeParam)),
        TokenKind::Mark(Bracket::CloseSquare) => Ok(Move::Go(Mode::AfterTypeParams)),
        _ => Err(cx.refuse()),
    }
}

/// A parameter is wanted.
pub fn on_want_param<'a>(cx: &Current<'a, '_>, stack: &mut Stack<'a>) -> Result<Move, Stop<'a>>
    requires { IsSpan cx.now.text.now cx.now.token }
    ensures { Moves result stack.new (step_in cx.now.text.now cx.now.token WantParam (shown stack.old)) }
{
    match cx.token.kind {
        TokenKind::Name => behind_word(cx, stack, Mode::AfterParamName(cx.token.from)),
        _ => Err(cx.refuse()),
    }
}

/// An empty list of parameters.
fn on_no_params<'a>(cx: &Current<'a, '_>, stack: &mut Stack<'a>) -> Result<Move, Stop<'a>>
    requires { IsSpan cx.now.text.now cx.now.token }
    ensures { Moves result stack.new (on_no_params cx.now.text.now cx.now.token (frames stack.old)) }
{
    match stack.pop() {
        Some(Frame::Header(kind)) => {
            end_params(stack)?;
            open(stack, Frame::Header(kind), Mode::AfterParams)
        }
        _ => Err(cx.refuse()),
    }
}

/// Behind the bracket that opens the parameters.
pub fn on_params_open<'a>(cx: &Current<'a, '_>, stack: &mut Stack<'a>) -> Result<Move, Stop<'a>>
    requires { IsSpan cx.now.text.now cx.now.token }
    ensures { Moves result stack.new (step_in cx.now.text.now cx.now.token ParamsOpen (shown stack.old)) }
{
    match cx.token.kind {
        TokenKind::Mark(Bracket::CloseRound) => on_no_params(cx, stack),
        _ => on_want_param(cx, stack),
    }
}

/// Behind the name of a parameter.
pub fn on_param_name<'a>(
    cx: &Current<'a, '_>,
    stack: &mut Stack<'a>,
    at: u32,
) -> Result<Move, Stop<'a>>
    requires { IsSpan cx.now.text.now cx.now.token }
    ensures { Moves result stack.new (step_in cx.now.text.now cx.now.token (AfterParamName at) (shown stack.old)) }
{
    match cx.token.kind {
        TokenKind::Op(Operator::Colon) => open(stack, Frame::ParamType(at), Mode::WantType),
        _ => Err(cx.refuse()),
    }
}

/// The name of a case object is wanted.
pub fn on_want_object_name<'a>(
    cx: &Current<'a, '_>,
    stack: &mut Stack<'a>,
) -> Result<Move, Stop<'a>>
    requires { IsSpan cx.now.text.now cx.now.token }
    ensures { Moves result stack.new (step_in cx.now.text.now cx.now.token WantObjectName (shown stack.old)) }
{
    match cx.token.kind {
        TokenKind::Name => behind_word(cx, stack, Mode::AfterObjectName(cx.token.from)),
        _ => Err(cx.refuse()),
    }
}

/// Behind the name of a case object.
pub fn on_object_name<'a>(
    cx: &Current<'a, '_>,
    stack: &mut Stack<'a>,
    at: u32,
) -> Result<Move, Stop<'a>>
    requires { IsSpan cx.now.text.now cx.now.token }
    ensures { Moves result stack.new (step_in cx.now.text.now cx.now.token (AfterObjectName at) (shown stack.old)) }
{
    match cx.token.kind {
        TokenKind::Word(Reserved::Extends) => open(stack, Frame::ObjectParent(at), Mode::WantType),
        _ => Err(cx.refuse()),
    }
}
