//! The steps in patterns.

ghost use Rattle.std.specs.Prelude.{◌≡◌, [], ◌∷◌, IfOk, None, option_map};
ghost use Rattle.pp_tokens.specs.Spans.{IsSpan};
ghost use Rattle.pp_tree.specs.Plain.{any as plain_any, bool_pattern as plain_bool};
ghost use Rattle.pp_tree.specs.Shown.{pattern_of};
ghost use Rattle.pp_grammar.specs.Frames.{go, have_pattern, pattern_args};
ghost use Rattle.pp_grammar.specs.Patterns.{named_at};
ghost use Rattle.pp_grammar.specs.StepTypes.{on_int_pattern, on_want_pattern, on_pattern_minus, on_pattern_arg};
ghost use Rattle.pp_grammar.specs.StepTypes.{on_pattern_round, on_case_pattern, on_named_pattern, on_naming};
ghost use Rattle.pp_grammar.specs.StepTypes.{on_have_pattern, on_pattern_at, on_pattern_name, on_pattern_args_open};
ghost use Rattle.pp_grammar.specs.StepTypes.{pattern_of_name, pattern_place};
ghost use Rattle.pp_parse_state.specs.declared.frame.Frame.TheVariants.{PatternArgs};
ghost use Rattle.pp_parse_state.specs.declared.mode.Mode.TheVariants.{AfterPatternMinus, AfterPatternName};
ghost use Rattle.pp_parse_state.specs.declared.stack.Stack.{Stack};
ghost use Rattle.pp_parse_state.specs.declared.mode.Mode.TheVariants.{HavePattern, PatternArgsOpen, WantPattern};
ghost use Rattle.pp_parse_state.specs.Shown.{Moves, frames, frames_of, name_on, pattern_on, shown, step_in, under_name};
ghost use Rattle.pp_parse_state.specs.Shown.{under_pattern, with_frame, without_name, without_pattern};

use pp_parse_frames::lists::{list_pattern, whole_pattern};
use pp_parse_frames::opening::{behind_pattern, behind_word, open};
use pp_parse_state::numbers::{is_signed, negated_of, negative_of, number_of};
use pp_parse_state::words::binds;
use pp_parse_state::{Current, Frame, Mode, Move, NoMemory, Stack, Stop};
use pp_tokens::{Bracket, Operator, Reserved, TokenKind};
use pp_tree::Pattern;
use pp_tree_build::{Built, any, bool_pattern, ctor_pattern, int_pattern, keep};

/// The offset of a pattern.
fn place(pattern: &Pattern) -> u32
    ensures { result ≡ pattern_place (pattern_of pattern.now) }
{
    pattern.at
}

/// The pattern under the name, which stands at the offset: a pattern has room for one name.
fn named_at<'a>(
    cx: &Current<'a, '_>,
    at: u32,
    name: &'a str,
    pattern: &Built<Pattern<'a>>,
) -> Result<Option<&'a Built<Pattern<'a>>>, NoMemory>
    ensures { IfOk result (λ p. option_map (λ b. pattern_of b.now.tree) p
        ≡ named_at at name.now (pattern_of pattern.now.tree)) }
{
    if pattern.tree.name.is_some() {
        return Ok(None);
    }
    let tree = Pattern {
        at,
        name: Some(name),
        kind: pattern.tree.kind,
    };
    let levels = pattern.levels;
    Ok(Some(keep(cx.arena, Built { tree, levels })?))
}

/// A name alone: it binds, or is a constructor.
fn pattern_of_name<'a>(
    cx: &Current<'a, '_>,
    at: u32,
    name: &'a str,
) -> Result<&'a Built<Pattern<'a>>, NoMemory>
    ensures { IfOk result (λ p. pattern_of p.now.tree ≡ pattern_of_name cx.now.text.now cx.now.token at name.now) }
{
    if binds(name) {
        return any(cx.arena, at, Some(name));
    }
    ctor_pattern(cx.arena, at, None, name, &[])
}

/// An integer pattern, if the token is a number that may stand there.
fn on_int_pattern<'a>(
    cx: &Current<'a, '_>,
    stack: &mut Stack<'a>,
    at: u32,
    value: Option<i32>,
) -> Result<Move, Stop<'a>>
    requires { IsSpan cx.now.text.now cx.now.token }
    ensures { Moves result stack.new (on_int_pattern cx.now.text.now cx.now.token (frames stack.old) at value) }
{
    match value {
        Some(n) => {
            let pattern = int_pattern(cx.arena, at, None, n)?;
            behind_pattern(stack, pattern, Mode::HavePattern)
        }
        None => Err(cx.refuse()),
    }
}

/// A truth value as a pattern.
fn on_bool_pattern<'a>(
    cx: &Current<'a, '_>,
    stack: &mut Stack<'a>,
    value: bool,
) -> Result<Move, Stop<'a>>
    ensures { Moves result stack.new (go (frames stack.old) (have_pattern (plain_bool cx.now.token.from None
        value))) }
{
    let pattern = bool_pattern(cx.arena, cx.token.from, None, value)?;
    behind_pattern(stack, pattern, Mode::HavePattern)
}

/// `_` as a pattern.
fn on_any_pattern<'a>(cx: &Current<'a, '_>, stack: &mut Stack<'a>) -> Result<Move, Stop<'a>>
    ensures { Moves result stack.new (go (frames stack.old) (have_pattern (plain_any cx.now.token.from None))) }
{
    let pattern = any(cx.arena, cx.token.from, None)?;
    behind_pattern(stack, pattern, Mode::HavePattern)
}

/// A pattern is wanted.
pub fn on_want_pattern<'a>(cx: &Current<'a, '_>, stack: &mut Stack<'a>) -> Result<Move, Stop<'a>>
    requires { IsSpan cx.now.text.now cx.now.token }
    ensures { Moves result stack.new (step_in cx.now.text.now cx.now.token WantPattern (shown stack.old)) }
{
    let from = cx.token.from;
    match cx.token.kind {
        TokenKind::Name => behind_word(cx, stack, Mode::AfterPatternName(from)),
        TokenKind::Hole => on_any_pattern(cx, stack),
        TokenKind::Number(_) => on_int_pattern(cx, stack, from, number_of(cx.token.kind)),
        TokenKind::Hex(_) => on_int_pattern(cx, stack, from, number_of(cx.token.kind)),
        TokenKind::Op(Operator::Minus) => Ok(Move::Go(Mode::AfterPatternMinus(from, cx.token.to))),
        TokenKind::Word(Reserved::True) => on_bool_pattern(cx, stack, true),
        TokenKind::Word(Reserved::False) => on_bool_pattern(cx, stack, false),
        TokenKind::Mark(Bracket::OpenRound) => open(stack, Frame::PatternRound, Mode::WantPattern),
        _ => Err(cx.refuse()),
    }
}

/// Behind a minus sign that ends at the offset.
pub fn on_pattern_minus<'a>(
    cx: &Current<'a, '_>,
    stack: &mut Stack<'a>,
    at: u32,
    end: u32,
) -> Result<Move, Stop<'a>>
    requires { IsSpan cx.now.text.now cx.now.token }
    ensures { Moves result stack.new (step_in cx.now.text.now cx.now.token (AfterPatternMinus at end)
        (shown stack.old)) }
{
    let value = if is_signed(end, cx.token) {
        negative_of(cx.token.kind)
    } else {
        negated_of(cx.token.kind)
    };
    on_int_pattern(cx, stack, at, value)
}

/// Behind an argument of a constructor, above the name and the arguments before.
fn on_pattern_arg<'a>(
    cx: &Current<'a, '_>,
    stack: &mut Stack<'a>,
    at: u32,
) -> Result<Move, Stop<'a>>
    requires { IsSpan cx.now.text.now cx.now.token }
    ensures { Moves result stack.new (on_named_pattern cx.now.text.now cx.now.token
        (under_pattern (with_frame (PatternArgs at) (shown stack.old))) (pattern_on (shown stack.old))
        cx.now.token.kind) }
{
    list_pattern(stack)?;
    match cx.token.kind {
        TokenKind::Mark(Bracket::Comma) => open(stack, Frame::PatternArgs(at), Mode::WantPattern),
        TokenKind::Mark(Bracket::CloseRound) => {
            whole_pattern(cx, stack, at)?;
            Ok(Move::Go(Mode::HavePattern))
        }
        _ => Err(cx.refuse()),
    }
}

/// Behind a pattern in round brackets.
fn on_pattern_round<'a>(cx: &Current<'a, '_>) -> Result<Move, Stop<'a>>
    requires { IsSpan cx.now.text.now cx.now.token }
    ensures { (s : Stack) → Moves result s (on_pattern_round cx.now.text.now cx.now.token
        (under_pattern (shown s)) (pattern_on (shown s)) cx.now.token.kind) }
{
    match cx.token.kind {
        TokenKind::Mark(Bracket::CloseRound) => Ok(Move::Go(Mode::HavePattern)),
        _ => Err(cx.refuse()),
    }
}

/// Behind the pattern of a case.
fn on_case_pattern<'a>(cx: &Current<'a, '_>, stack: &mut Stack<'a>) -> Result<Move, Stop<'a>>
    requires { IsSpan cx.now.text.now cx.now.token }
    ensures { Moves result stack.new (on_case_pattern cx.now.text.now cx.now.token (under_pattern (shown stack.old))
        (pattern_on (shown stack.old)) cx.now.token.kind) }
{
    match cx.token.kind {
        TokenKind::Word(Reserved::If) => open(stack, Frame::Guarding, Mode::Want),
        TokenKind::Op(Operator::Arrow) => {
            stack.put_guard(None)?;
            open(stack, Frame::Arm, Mode::WantStat)
        }
        _ => Err(cx.refuse()),
    }
}

/// Behind a pattern with its name.
fn on_named_pattern<'a>(cx: &Current<'a, '_>, stack: &mut Stack<'a>) -> Result<Move, Stop<'a>>
    requires { IsSpan cx.now.text.now cx.now.token }
    ensures { Moves result stack.new (on_named_pattern cx.now.text.now cx.now.token (under_pattern (shown stack.old))
        (pattern_on (shown stack.old)) cx.now.token.kind) }
{
    match stack.pop() {
        Some(frame) => on_named_above(cx, stack, frame),
        None => Err(cx.refuse()),
    }
}

/// Behind a pattern with its name, above the frame.
fn on_named_above<'a>(
    cx: &Current<'a, '_>,
    stack: &mut Stack<'a>,
    frame: Frame,
) -> Result<Move, Stop<'a>>
    requires { IsSpan cx.now.text.now cx.now.token }
    ensures { Moves result stack.new (on_named_pattern cx.now.text.now cx.now.token
        (under_pattern (with_frame frame (shown stack.old))) (pattern_on (shown stack.old)) cx.now.token.kind) }
{
    match frame {
        Frame::PatternRound => on_pattern_round(cx),
        Frame::PatternArgs(at) => on_pattern_arg(cx, stack, at),
        Frame::CasesOf(_) => {
            stack.push(frame)?;
            on_case_pattern(cx, stack)
        }
        _ => Err(cx.refuse()),
    }
}

/// Behind a pattern that the name on the stack stands before: it can't bind another one.
fn on_naming<'a>(cx: &Current<'a, '_>, stack: &mut Stack<'a>, at: u32) -> Result<Move, Stop<'a>>
    requires { IsSpan cx.now.text.now cx.now.token }
    ensures { Moves result stack.new (on_naming cx.now.text.now cx.now.token (frames_of (without_name
        (without_pattern (shown stack.old)))) (named_at at (name_on (shown stack.old)) (pattern_on (shown stack.old)))
        (pattern_on (shown stack.old)) cx.now.token.kind) }
{
    let name = stack.take_name();
    let pattern = stack.take_pattern();
    match named_at(cx, at, name, pattern)? {
        Some(named) => {
            stack.put_pattern(named)?;
            on_named_pattern(cx, stack)
        }
        None => Err(Stop::Syntax(place(&pattern.tree))),
    }
}

/// Behind a whole pattern.
pub fn on_have_pattern<'a>(cx: &Current<'a, '_>, stack: &mut Stack<'a>) -> Result<Move, Stop<'a>>
    requires { IsSpan cx.now.text.now cx.now.token }
    ensures { Moves result stack.new (step_in cx.now.text.now cx.now.token HavePattern (shown stack.old)) }
{
    match stack.pop() {
        Some(Frame::Naming(at)) => on_naming(cx, stack, at),
        Some(frame) => on_named_above(cx, stack, frame),
        None => Err(cx.refuse()),
    }
}

/// Behind `NAME @`: a name that stands behind another one's `@` has none.
fn on_pattern_at<'a>(cx: &Current<'a, '_>, stack: &mut Stack<'a>, at: u32) -> Result<Move, Stop<'a>>
    requires { IsSpan cx.now.text.now cx.now.token }
    ensures { Moves result stack.new (on_pattern_at cx.now.text.now cx.now.token (under_name (shown stack.old)) at
        (name_on (shown stack.old))) }
{
    match stack.pop() {
        Some(Frame::Naming(_)) => Err(cx.refuse()),
        Some(frame) => {
            stack.push(frame)?;
            open(stack, Frame::Naming(at), Mode::WantPattern)
        }
        None => open(stack, Frame::Naming(at), Mode::WantPattern),
    }
}

/// Behind a name in a pattern.
pub fn on_pattern_name<'a>(
    cx: &Current<'a, '_>,
    stack: &mut Stack<'a>,
    at: u32,
) -> Result<Move, Stop<'a>>
    requires { IsSpan cx.now.text.now cx.now.token }
    ensures { Moves result stack.new (step_in cx.now.text.now cx.now.token (AfterPatternName at) (shown stack.old)) }
{
    match cx.token.kind {
        TokenKind::Mark(Bracket::OpenRound) => Ok(Move::Go(Mode::PatternArgsOpen(at))),
        TokenKind::Op(Operator::At) => on_pattern_at(cx, stack, at),
        _ => {
            let name = stack.take_name();
            stack.put_pattern(pattern_of_name(cx, at, name)?)?;
            on_have_pattern(cx, stack)
        }
    }
}

/// The first argument of a constructor begins.
fn on_first_arg<'a>(cx: &Current<'a, '_>, stack: &mut Stack<'a>, at: u32) -> Result<Move, Stop<'a>>
    requires { IsSpan cx.now.text.now cx.now.token }
    ensures { Moves result stack.new (on_want_pattern cx.now.text.now cx.now.token
        (pattern_args at (name_on (shown stack.old)) [] ∷ under_name (shown stack.old)) cx.now.token.kind) }
{
    stack.put_pattern_list(Vec::new(cx.alloc))?;
    stack.push(Frame::PatternArgs(at))?;
    on_want_pattern(cx, stack)
}

/// Behind `NAME(` in a pattern.
pub fn on_pattern_args_open<'a>(
    cx: &Current<'a, '_>,
    stack: &mut Stack<'a>,
    at: u32,
) -> Result<Move, Stop<'a>>
    requires { IsSpan cx.now.text.now cx.now.token }
    ensures { Moves result stack.new (step_in cx.now.text.now cx.now.token (PatternArgsOpen at) (shown stack.old)) }
{
    if !cx.closes_round() {
        return on_first_arg(cx, stack, at);
    }
    let name = stack.take_name();
    let pattern = ctor_pattern(cx.arena, at, None, name, &[])?;
    behind_pattern(stack, pattern, Mode::HavePattern)
}
