//! The steps in statements and contracts.

ghost use Rattle.std.specs.Prelude.{[], ◌∷◌};
ghost use Rattle.pp_tokens.specs.Spans.{IsSpan};
ghost use Rattle.pp_tree.specs.Shown.{tree_of};
ghost use Rattle.pp_grammar.specs.Frames.{measuring};
ghost use Rattle.pp_grammar.specs.Joining.{has_measure};
ghost use Rattle.pp_grammar.specs.StepBodies.{on_decreases, on_decreases_word, on_require, on_require_word};
ghost use Rattle.pp_grammar.specs.StepBodies.{on_stat_name, on_tuple_closed};
ghost use Rattle.pp_parse_state.specs.declared.mode.Mode.TheVariants.{AfterAssertWord, AfterDecreases, AfterLast};
ghost use Rattle.pp_parse_state.specs.declared.mode.Mode.TheVariants.{AfterRequire, AfterStat, AfterTuple};
ghost use Rattle.pp_parse_state.specs.declared.mode.Mode.TheVariants.{AfterValName, AfterValWord, MeasureOpen};
ghost use Rattle.pp_parse_state.specs.declared.mode.Mode.TheVariants.{WantStat};
ghost use Rattle.pp_parse_state.specs.declared.stack.Stack.{Stack};
ghost use Rattle.pp_parse_state.specs.Parts.{top_contracts, top_expr_list};
ghost use Rattle.pp_parse_state.specs.Shown.{Moves, frames, frames_of, shown, step_in};
ghost use Rattle.pp_parse_state.specs.Values.{stacked};
ghost use Rattle.pp_parse_state.specs.Shown.{without_contracts, without_expr_list};
ghost use Rattle.pp_parse_state.specs.Words.{role_of};

use pp_parse_exprs::claims::on_measured;
use pp_parse_exprs::closing::{on_sealed_brace, on_sealed_case};
use pp_parse_exprs::operands::{on_operand_name, on_want};
use pp_parse_frames::contracts::add_word;
use pp_parse_frames::opening::{behind_word, open};
use pp_parse_state::words::Role;
use pp_parse_state::{Current, Frame, Mode, Move, Stack, Stop};
use pp_tokens::{Bracket, Operator, Reserved, TokenKind};
use pp_tree::Expr;
use pp_tree_build::Built;

/// `require` at the head of a body: it can't stand behind a `decreases` that stands behind another one.
fn on_require_word<'a>(cx: &Current<'a, '_>, stack: &mut Stack<'a>) -> Result<Move, Stop<'a>>
    requires { IsSpan cx.now.text.now cx.now.token }
    ensures { Moves result stack.new (on_require_word cx.now.text.now cx.now.token
        (frames_of (without_contracts (shown stack.old))) (top_contracts (shown stack.old).parts)
        (top_contracts (shown stack.old).parts).late) }
{
    let contracts = stack.take_contracts();
    if let Some(at) = contracts.late {
        return Err(Stop::Syntax(at));
    }
    stack.put_contracts(contracts)?;
    add_word(cx, stack)?;
    open(stack, Frame::HeadBraces, Mode::AfterRequire)
}

/// `decreases` at the head of a body: a second one can't stand there.
fn on_decreases_word<'a>(cx: &Current<'a, '_>, stack: &mut Stack<'a>) -> Result<Move, Stop<'a>>
    requires { IsSpan cx.now.text.now cx.now.token }
    ensures { Moves result stack.new (on_decreases_word cx.now.text.now cx.now.token
        (frames_of (without_contracts (shown stack.old))) (top_contracts (shown stack.old).parts)
        (has_measure (top_contracts (shown stack.old).parts).measure)) }
{
    let from = cx.token.from;
    let contracts = stack.take_contracts();
    if !contracts.measure.is_empty() {
        return Err(Stop::Syntax(from));
    }
    stack.put_contracts(contracts)?;
    add_word(cx, stack)?;
    open(stack, Frame::HeadBraces, Mode::AfterDecreases(from))
}

/// `require` where a statement may stand: contracts stand at the head of a body alone.
fn on_require<'a>(cx: &Current<'a, '_>, stack: &mut Stack<'a>) -> Result<Move, Stop<'a>>
    requires { IsSpan cx.now.text.now cx.now.token }
    ensures { Moves result stack.new (on_require cx.now.text.now cx.now.token (frames stack.old)) }
{
    match stack.pop() {
        Some(Frame::HeadBraces) => on_require_word(cx, stack),
        _ => Err(cx.refuse()),
    }
}

/// `decreases` where a statement may stand.
fn on_decreases<'a>(cx: &Current<'a, '_>, stack: &mut Stack<'a>) -> Result<Move, Stop<'a>>
    requires { IsSpan cx.now.text.now cx.now.token }
    ensures { Moves result stack.new (on_decreases cx.now.text.now cx.now.token (frames stack.old)) }
{
    match stack.pop() {
        Some(Frame::HeadBraces) => on_decreases_word(cx, stack),
        _ => Err(cx.refuse()),
    }
}

/// A name where a statement may stand.
fn on_stat_name<'a>(
    cx: &Current<'a, '_>,
    stack: &mut Stack<'a>,
    role: Role,
) -> Result<Move, Stop<'a>>
    requires { IsSpan cx.now.text.now cx.now.token }
    ensures { Moves result stack.new (on_stat_name cx.now.text.now cx.now.token (frames stack.old)
        (role_of role)) }
{
    match role {
        Role::Assert => Ok(Move::Go(Mode::AfterAssertWord(cx.token.from))),
        Role::Require => on_require(cx, stack),
        Role::Decreases => on_decreases(cx, stack),
        _ => on_operand_name(cx, stack, role),
    }
}

/// A contract, a statement or the last expression is wanted.
pub fn on_want_stat<'a>(cx: &Current<'a, '_>, stack: &mut Stack<'a>) -> Result<Move, Stop<'a>>
    requires { IsSpan cx.now.text.now cx.now.token }
    ensures { Moves result stack.new (step_in cx.now.text.now cx.now.token WantStat (shown stack.old)) }
{
    match cx.token.kind {
        TokenKind::Newline | TokenKind::Mark(Bracket::Semicolon) => Ok(Move::Go(Mode::WantStat)),
        TokenKind::Word(Reserved::Val) => Ok(Move::Go(Mode::AfterValWord(cx.token.from))),
        TokenKind::Name => on_stat_name(cx, stack, cx.role()),
        _ => on_want(cx, stack),
    }
}

/// Behind a statement.
pub fn on_after_stat<'a>(cx: &Current<'a, '_>) -> Result<Move, Stop<'a>>
    requires { IsSpan cx.now.text.now cx.now.token }
    ensures { (s : Stack) → Moves result s (step_in cx.now.text.now cx.now.token AfterStat (shown s)) }
{
    match cx.token.kind {
        TokenKind::Newline | TokenKind::Mark(Bracket::Semicolon) => Ok(Move::Go(Mode::WantStat)),
        _ => Err(cx.refuse()),
    }
}

/// Behind the last expression and semis.
pub fn on_after_last<'a>(cx: &Current<'a, '_>, stack: &mut Stack<'a>) -> Result<Move, Stop<'a>>
    requires { IsSpan cx.now.text.now cx.now.token }
    ensures { Moves result stack.new (step_in cx.now.text.now cx.now.token AfterLast (shown stack.old)) }
{
    match cx.token.kind {
        TokenKind::Newline | TokenKind::Mark(Bracket::Semicolon) => Ok(Move::Go(Mode::AfterLast)),
        TokenKind::Mark(Bracket::CloseBrace) => on_sealed_brace(cx, stack),
        TokenKind::Word(Reserved::Case) => on_sealed_case(cx, stack),
        _ => Err(cx.refuse()),
    }
}

/// Behind `val`.
pub fn on_val_word<'a>(
    cx: &Current<'a, '_>,
    stack: &mut Stack<'a>,
    at: u32,
) -> Result<Move, Stop<'a>>
    requires { IsSpan cx.now.text.now cx.now.token }
    ensures { Moves result stack.new (step_in cx.now.text.now cx.now.token (AfterValWord at) (shown stack.old)) }
{
    match cx.token.kind {
        TokenKind::Name => behind_word(cx, stack, Mode::AfterValName(at)),
        _ => Err(cx.refuse()),
    }
}

/// Behind `val` and a name.
pub fn on_val_name<'a>(
    cx: &Current<'a, '_>,
    stack: &mut Stack<'a>,
    at: u32,
) -> Result<Move, Stop<'a>>
    requires { IsSpan cx.now.text.now cx.now.token }
    ensures { Moves result stack.new (step_in cx.now.text.now cx.now.token (AfterValName at) (shown stack.old)) }
{
    match cx.token.kind {
        TokenKind::Op(Operator::Colon) => open(stack, Frame::ValType(at), Mode::WantType),
        TokenKind::Op(Operator::Assign) => {
            stack.put_given_type(None)?;
            open(stack, Frame::ValValue(at), Mode::Want)
        }
        _ => Err(cx.refuse()),
    }
}

/// Behind `assert`.
pub fn on_assert_word<'a>(
    cx: &Current<'a, '_>,
    stack: &mut Stack<'a>,
    at: u32,
) -> Result<Move, Stop<'a>>
    requires { IsSpan cx.now.text.now cx.now.token }
    ensures { Moves result stack.new (step_in cx.now.text.now cx.now.token (AfterAssertWord at) (shown stack.old)) }
{
    match cx.token.kind {
        TokenKind::Mark(Bracket::OpenRound) => open(stack, Frame::Asserting(at), Mode::Want),
        _ => Err(cx.refuse()),
    }
}

/// Behind `require`.
pub fn on_after_require<'a>(cx: &Current<'a, '_>, stack: &mut Stack<'a>) -> Result<Move, Stop<'a>>
    requires { IsSpan cx.now.text.now cx.now.token }
    ensures { Moves result stack.new (step_in cx.now.text.now cx.now.token AfterRequire (shown stack.old)) }
{
    match cx.token.kind {
        TokenKind::Mark(Bracket::OpenRound) => open(stack, Frame::Requiring, Mode::Want),
        _ => Err(cx.refuse()),
    }
}

/// Behind `decreases`.
pub fn on_after_decreases<'a>(
    cx: &Current<'a, '_>,
    stack: &mut Stack<'a>,
    at: u32,
) -> Result<Move, Stop<'a>>
    requires { IsSpan cx.now.text.now cx.now.token }
    ensures { Moves result stack.new (step_in cx.now.text.now cx.now.token (AfterDecreases at) (shown stack.old)) }
{
    match cx.token.kind {
        TokenKind::Mark(Bracket::OpenRound) => {
            stack.put_expr_list(Vec::new(cx.alloc))?;
            open(stack, Frame::Measuring(at), Mode::MeasureOpen)
        }
        _ => Err(cx.refuse()),
    }
}

/// Behind `decreases(`.
pub fn on_measure_open<'a>(cx: &Current<'a, '_>, stack: &mut Stack<'a>) -> Result<Move, Stop<'a>>
    requires { IsSpan cx.now.text.now cx.now.token }
    ensures { Moves result stack.new (step_in cx.now.text.now cx.now.token MeasureOpen (shown stack.old)) }
{
    match cx.token.kind {
        TokenKind::Mark(Bracket::OpenRound) => open(stack, Frame::TupleOrRound, Mode::Want),
        _ => on_want(cx, stack),
    }
}

/// Behind the outer bracket of a measure in two brackets.
fn on_tuple_closed<'a>(cx: &Current<'a, '_>, stack: &mut Stack<'a>) -> Result<Move, Stop<'a>>
    requires { IsSpan cx.now.text.now cx.now.token }
    ensures { Moves result stack.new (on_tuple_closed cx.now.text.now cx.now.token
        (frames_of (without_expr_list (shown stack.old))) (top_expr_list (shown stack.old).parts)) }
{
    match stack.pop() {
        Some(Frame::Measuring(at)) => {
            let components = stack.take_expr_list();
            let outer = stack.take_expr_list();
            on_tuple_within(cx, stack, at, outer, components)
        }
        _ => Err(cx.refuse()),
    }
}

/// Behind the outer bracket of a measure in two brackets, which has these components outside of the inner ones:
/// there can be none.
#[tactic(auto, using(crate::proofs::Tuples::tuple_taken, crate::proofs::Tuples::tuple_refused))]
fn on_tuple_within<'a>(
    cx: &Current<'a, '_>,
    stack: &mut Stack<'a>,
    at: u32,
    outer: Vec<&'a Built<Expr<'a>>>,
    components: Vec<&'a Built<Expr<'a>>>,
) -> Result<Move, Stop<'a>>
    requires { IsSpan cx.now.text.now cx.now.token }
    ensures { Moves result stack.new (on_tuple_closed cx.now.text.now cx.now.token
        (measuring at (stacked (λ e. tree_of e.now.tree) outer.entry.items []) ∷ frames stack.old)
        (stacked (λ e. tree_of e.now.tree) components.entry.items [])) }
{
    if !outer.is_empty() {
        return Err(cx.refuse());
    }
    stack.put_expr_list(components)?;
    on_measured(cx, stack, at)
}

/// Behind the inner bracket of a measure.
pub fn on_after_tuple<'a>(cx: &Current<'a, '_>, stack: &mut Stack<'a>) -> Result<Move, Stop<'a>>
    requires { IsSpan cx.now.text.now cx.now.token }
    ensures { Moves result stack.new (step_in cx.now.text.now cx.now.token AfterTuple (shown stack.old)) }
{
    match cx.token.kind {
        TokenKind::Mark(Bracket::CloseRound) => on_tuple_closed(cx, stack),
        _ => Err(cx.refuse()),
    }
}
