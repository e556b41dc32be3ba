//! The step of each mode.

ghost use Rattle.pp_tokens.specs.Spans.{IsSpan};
ghost use Rattle.pp_parse_state.specs.Shown.{Moves, shown, step_in};

use pp_parse_bodies::bodies::{on_after_body, on_contracted_dot, on_have_contracted, on_want_body};
use pp_parse_bodies::posts::{
    on_after_claim, on_after_ensuring, on_lambda_closed, on_lambda_name, on_lambda_round,
    on_lambda_round_name, on_lambda_typed, on_want_lambda, on_want_lambda_or_semi,
};
use pp_parse_bodies::statements::{
    on_after_decreases, on_after_last, on_after_require, on_after_stat, on_after_tuple,
    on_assert_word, on_measure_open, on_val_name, on_val_word, on_want_stat,
};
use pp_parse_exprs::infix::{on_dot, on_have, on_have_negative, on_negative_dot};
use pp_parse_exprs::matches::{
    on_have_matched, on_match_word, on_matched_dot, on_want_case, on_want_else,
};
use pp_parse_exprs::names::{on_args_open, on_int, on_int_dot, on_name, on_name_types};
use pp_parse_exprs::operands::{on_if, on_minus, on_want, on_want_then};
use pp_parse_patterns::patterns::{
    on_have_pattern, on_pattern_args_open, on_pattern_minus, on_pattern_name, on_want_pattern,
};
use pp_parse_state::{Current, Mode, Move, Stack, Stop};
use pp_parse_types::headers::{
    on_after_params, on_after_type_param, on_after_type_params, on_head_name, on_object_name,
    on_param_name, on_params_open, on_want_name, on_want_object_name, on_want_param,
    on_want_type_param,
};
use pp_parse_types::types::{on_have_type, on_type_name, on_want_type};

/// What the token does within a declaration. Where there is no memory, the frames may be any.
pub fn on_mode<'a>(
    cx: &Current<'a, '_>,
    stack: &mut Stack<'a>,
    mode: Mode,
) -> Result<Move, Stop<'a>>
    requires { IsSpan cx.now.text.now cx.now.token }
    ensures { Moves result stack.new (step_in cx.now.text.now cx.now.token mode (shown stack.old)) }
{
    match mode {
        Mode::Want => on_want(cx, stack),
        Mode::Have(holed) => on_have(cx, stack, holed),
        Mode::AfterName(at) => on_name(cx, stack, at),
        Mode::AfterNameTypes(at) => on_name_types(cx, stack, at),
        Mode::ArgsOpen(at) => on_args_open(cx, stack, at),
        Mode::AfterInt(at) => on_int(cx, at),
        Mode::AfterIntDot(at) => on_int_dot(cx, stack, at),
        Mode::AfterMinus(at, end) => on_minus(cx, stack, at, end),
        Mode::HaveNegative => on_have_negative(cx, stack),
        Mode::AfterNegativeDot => on_negative_dot(cx, stack),
        Mode::AfterDot(holed) => on_dot(cx, stack, holed),
        Mode::AfterIf(at) => on_if(cx, stack, at),
        Mode::WantThen => on_want_then(cx, stack),
        Mode::WantElse => on_want_else(cx, stack),
        Mode::AfterMatch(at) => on_match_word(cx, stack, at),
        Mode::WantCase => on_want_case(cx),
        Mode::HaveMatched => on_have_matched(cx, stack),
        Mode::AfterMatchedDot => on_matched_dot(cx, stack),
        Mode::WantPattern => on_want_pattern(cx, stack),
        Mode::AfterPatternName(at) => on_pattern_name(cx, stack, at),
        Mode::AfterPatternMinus(at, end) => on_pattern_minus(cx, stack, at, end),
        Mode::PatternArgsOpen(at) => on_pattern_args_open(cx, stack, at),
        Mode::HavePattern => on_have_pattern(cx, stack),
        Mode::WantType => on_want_type(cx, stack),
        Mode::AfterTypeName(at) => on_type_name(cx, stack, at),
        Mode::HaveType => on_have_type(cx, stack),
        Mode::WantStat => on_want_stat(cx, stack),
        Mode::AfterStat => on_after_stat(cx),
        Mode::AfterLast => on_after_last(cx, stack),
        Mode::AfterValWord(at) => on_val_word(cx, stack, at),
        Mode::AfterValName(at) => on_val_name(cx, stack, at),
        Mode::AfterAssertWord(at) => on_assert_word(cx, stack, at),
        Mode::AfterRequire => on_after_require(cx, stack),
        Mode::AfterDecreases(at) => on_after_decreases(cx, stack, at),
        Mode::MeasureOpen => on_measure_open(cx, stack),
        Mode::AfterTuple => on_after_tuple(cx, stack),
        Mode::WantBody => on_want_body(cx, stack),
        Mode::HaveContracted => on_have_contracted(cx, stack),
        Mode::AfterContractedDot => on_contracted_dot(cx, stack),
        Mode::AfterEnsuring(at) => on_after_ensuring(cx, stack, at),
        Mode::WantLambdaOrSemi => on_want_lambda_or_semi(cx, stack),
        Mode::WantLambda => on_want_lambda(cx, stack),
        Mode::AfterLambdaName(at) => on_lambda_name(cx, stack, at),
        Mode::AfterLambdaRound => on_lambda_round(cx, stack),
        Mode::AfterLambdaRoundName(at) => on_lambda_round_name(cx, stack, at),
        Mode::AfterLambdaClosed(at) => on_lambda_closed(cx, stack, at),
        Mode::AfterLambdaTyped => on_lambda_typed(cx, stack),
        Mode::AfterClaim => on_after_claim(cx, stack),
        Mode::AfterBody => on_after_body(cx, stack),
        Mode::WantName(kind) => on_want_name(cx, stack, kind),
        Mode::AfterHeadName => on_head_name(cx, stack),
        Mode::WantTypeParam => on_want_type_param(cx, stack),
        Mode::AfterTypeParam => on_after_type_param(cx),
        Mode::AfterTypeParams => on_after_type_params(cx, stack),
        Mode::ParamsOpen => on_params_open(cx, stack),
        Mode::WantParam => on_want_param(cx, stack),
        Mode::AfterParamName(at) => on_param_name(cx, stack, at),
        Mode::AfterParams => on_after_params(cx, stack),
        Mode::WantObjectName => on_want_object_name(cx, stack),
        Mode::AfterObjectName(at) => on_object_name(cx, stack, at),
    }
}
