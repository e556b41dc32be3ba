//! The modes: what was read last.

use crate::Kind;

/// What was read last. Each stands for the mode of `pp_grammar` that has its name, whose parts lie on the stack. A
/// number is the offset at which that form stands, in bytes, and behind a minus sign also that of the sign's end; a
/// truth value, whether the hole stands in the expression.
#[derive(Clone, Copy)]
pub enum Mode {
    Want,
    Have(bool),
    AfterName(u32),
    AfterNameTypes(u32),
    ArgsOpen(u32),
    AfterInt(u32),
    AfterIntDot(u32),
    AfterMinus(u32, u32),
    HaveNegative,
    AfterNegativeDot,
    AfterDot(bool),
    AfterIf(u32),
    WantThen,
    WantElse,
    AfterMatch(u32),
    WantCase,
    HaveMatched,
    AfterMatchedDot,
    WantPattern,
    AfterPatternName(u32),
    AfterPatternMinus(u32, u32),
    PatternArgsOpen(u32),
    HavePattern,
    WantType,
    AfterTypeName(u32),
    HaveType,
    WantStat,
    AfterStat,
    AfterLast,
    AfterValWord(u32),
    AfterValName(u32),
    AfterAssertWord(u32),
    AfterRequire,
    AfterDecreases(u32),
    MeasureOpen,
    AfterTuple,
    WantBody,
    HaveContracted,
    AfterContractedDot,
    AfterEnsuring(u32),
    WantLambdaOrSemi,
    WantLambda,
    AfterLambdaName(u32),
    AfterLambdaRound,
    AfterLambdaRoundName(u32),
    AfterLambdaClosed(u32),
    AfterLambdaTyped,
    AfterClaim,
    AfterBody,
    WantName(Kind),
    AfterHeadName,
    WantTypeParam,
    AfterTypeParam,
    AfterTypeParams,
    ParamsOpen,
    WantParam,
    AfterParamName(u32),
    AfterParams,
    WantObjectName,
    AfterObjectName(u32),
}

/// What a token does within a declaration: the reading goes on in a mode, or the declaration, which lies on the stack,
/// has ended before it.
#[derive(Clone, Copy)]
pub enum Move {
    Go(Mode),
    Ends,
}
