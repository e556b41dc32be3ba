//! How the reading goes on: a frame is opened above its parts, or what was read is put on the stack.

ghost use Rattle.pp_tokens.specs.Spans.{IsSpan};
ghost use Rattle.pp_tree.specs.Shown.{pattern_of, tree_of};
ghost use Rattle.pp_grammar.specs.Words.{word};
ghost use Rattle.pp_parse_state.specs.Shown.{Moves, move_of, shown, with_expr, with_frame, with_name, with_pattern};
ghost use Rattle.pp_parse_state.specs.declared.mode.Move.TheVariants.{Go};

use pp_parse_state::{Current, Frame, Mode, Move, Stack, Stop};
use pp_tree::{Expr, Pattern};
use pp_tree_build::Built;

/// The frame is opened above its parts, and the reading goes on in the mode.
pub fn open<'a>(stack: &mut Stack<'a>, frame: Frame, mode: Mode) -> Result<Move, Stop<'a>>
    ensures { Moves result stack.new (move_of (with_frame frame (shown stack.old)) (Go mode)) }
{
    stack.push(frame)?;
    Ok(Move::Go(mode))
}

/// The reading goes on behind the token, which is a name.
pub fn behind_word<'a>(
    cx: &Current<'a, '_>,
    stack: &mut Stack<'a>,
    mode: Mode,
) -> Result<Move, Stop<'a>>
    requires { IsSpan cx.now.text.now cx.now.token }
    ensures { Moves result stack.new (move_of (with_name (word cx.now.text.now cx.now.token) (shown stack.old))
        (Go mode)) }
{
    stack.put_name(cx.word()?)?;
    Ok(Move::Go(mode))
}

/// The reading goes on behind the pattern.
pub fn behind_pattern<'a>(
    stack: &mut Stack<'a>,
    pattern: &'a Built<Pattern<'a>>,
    mode: Mode,
) -> Result<Move, Stop<'a>>
    ensures { Moves result stack.new (move_of (with_pattern (pattern_of pattern.now.tree) (shown stack.old))
        (Go mode)) }
{
    stack.put_pattern(pattern)?;
    Ok(Move::Go(mode))
}

/// The reading goes on behind the expression.
pub fn behind_expr<'a>(
    stack: &mut Stack<'a>,
    tree: &'a Built<Expr<'a>>,
    mode: Mode,
) -> Result<Move, Stop<'a>>
    ensures { Moves result stack.new (move_of (with_expr (tree_of tree.now.tree) (shown stack.old)) (Go mode)) }
{
    stack.put_expr(tree)?;
    Ok(Move::Go(mode))
}
