//! Expressions and cases.

ghost use Rattle.std.specs.Prelude.{◌≡◌, IfOk, map, option_map};
ghost use Rattle.pp_tree.specs.Shown.{tree_of, trees, case_of, case_trees, case_before, type_of, type_trees};
ghost use Rattle.pp_tree.specs.Shown.{pattern_of};
ghost use Rattle.pp_tree.specs.Plain.{int, bool, name, apply, field, unary, binary, choice, matching, val_in};
ghost use Rattle.pp_tree.specs.Plain.{assert_in};

use crate::kept::keep;
use crate::rows::{above, highest, row};
use crate::types::{tree_alone, written_levels};
use crate::{Built, NoMemory};
use bumpalo::Bump;
use pp_tree::{BinaryOp, Case, Expr, ExprKind, Pattern, TypeText, UnaryOp};

/// A number.
pub fn int<'a>(arena: &'a Bump, at: u32, value: i32) -> Result<&'a Built<Expr<'a>>, NoMemory>
    ensures { IfOk result (λ b. tree_of b.now.tree ≡ int at value) }
{
    let kind = ExprKind::Int(value);
    let tree = Expr { at, kind };
    keep(arena, Built { tree, levels: 1 })
}

/// A truth value.
pub fn bool<'a>(arena: &'a Bump, at: u32, value: bool) -> Result<&'a Built<Expr<'a>>, NoMemory>
    ensures { IfOk result (λ b. tree_of b.now.tree ≡ bool at value) }
{
    let kind = ExprKind::Bool(value);
    let tree = Expr { at, kind };
    keep(arena, Built { tree, levels: 1 })
}

/// A name.
pub fn name<'a>(arena: &'a Bump, at: u32, text: &'a str) -> Result<&'a Built<Expr<'a>>, NoMemory>
    ensures { IfOk result (λ b. tree_of b.now.tree ≡ name at text.now) }
{
    let kind = ExprKind::Name(text);
    let tree = Expr { at, kind };
    keep(arena, Built { tree, levels: 1 })
}

/// An application of a name, with the type arguments that are written.
pub fn apply<'a>(
    arena: &'a Bump,
    at: u32,
    name: &'a str,
    types: &[&Built<TypeText<'a>>],
    args: &[&Built<Expr<'a>>],
) -> Result<&'a Built<Expr<'a>>, NoMemory>
    ensures { IfOk result (λ b. tree_of b.now.tree ≡ apply at name.now
        (type_trees (map (λ t. type_of t.now.tree) types.now)) (trees (map (λ a. tree_of a.now.tree) args.now))) }
{
    let levels = above(highest(types).max(highest(args)));
    let types = row(arena, types)?;
    let args = row(arena, args)?;
    let kind = ExprKind::Apply(name, types, args);
    let tree = Expr { at, kind };
    keep(arena, Built { tree, levels })
}

/// A field of an expression.
pub fn field<'a>(
    arena: &'a Bump,
    at: u32,
    of: &'a Built<Expr<'a>>,
    name: &'a str,
) -> Result<&'a Built<Expr<'a>>, NoMemory>
    ensures { IfOk result (λ b. tree_of b.now.tree ≡ field at (tree_of of.now.tree) name.now) }
{
    let levels = above(of.levels);
    let kind = ExprKind::Field(&of.tree, name);
    let tree = Expr { at, kind };
    keep(arena, Built { tree, levels })
}

/// A prefix operation.
pub fn unary<'a>(
    arena: &'a Bump,
    at: u32,
    op: UnaryOp,
    operand: &'a Built<Expr<'a>>,
) -> Result<&'a Built<Expr<'a>>, NoMemory>
    ensures { IfOk result (λ b. tree_of b.now.tree ≡ unary at op (tree_of operand.now.tree)) }
{
    let levels = above(operand.levels);
    let kind = ExprKind::Unary(op, &operand.tree);
    let tree = Expr { at, kind };
    keep(arena, Built { tree, levels })
}

/// A binary operation.
pub fn binary<'a>(
    arena: &'a Bump,
    at: u32,
    op: BinaryOp,
    left: &'a Built<Expr<'a>>,
    right: &'a Built<Expr<'a>>,
) -> Result<&'a Built<Expr<'a>>, NoMemory>
    ensures { IfOk result (λ b. tree_of b.now.tree
        ≡ binary at op (tree_of left.now.tree) (tree_of right.now.tree)) }
{
    let levels = above(left.levels.max(right.levels));
    let kind = ExprKind::Binary(op, &left.tree, &right.tree);
    let tree = Expr { at, kind };
    keep(arena, Built { tree, levels })
}

/// An `if`.
pub fn choice<'a>(
    arena: &'a Bump,
    at: u32,
    test: &'a Built<Expr<'a>>,
    yes: &'a Built<Expr<'a>>,
    no: &'a Built<Expr<'a>>,
) -> Result<&'a Built<Expr<'a>>, NoMemory>
    ensures { IfOk result (λ b. tree_of b.now.tree
        ≡ choice at (tree_of test.now.tree) (tree_of yes.now.tree) (tree_of no.now.tree)) }
{
    let levels = above(test.levels.max(yes.levels.max(no.levels)));
    let kind = ExprKind::If(&test.tree, &yes.tree, &no.tree);
    let tree = Expr { at, kind };
    keep(arena, Built { tree, levels })
}

/// A match.
pub fn matching<'a>(
    arena: &'a Bump,
    at: u32,
    matched: &'a Built<Expr<'a>>,
    cases: &[&Built<Case<'a>>],
) -> Result<&'a Built<Expr<'a>>, NoMemory>
    ensures { IfOk result (λ b. tree_of b.now.tree ≡ matching at (tree_of matched.now.tree)
        (case_trees (map (λ c. case_of c.now.tree) cases.now))) }
{
    let levels = above(matched.levels.max(highest(cases)));
    let kind = ExprKind::Match(&matched.tree, row(arena, cases)?);
    let tree = Expr { at, kind };
    keep(arena, Built { tree, levels })
}

/// A case of a match.
pub fn case<'a>(
    arena: &'a Bump,
    pattern: &Built<Pattern<'a>>,
    guard: Option<&Built<Expr<'a>>>,
    body: &Built<Expr<'a>>,
) -> Result<&'a Built<Case<'a>>, NoMemory>
    ensures { IfOk result (λ b. case_of b.now.tree ≡ case_before (pattern_of pattern.now.tree)
        (option_map (λ g. tree_of g.now.tree) guard.entry) (tree_of body.now.tree)) }
{
    let (guard, levels) = match guard {
        None => (None, body.levels),
        Some(guard) => (Some(guard.tree), guard.levels.max(body.levels)),
    };
    let levels = pattern.levels.max(levels);
    let tree = Case {
        pattern: pattern.tree,
        guard,
        body: body.tree,
    };
    keep(arena, Built { tree, levels })
}

/// A `val`, and what follows it.
pub fn val_in<'a>(
    arena: &'a Bump,
    at: u32,
    name: &'a str,
    of: Option<&Built<TypeText<'a>>>,
    value: &'a Built<Expr<'a>>,
    rest: &'a Built<Expr<'a>>,
) -> Result<&'a Built<Expr<'a>>, NoMemory>
    ensures { IfOk result (λ b. tree_of b.now.tree ≡ val_in at name.now
        (option_map (λ t. type_of t.now.tree) of.entry) (tree_of value.now.tree) (tree_of rest.now.tree)) }
{
    let levels = above(written_levels(of).max(value.levels.max(rest.levels)));
    let kind = ExprKind::Val(name, tree_alone(of), &value.tree, &rest.tree);
    let tree = Expr { at, kind };
    keep(arena, Built { tree, levels })
}

/// An `assert`, and what follows it.
pub fn assert_in<'a>(
    arena: &'a Bump,
    at: u32,
    claim: &'a Built<Expr<'a>>,
    rest: &'a Built<Expr<'a>>,
) -> Result<&'a Built<Expr<'a>>, NoMemory>
    ensures { IfOk result (λ b. tree_of b.now.tree
        ≡ assert_in at (tree_of claim.now.tree) (tree_of rest.now.tree)) }
{
    let levels = above(claim.levels.max(rest.levels));
    let kind = ExprKind::Assert(&claim.tree, &rest.tree);
    let tree = Expr { at, kind };
    keep(arena, Built { tree, levels })
}
