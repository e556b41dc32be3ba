//! How types, patterns and expressions print: each node in round brackets, behind its offset.

use crate::adding::{push_at, push_name, push_word};
use pp_case_line::CaseLine;
use pp_tree::{BinaryOp, Case, Expr, ExprKind, Pattern, PatternKind, TypeText, UnaryOp};

/// The signs of the prefixes and of the operators with two operands, in the order of their enums.
const PREFIXES: [&str; 3] = ["-", "!", "~"];

const OPERATORS: [&str; 19] = [
    "+", "-", "*", "/", "%", "==", "!=", "<", "<=", ">", ">=", "&&", "||", "&", "|", "^", "<<",
    ">>", ">>>",
];

/// A type.
#[cycle(types)]
pub fn push_type(out: &mut CaseLine, of: &TypeText) {
    push_name(out, of.at, of.name);
    if !of.args.is_empty() {
        push_types(out, of.args);
    }
}

/// Types in square brackets.
#[cycle(types)]
fn push_types(out: &mut CaseLine, types: &[TypeText]) {
    out.put("[");
    for of in types {
        push_type(out, of);
    }
    out.put("]");
}

/// A type behind a word, where it is written.
pub fn push_written(out: &mut CaseLine, word: &str, of: &Option<TypeText>) {
    if let Some(of) = of {
        out.put(word);
        push_type(out, of);
    }
}

/// A pattern.
#[cycle(pattern)]
fn push_pattern(out: &mut CaseLine, pattern: &Pattern) {
    push_at(out, pattern.at);
    if let Some(name) = pattern.name {
        push_word(out, name, "@");
    }
    match pattern.kind {
        PatternKind::Any => out.put("_"),
        PatternKind::Int(n) => out.put(n),
        PatternKind::Bool(b) => out.put(b),
        PatternKind::Ctor(ctor, fields) => {
            push_word(out, "(", ctor);
            push_fields(out, fields)
        }
    }
}

/// The patterns of fields.
#[cycle(pattern)]
fn push_fields(out: &mut CaseLine, fields: &[Pattern]) {
    for field in fields {
        push_pattern(out, field);
    }
    out.put(")");
}

/// The sign of a prefix.
fn prefix(op: UnaryOp) -> &'static str {
    PREFIXES[op as usize]
}

/// The sign of an operator.
fn operator(op: BinaryOp) -> &'static str {
    OPERATORS[op as usize]
}

/// What stands before the parts of an expression.
fn push_head(out: &mut CaseLine, kind: &ExprKind) {
    match kind {
        ExprKind::Int(n) => out.put(*n),
        ExprKind::Bool(b) => out.put(*b),
        ExprKind::Name(name) => out.put(*name),
        ExprKind::Apply(name, types, _) => push_applied(out, name, types),
        ExprKind::Field(_, name) => push_word(out, "(.", name),
        ExprKind::Unary(op, _) => push_word(out, "(", prefix(*op)),
        ExprKind::Binary(op, _, _) => push_word(out, "(", operator(*op)),
        ExprKind::If(..) => out.put("(if"),
        ExprKind::Match(..) => out.put("(match"),
        ExprKind::Val(name, of, _, _) => push_declared(out, name, of),
        ExprKind::Assert(..) => out.put("(assert"),
    }
}

fn push_applied(out: &mut CaseLine, name: &str, types: &[TypeText]) {
    out.put(name);
    push_types(out, types);
    out.put("(");
}

fn push_declared(out: &mut CaseLine, name: &str, of: &Option<TypeText>) {
    push_word(out, "(val ", name);
    push_written(out, " of", of);
}

/// The parts of an expression.
#[cycle(push)]
fn push_parts(out: &mut CaseLine, kind: &ExprKind) {
    match kind {
        ExprKind::Int(_) | ExprKind::Bool(_) | ExprKind::Name(_) => return,
        ExprKind::Apply(_, _, args) => push_exprs(out, "", args),
        ExprKind::Field(a, _) | ExprKind::Unary(_, a) => push_expr(out, a),
        ExprKind::Binary(_, a, b) | ExprKind::Val(_, _, a, b) | ExprKind::Assert(a, b) => {
            push_expr(out, a);
            push_expr(out, b)
        }
        ExprKind::If(test, yes, no) => {
            push_expr(out, test);
            push_expr(out, yes);
            push_expr(out, no)
        }
        ExprKind::Match(matched, cases) => {
            push_expr(out, matched);
            push_cases(out, cases)
        }
    }
    out.put(")");
}

/// An expression.
#[cycle(push)]
pub fn push_expr(out: &mut CaseLine, expr: &Expr) {
    push_at(out, expr.at);
    push_head(out, &expr.kind);
    push_parts(out, &expr.kind);
}

/// Expressions in order, each behind the word.
#[cycle(push)]
pub fn push_exprs(out: &mut CaseLine, word: &str, exprs: &[Expr]) {
    for expr in exprs {
        out.put(word);
        push_expr(out, expr);
    }
}

/// The cases of a match.
#[cycle(push)]
fn push_cases(out: &mut CaseLine, cases: &[Case]) {
    for case in cases {
        out.put(" (case");
        push_pattern(out, &case.pattern);
        if let Some(guard) = &case.guard {
            out.put(" if");
            push_expr(out, guard);
        }
        out.put(" =>");
        push_expr(out, &case.body);
        out.put(")");
    }
}
