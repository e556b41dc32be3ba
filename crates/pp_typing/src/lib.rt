//! Typing of expressions, patterns and function bodies against given declarations.
//!
//! `definition` types one function: it answers what the definitions of `pp_rules` compute, a typing or a fault.
//! `specs/Views` says what the code's values stand for there. `body` goes through a function, `expr` and `patterns`
//! recurse into what is nested; the other modules make single steps, of parts that are typed already.
//!
//! - `body`: the contracts and the body of a function, in order.
//! - `params`: its parameters, and the typed function that is made of typed parts.
//! - `expr`: expressions, an arm for each form and a function for each that has several parts.
//! - `node`: what operators, `if`, `val` and `assert` are made of typed parts.
//! - `apply`: applications, argument by argument, and what is found of their type parameters.
//! - `arms`: the cases of a match.
//! - `name`: a name alone, and a field.
//! - `lookup`: what names, applications and fields stand for among the declarations.
//! - `patterns`: patterns and their parts.
//! - `pattern`: one pattern, and what it binds.
//! - `operators`: the table of operators: which sorts they take and give.
//! - `checks`: what is tested of a typed part, and the refusals.
//! - `context`: the declarations and the function around an expression.
//! - `scope`: the values in scope, and which names clash there.
#![tactic(auto)]

mod apply;
mod arms;
mod body;
mod checks;
mod context;
mod expr;
mod lookup;
mod name;
mod node;
mod operators;
mod params;
mod pattern;
mod patterns;
mod scope;

pub use body::definition;
pub use context::Context;
pub use scope::Local;
