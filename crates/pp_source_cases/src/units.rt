//! How units and declarations print.

use crate::adding::{push_name, push_word};
use crate::exprs::{push_expr, push_exprs, push_type, push_written};
use pp_case_line::CaseLine;
use pp_tree::{ClassDecl, Decl, DefDecl, Param, Post, Unit};

/// A unit: its imports, its objects and its declarations.
pub fn push_unit(out: &mut CaseLine, unit: &Unit) {
    out.put("unit");
    for import in unit.imports {
        out.put(" import");
        push_name(out, import.at, import.name);
    }
    for object in unit.objects {
        push_word(out, " object ", object);
    }
    for decl in unit.decls {
        push_decl(out, decl);
    }
}

fn push_decl(out: &mut CaseLine, decl: &Decl) {
    match decl {
        Decl::Root(class) => push_class(out, " {root", class),
        Decl::Ctor(class) => push_class(out, " {ctor", class),
        Decl::Other(class) => push_class(out, " {other", class),
        Decl::Def(def) => push_def(out, def),
    }
}

/// A class, a trait or a case object.
fn push_class(out: &mut CaseLine, kind: &str, class: &ClassDecl) {
    out.put(kind);
    push_name(out, class.at, class.name);
    push_names(out, class.params);
    push_params(out, class.fields);
    push_written(out, " extends", &class.parent);
    out.put(if class.object { " object}" } else { "}" });
}

/// The names of type parameters in square brackets, where there are any.
fn push_names(out: &mut CaseLine, names: &[&str]) {
    if names.is_empty() {
        return;
    }
    out.put("[");
    for name in names {
        push_word(out, " ", name);
    }
    out.put("]");
}

/// Parameters or fields.
fn push_params(out: &mut CaseLine, params: &[Param]) {
    out.put("(");
    for param in params {
        push_name(out, param.at, param.name);
        out.put(" of");
        push_type(out, &param.of);
    }
    out.put(")");
}

/// A function.
fn push_def(out: &mut CaseLine, def: &DefDecl) {
    out.put(" {def");
    push_name(out, def.at, def.name);
    push_names(out, def.type_params);
    if def.list {
        push_params(out, def.params);
    }
    push_claims(out, def);
    out.put("}");
}

/// The result of a function, its preconditions, its measure, its body and its postcondition.
fn push_claims(out: &mut CaseLine, def: &DefDecl) {
    out.put(" result");
    push_type(out, &def.result);
    push_exprs(out, " require", def.pre);
    push_exprs(out, " decreases", def.measure);
    out.put(" body");
    push_expr(out, &def.body);
    push_post(out, &def.post);
}

/// A postcondition, where there is one.
fn push_post(out: &mut CaseLine, post: &Option<Post>) {
    if let Some(post) = post {
        out.put(" post");
        push_name(out, post.at, post.name);
        push_written(out, " of", &post.of);
        push_expr(out, &post.claim);
    }
}
