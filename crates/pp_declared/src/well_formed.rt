//! What each declaration keeps by itself.

ghost use Rattle.std.specs.Prelude.{◌≡◌, [], map};
ghost use Rattle.std.specs.List.{list_any};
ghost use Rattle.pp_declared.specs.Declare.{all_checked};
ghost use Rattle.pp_declared.specs.Shown.{decl_ins};
ghost use Rattle.pp_declared.specs.WellFormed.{are_new_after, checked, head_checked, is_barred, is_mark, is_taken};
ghost use Rattle.pp_declared.specs.WellFormed.{param_names, params_new_after};
ghost use Rattle.pp_fault.specs.Part.{Tells};
ghost use Rattle.pp_names.specs.Places.{has};
ghost use Rattle.pp_sorts.specs.Words.{words_of};
ghost use Rattle.pp_tree.specs.Shown.{decl_of, param_of};

use crate::DeclAt;
use pp_fault::{Halt, Rule, broken};
use pp_names::is_reserved;
use pp_tree::{Decl, Param};
use std::alloc::Global;

/// The greatest number of parameters, or of fields, of a declaration.
const MOST_PARAMS: usize = 16;

/// The greatest number of type parameters of a declaration.
const MOST_TYPE_PARAMS: usize = 4;

/// Refuses the first declaration that isn't well formed by itself.
pub(crate) fn check_each(alloc: Global, decls: &[DeclAt]) -> Result<(), Halt>
    ensures { Tells result (all_checked (decl_ins decls.now)) }
{
    for decl in decls {
        check(alloc, decl)?;
    }
    Ok(())
}

/// Refuses a declaration that isn't well formed by itself: a class or a trait that is neither a root nor a
/// constructor as `Mismatch`, too many type parameters, parameters or fields as `OverLimit`, and one that is declared
/// twice as `Duplicate`.
fn check(alloc: Global, decl: &DeclAt) -> Result<(), Halt>
    ensures { Tells result (checked decl.now.source (decl_of decl.now.decl)) }
{
    let source = decl.source;
    match decl.decl {
        Decl::Root(c) => check_head(alloc, source, c.at, c.name, c.params, c.fields),
        Decl::Ctor(c) => check_head(alloc, source, c.at, c.name, c.params, c.fields),
        Decl::Other(c) => broken(alloc, Rule::Mismatch, c.name, source, c.at),
        Decl::Def(d) => check_head(alloc, source, d.at, d.name, d.type_params, d.params),
    }
}

fn check_head(
    alloc: Global,
    source: u32,
    at: u32,
    name: &str,
    type_params: &[&str],
    params: &[Param],
) -> Result<(), Halt>
    ensures { Tells result (head_checked source at name.now (words_of type_params.now) (map param_of params.now)) }
{
    if type_params.len() > MOST_TYPE_PARAMS {
        return broken(alloc, Rule::OverLimit, name, source, at);
    }
    if !are_new(type_params) {
        return broken(alloc, Rule::Duplicate, name, source, at);
    }
    if params.len() > MOST_PARAMS {
        return broken(alloc, Rule::OverLimit, name, source, at);
    }
    check_params(alloc, source, params)
}

/// Refuses the first parameter whose name can't be declared after those before it.
fn check_params(alloc: Global, source: u32, params: &[Param]) -> Result<(), Halt>
    ensures { Tells result (params_new_after source [] (map param_of params.now)) }
{
    for i in 0..params.len() {
        let param = &params[i];
        if is_barred(param.name) || has_param(&params[..i], param.name) {
            return broken(alloc, Rule::Duplicate, param.name, source, param.at);
        }
    }
    Ok(())
}

/// Whether each name can be declared after those before it.
fn are_new(names: &[&str]) -> bool
    ensures { result ≡ are_new_after [] (words_of names.now) }
{
    for i in 0..names.len() {
        if is_barred(names[i]) || has_name(&names[..i], names[i]) {
            return false;
        }
    }
    true
}

/// Whether the name can't be declared: it is a word that can't, or holds a mark of printed types.
pub(crate) fn is_barred(name: &str) -> bool
    ensures { result ≡ is_barred name.now }
{
    is_reserved(name) || has_mark(name.as_bytes())
}

/// Whether one of these bytes is a mark that stands between the parts of a printed type.
fn has_mark(name: &[u8]) -> bool
    ensures { result ≡ list_any is_mark name.now }
{
    for byte in name {
        if is_mark(*byte) {
            return true;
        }
    }
    false
}

fn is_mark(byte: u8) -> bool
    ensures { result ≡ is_mark byte }
{
    byte == b',' || (byte == b'[' || byte == b']')
}

/// Whether the name is one of these.
pub(crate) fn has_name(names: &[&str], name: &str) -> bool
    ensures { result ≡ has name.now (words_of names.now) }
{
    for other in names {
        if name == *other {
            return true;
        }
    }
    false
}

/// Whether one of these parameters has the name.
fn has_param(params: &[Param], name: &str) -> bool
    ensures { result ≡ has name.now (param_names (map param_of params.now)) }
{
    for param in params {
        if name == param.name {
            return true;
        }
    }
    false
}
