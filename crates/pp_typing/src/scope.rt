//! The values in scope.

ghost use Rattle.std.specs.Prelude.{◌≡◌, ◌≤◌, length, drop};
ghost use Rattle.std.specs.Str.{bytes_eq};
ghost use Rattle.pp_rules.specs.Scope.{clashes, has_name, place};
ghost use Rattle.pp_typing.specs.Views.{scope_of};

use pp_names::is_reserved;
use pp_typed::GenericSort;

/// A value in scope: its name and its sort.
#[derive(Drop)]
pub struct Local<'a> {
    pub name: &'a str,
    pub of: GenericSort,
}

/// How many values are in scope.
pub(crate) fn depth(scope: &[Local]) -> usize
    ensures { result ≡ length (scope_of scope.now) }
{
    scope.len()
}

/// The place of the innermost value of this name.
pub(crate) fn place(scope: &[Local], name: &str) -> Option<usize>
    ensures { result ≡ place name.now (scope_of scope.now) }
{
    let mut best = None;
    for i in 0..scope.len() {
        if same_text(scope[i].name, name) {
            best = Some(i);
        }
    }
    best
}

/// Whether some value of these has the name.
fn has_name(scope: &[Local], name: &str) -> bool
    ensures { result ≡ has_name name.now (scope_of scope.now) }
{
    for local in scope {
        if same_text(local.name, name) {
            return true;
        }
    }
    false
}

/// Whether some value from place `from` on has the name.
fn reaches(scope: &[Local], from: usize, name: &str) -> bool
    ensures { result ≡ has_name name.now (drop from (scope_of scope.now)) }
{
    if from > scope.len() {
        return false;
    }
    has_name(&scope[from..], name)
}

/// Whether a name can't be declared here: the words that can't be declared, and the names of the values from place
/// `from` on.
pub(crate) fn clashes(scope: &[Local], from: usize, name: &str) -> bool
    ensures { result ≡ clashes name.now from (scope_of scope.now) }
{
    is_reserved(name) || reaches(scope, from, name)
}

fn same_text(a: &str, b: &str) -> bool
    ensures { result ≡ bytes_eq a.now b.now }
{
    a == b
}
