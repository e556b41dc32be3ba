//! The sorts of written types.

ghost use Rattle.std.specs.Prelude.{[], map};
ghost use Rattle.pp_fault.specs.Part.{Tells};
ghost use Rattle.pp_sorts.specs.SortOf.{sort_of, sorts_from};
ghost use Rattle.pp_sorts.specs.Words.{words_of};
ghost use Rattle.pp_tree.specs.Shown.{type_of, type_trees};

use crate::TypeScope;
use pp_fault::{Halt, Rule, broken};
use pp_list::Items;
use pp_tree::TypeText;
use pp_typed::{GenericSort, GenericSorts};
use std::alloc::Global;

/// The sort of a written type. It refuses a name that stands for no type as `Unknown`, and a wrong number of
/// arguments as `Arity`, each at the name.
#[cycle(sorts)]
pub fn sort_of(alloc: Global, scope: &TypeScope, text: &TypeText) -> Result<GenericSort, Halt>
    ensures { Tells result
        (sort_of scope.now.roots.now (words_of scope.now.params.now) scope.now.source (type_of text.now)) }
{
    match scope.head_of(text.name) {
        None => broken(alloc, Rule::Unknown, text.name, scope.source, text.at),
        Some(head) => {
            if !head.takes(text.args) {
                return broken(alloc, Rule::Arity, text.name, scope.source, text.at);
            }
            let sorts = sorts_of(alloc, scope, text.args)?;
            Ok(head.applied(sorts))
        }
    }
}

/// The sorts of written types. It refuses the first that is refused.
#[cycle(sorts)]
pub fn sorts_of(alloc: Global, scope: &TypeScope, texts: &[TypeText]) -> Result<GenericSorts, Halt>
    ensures { Tells result
        (sorts_from scope.now.roots.now (words_of scope.now.params.now) scope.now.source []
        (type_trees (map type_of texts.now))) }
{
    let mut sorts = Items::new(alloc);
    for text in texts {
        sorts.push(sort_of(alloc, scope, text)?)?;
    }
    Ok(sorts)
}
