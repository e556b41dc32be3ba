//! Patterns: the shapes of the variables that they bind, and what is counted.

ghost use Rattle.std.specs.Prelude.{◌≡◌, ◌++◌, ◌∷◌, [], IfOk, OnOk, drop, map};
ghost use Rattle.pp_list.specs.Joined.{joined};
ghost use Rattle.pp_estimate.specs.Counted.{counted};
ghost use Rattle.pp_estimate.specs.Visits.{bind_each, bound, pattern_events};

use crate::NoMemory;
use crate::counts::{Counts, add_look, add_node};
use crate::shape::{Shape, Shapes, part_of, tree_sort, truncate};
use crate::weights::LITERAL;
use pp_checks::fields_of;
use pp_list::at;
use pp_prog::{Ctor, Pattern, Sort};

/// Adds the shapes of the variables that the pattern binds, at a value of this shape, and counts the pattern.
#[cycle(bind)]
#[tactic(auto, using(crate::proofs::Merged::counted_append))]
pub(crate) fn bind(
    ctors: &[Ctor],
    counts: &mut Counts,
    pattern: &Pattern,
    s: Shape,
    env: &mut Shapes,
) -> Result<(), NoMemory>
    ensures bound { OnOk result (env.new ≡ env.old ++ bound ctors.now pattern.now s) }
    ensures counted { OnOk result (counts.new ≡ counted counts.old (pattern_events ctors.now pattern.now)) }
{
    match pattern {
        Pattern::Any => {
            add_node(counts, 0);
            Ok(())
        }
        Pattern::Int(_) => {
            add_node(counts, LITERAL);
            Ok(())
        }
        Pattern::Bool(_) => {
            add_node(counts, LITERAL);
            Ok(())
        }
        Pattern::Bind(inner) => {
            add_node(counts, 0);
            env.push(s)?;
            bind(ctors, counts, inner.get(), s, env)
        }
        Pattern::Ctor(c, patterns) => {
            add_node(counts, 0);
            add_look(counts, tree_sort(ctors, *c));
            bind_all(
                ctors,
                counts,
                patterns.as_slice(),
                fields_of(ctors, *c),
                s,
                env,
            )
        }
    }
}

/// The same for patterns of the fields of a value, which have these sorts.
#[cycle(bind)]
fn bind_all(
    ctors: &[Ctor],
    counts: &mut Counts,
    patterns: &[Pattern],
    sorts: &[Sort],
    whole: Shape,
    env: &mut Shapes,
) -> Result<(), NoMemory>
    ensures bound { OnOk result (env.new ≡ env.old ++ bind_each whole (map (bound ctors.now) patterns.now) sorts.now) }
    ensures counted { OnOk result (counts.new
        ≡ counted counts.old (joined (map (pattern_events ctors.now) patterns.now))) }
{
    for i in 0..patterns.len() {
        bind_at(ctors, counts, &patterns[i], sorts, i, whole, env)?;
    }
    Ok(())
}

/// The same for the pattern of the field at this place.
#[cycle(bind)]
fn bind_at(
    ctors: &[Ctor],
    counts: &mut Counts,
    pattern: &Pattern,
    sorts: &[Sort],
    i: usize,
    whole: Shape,
    env: &mut Shapes,
) -> Result<(), NoMemory>
    ensures bound { OnOk result (env.new ≡ env.old
        ++ bind_each whole (bound ctors.now pattern.now ∷ []) (drop i sorts.now)) }
    ensures counted { OnOk result (counts.new ≡ counted counts.old (pattern_events ctors.now pattern.now)) }
{
    let depth = env.len();
    match at(sorts, i) {
        None => {
            bind(ctors, counts, pattern, whole, env)?;
            truncate(env, depth);
            Ok(())
        }
        Some(s) => bind(ctors, counts, pattern, part_of(whole, *s), env),
    }
}
