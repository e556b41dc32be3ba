//! Comparisons of trees, as the tests of the definitions.

ghost use Rattle.std.specs.Prelude.{◌≡◌};
ghost use Rattle.pp_eval.specs.Equality.{below, equal};

use pp_prog::Value;

/// Whether the two are the same tree.
pub(crate) fn are_equal(u: &Value, v: &Value) -> bool
    ensures { result ≡ equal u.now v.now }
{
    u.same(v)
}

/// Whether the first is a proper subtree of the second.
pub(crate) fn is_subtree(t: &Value, u: &Value) -> bool
    ensures { result ≡ below t.now u.now }
{
    t.is_below(u)
}
