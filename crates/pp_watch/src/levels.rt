//! Lengths of a trail, in order.
ghost use Rattle.std.specs.Prelude.{◌≤◌, AllPairs};
ghost use Rattle.pp_watch.specs.Looking.{IsCut};

/// Takes the lengths from `bound` on away.
pub fn cut(levels: &mut Vec<usize>, bound: usize)
    requires { AllPairs (λ m n. m ≤ n) levels.old.items }
    ensures { IsCut levels.old.items bound levels.new.items }
{
    while let Some(last) = levels.last() {
        if *last < bound {
            return;
        }
        levels.pop();
    }
}
