//! Lists of what is known of the variables in scope.

ghost use Rattle.std.specs.Prelude.{◌≡◌, take};

use pp_list::Items;

/// Keeps the first items alone.
pub(crate) fn truncate<T: Drop>(items: &mut Items<T>, n: usize)
    ensures { items.new ≡ take n items.old }
{
    while items.len() > n {
        let _ = items.pop();
    }
}
