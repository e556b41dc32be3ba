//! What holds of orders. This function does nothing; its contract is the law.

ghost use Rattle.pp_named_order.specs.Ranks.{ListsAreOrdered};

/// Each list of fewer than 2^30 values has a naming that names its values, the first of each datatype by 0, and that
/// has an order, whatever the groups of datatypes are.
pub fn lists_are_ordered()
    ensures { ListsAreOrdered }
{}
