//! What holds of namings. This function does nothing; its contract is the law.

ghost use Rattle.pp_domain.specs.Numbering.{ListsAreNamed};

/// Each list of fewer than 2^30 values has a naming that names its values, the first of each datatype by 0.
pub fn lists_are_named()
    ensures { ListsAreNamed }
{}
