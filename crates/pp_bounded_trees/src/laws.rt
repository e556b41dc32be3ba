//! What holds of every domain of bounded trees. This function does nothing; its contract is the law.

ghost use Rattle.pp_domain.specs.Laws.{Lawful};
ghost use Rattle.pp_bounded_trees.specs.Meaning.{bounded_sense};

/// The laws of a domain hold of bounded trees.
pub fn lawful()
    ensures { Lawful bounded_sense }
{}
