//! What a search finds.

use pp_clause::Spent;
use pp_prog::Values;

/// Arguments whose run fails the check; that there are none; or the evidence that the solver has spent its lemmas.
#[derive(Drop)]
pub enum Found {
    Args(Values),
    Nothing,
    Spent(Spent),
}
