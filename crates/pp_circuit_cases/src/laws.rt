//! The functions that only state theorems.

use pp_bits::laws as bits;
use pp_clause::laws as clause;
use pp_gate::laws as gate;

/// Calls each of them.
pub fn state_all() {
    clause::derived_is_true();
    clause::refuted_is_unsatisfiable();
    clause::new_differs();
    clause::clauses_are_few();
    clause::new_are_few();
    gate::inputs_complete();
    gate::inputs_determine();
    gate::growth_extends();
    gate::growth_keeps();
    gate::gives_by_variables();
    gate::literal_by_variables();
    gate::asked_given();
    gate::asked_complete();
    gate::asked_keep();
    bits::digits_bound();
    bits::signed_by_cast();
}
