//! Letting go of values.

use pp_prog::Value;

/// Lets go of a value without recursion on its height, as long as there is memory for the list of what is left to let
/// go.
pub fn release(value: Value) {
    if let Value::Tree(_, fields) = value {
        let mut pending = fields;
        while let Some(next) = pending.pop() {
            if let Value::Tree(_, more) = next {
                if pending.append(more).is_err() {
                    return;
                }
            }
        }
    }
}
