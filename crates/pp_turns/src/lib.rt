//! Checks in turns: all checks of a program are worked on at once, one round of one check in each turn.
//!
//! `Turns::start` begins with each check at round 0, `Turns::turn` works on the named check in the round at which it
//! stands (`pp_verify`), and `Turns::finish` gives the report, once all have ended; there checks that are open for the
//! size of their rounds are proved together, as `pp_verify` does. Whatever checks are named, a turn touches no other
//! check, and the report keeps what that of `pp_verify` does. A check that was named so many times has ended in a round
//! below this number, or stands at the round of this number; so a list that names each check once more than the number
//! of the last round ends all. `verify_in_turns` names the checks in their order, or in the opposite one. What holds
//! after each list of turns is in `specs/Turns`; `specs/Parts` says where a check stands, and `specs/Passes` is of the
//! making.
#![tactic(auto)]

mod finishing;
mod in_turns;
mod part;
mod starting;
mod turning;
mod turns;

pub use in_turns::{Direction, verify_in_turns};
pub use part::Part;
pub use pp_induct::{Limits, Report};
pub use std::alloc::AllocError as NoMemory;
pub use turns::Turns;
