//! How often a call of the system is tried that is interrupted each time. Then it has failed.

pub(crate) const TRIES: u32 = 1000;
