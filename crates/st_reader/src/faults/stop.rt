//! Why the pass over the tokens stops early.
use std::alloc::AllocFailed;

/// Why no state follows a token.
#[derive(Clone, Copy)]
pub enum Stop {
    /// No method has this token at this place.
    Stuck,
    NoMemory,
}

impl<T: Drop> From<AllocFailed<T>> for Stop {
    fn from(_failed: AllocFailed<T>) -> Stop {
        Stop::NoMemory
    }
}
