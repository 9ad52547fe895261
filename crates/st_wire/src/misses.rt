//! Why something is not read from tokens.
use json::Invalid;
use st_classes::refusals::Refusal;
use std::alloc::{AllocError, AllocFailed};

/// Why something could not be read from the tokens of a text.
#[derive(Clone, Copy, Drop)]
pub enum Miss {
    /// This reader does not decide what the text is.
    Undecided,
    NoMemory,
}

impl From<Invalid> for Miss {
    fn from(_invalid: Invalid) -> Miss {
        Miss::Undecided
    }
}

impl From<AllocError> for Miss {
    fn from(_refused: AllocError) -> Miss {
        Miss::NoMemory
    }
}

impl<T: Drop> From<AllocFailed<T>> for Miss {
    fn from(_refused: AllocFailed<T>) -> Miss {
        Miss::NoMemory
    }
}

/// Whatever was refused for another cause than memory is undecided.
impl From<Refusal> for Miss {
    fn from(refusal: Refusal) -> Miss {
        match refusal {
            Refusal::NoMemory => Miss::NoMemory,
            _ => Miss::Undecided,
        }
    }
}
