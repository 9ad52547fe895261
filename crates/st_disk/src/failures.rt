//! Why the program ends by a refusal.
use st_classes::refusals::Refusal;
use std::alloc::{AllocError, Global};
use std::io::Error;

/// The refusal by which the program ends, and in words what it was about, if that is known and there was memory for the words.
#[derive(Drop)]
pub struct Failure {
    pub refusal: Refusal,
    pub words: Option<String>,
}

impl From<Refusal> for Failure {
    fn from(refusal: Refusal) -> Failure {
        Failure {
            refusal,
            words: None,
        }
    }
}

impl From<AllocError> for Failure {
    fn from(_: AllocError) -> Failure {
        Failure::from(Refusal::NoMemory)
    }
}

/// What the system says of an error at a path, without the error's number.
fn said(alloc: Global, path: &str, error: &Error) -> Option<String> {
    let Ok(text) = format!(in alloc; "{error}") else {
        return None;
    };
    match text.as_str().split_once(" (os error ") {
        Some((words, _)) => format!(in alloc; "{path}: {words}").ok(),
        None => format!(in alloc; "{path}: {text}").ok(),
    }
}

impl Failure {
    /// A refusal since the system has refused something at a path.
    pub fn at(alloc: Global, refusal: Refusal, path: &str, error: &Error) -> Failure {
        Failure {
            refusal,
            words: said(alloc, path, error),
        }
    }

    /// A refusal for what is so at a path.
    pub fn of(alloc: Global, refusal: Refusal, path: &str, what: &str) -> Failure {
        Failure {
            refusal,
            words: format!(in alloc; "{path} {what}").ok(),
        }
    }
}
