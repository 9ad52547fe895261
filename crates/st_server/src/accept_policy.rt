//! Which clients a server lets in, and who is told of its sessions' ends.
use boxcar::Vec as Faults;
use st_classes::refusals::Refusal;
use std::io;
use std::os::unix::net::UnixStream;
use std::sync::Wait;

/// Says whether clients are let in. `R` is the runtime. One thread asks.
pub trait AcceptPolicy<R> {
    /// Whether clients are let in still. It is asked each time that one has connected or accepting has failed.
    fn is_open(&self, rt: &R) -> bool;

    /// Whether accepting is tried again after an error that concerns not one client alone. It may wait before it answers.
    fn tries_again(&self, rt: &R, error: &io::Error) -> bool;

    /// Whether a client is the operator, for whom one place more is kept. It is asked where all others are taken.
    fn is_operator(&self, rt: &R, client: &UnixStream) -> bool;
}

/// Who is told of sessions that end by a refusal. The threads of the sessions tell it.
pub trait SessionObserver<R> {
    /// A session has ended by a refusal.
    fn ended(&self, rt: &R, refusal: Refusal);
}

/// All clients are let in, until accepting fails.
pub struct AcceptAll;

impl<R> AcceptPolicy<R> for AcceptAll {
    fn is_open(&self, _rt: &R) -> bool {
        true
    }

    fn tries_again(&self, _rt: &R, _error: &io::Error) -> bool {
        false
    }

    fn is_operator(&self, _rt: &R, _client: &UnixStream) -> bool {
        false
    }
}

/// Keeps the refusals in a list, if there is one and there is memory.
#[derive(Clone, Copy)]
pub struct FaultList<'a> {
    list: Option<&'a Faults<Refusal>>,
}

impl<'a> FaultList<'a> {
    /// Keeps the refusals in this list if the sessions are counted. Those of a server without end are kept nowhere.
    pub fn of(list: &'a Faults<Refusal>, sessions: Option<u32>) -> FaultList<'a> {
        FaultList {
            list: sessions.is_some().then_some(list),
        }
    }
}

impl<'a, R: Wait> SessionObserver<R> for FaultList<'a> {
    fn ended(&self, rt: &R, refusal: Refusal) {
        if let Some(faults) = self.list {
            let _ = faults.push(rt, refusal);
        }
    }
}
