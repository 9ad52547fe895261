//! When a program began, and what else its sessions are told of it.
use st_queries::hosts::Host;
use std::sync::atomic::{AtomicU64, Ordering};
use std::time::{Clock, SystemTime};

/// The time, in nanoseconds since 1970; 0 if it cannot be read.
pub fn now<R: Clock>(rt: &R) -> u64 {
    match SystemTime::now(rt) {
        Ok(time) => match time.duration_since(SystemTime::UNIX_EPOCH) {
            Ok(since) => u64::try_from(since.as_nanos()).unwrap_or(u64::MAX),
            Err(_) => 0,
        },
        Err(_) => 0,
    }
}

/// When a server began, how many sessions are open, and how many workers it has.
#[derive(Clone, Copy)]
pub struct ServerInfo<'a> {
    pub start: u64,
    pub sessions: &'a AtomicU64,
    pub workers: u64,
}

impl<'a> ServerInfo<'a> {
    /// What is known of the server at this moment, but for its checkpoints.
    pub(crate) fn host(&self) -> Host {
        Host {
            start: self.start,
            checkpoints: 0,
            sessions: self.sessions.load(Ordering::SeqCst),
            workers: self.workers,
        }
    }
}
