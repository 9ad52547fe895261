//! Which clients the program's server lets in, and who is told of its sessions' ends.
use st_classes::refusals::Refusal;
use st_disk::socket_files::SocketFile;
use st_server::accept_policy::{AcceptPolicy, FaultList, SessionObserver};
use st_wire::names::refusal_name;
use std::fs::Files;
use std::io::Error;
use std::os::unix::net::{SocketAddrExt, UnixStream};
use std::sync::Wait;
use std::sync::atomic::{AtomicBool, AtomicU64, Ordering};
use std::thread;
use std::time::{Clock, Duration};

/// The system's errors that pass when somebody lets something go: there is no memory (`ENOMEM`), the system or the process has as
/// many open files as it may (`ENFILE`, `EMFILE`), or there are no buffers (`ENOBUFS`).
const SHORTAGES: [i32; 4] = [12, 23, 24, 105];

/// With this begins the name, in Linux's abstract namespace, to which an operator's end of a session is bound.
const OPERATOR: &[u8] = b"actorimage.operator.";

/// Milliseconds between two tries to accept while something is short.
const PAUSE: u64 = 100;

/// Lets clients in while the socket's file is at its path. It waits where the system is short of something.
#[derive(Drop)]
pub struct SocketPolicy<'a> {
    file: SocketFile<'a>,
    /// Whether it was said that something is short.
    has_said: AtomicBool,
}

impl<'a> SocketPolicy<'a> {
    pub fn new(file: SocketFile<'a>) -> SocketPolicy<'a> {
        SocketPolicy {
            file,
            has_said: AtomicBool::new(false),
        }
    }
}

/// How many sessions' ends are written at once, at most. Where nobody reads standard error they wait, and others are not named.
const MOST_WRITTEN: u64 = 8;

/// Keeps the refusals by which sessions end, and names them on standard error where that is asked for.
#[derive(Drop)]
pub struct Reporter<'a> {
    list: FaultList<'a>,
    is_verbose: bool,
    /// How many are being written.
    written: AtomicU64,
}

impl<'a> Reporter<'a> {
    pub fn new(list: FaultList<'a>, is_verbose: bool) -> Reporter<'a> {
        Reporter {
            list,
            is_verbose,
            written: AtomicU64::new(0),
        }
    }
}

impl<'a, R: Wait + Eprint> SessionObserver<R> for Reporter<'a> {
    fn ended(&self, rt: &R, refusal: Refusal) {
        self.list.ended(rt, refusal);
        if !self.is_verbose {
            return;
        }
        if self.written.fetch_add(1, Ordering::SeqCst) < MOST_WRITTEN {
            let name = refusal_name(refusal);
            let _ = eprintln!(rt; "actorimage: a session has ended: {name}");
        }
        self.written.fetch_sub(1, Ordering::SeqCst);
    }
}

/// Whether an error passes when somebody lets something go.
fn is_shortage(error: &Error) -> bool {
    match error.raw_os_error() {
        Some(code) => SHORTAGES.contains(&code),
        None => false,
    }
}

impl<'a, R: Files + Eprint + Clock> AcceptPolicy<R> for SocketPolicy<'a> {
    fn is_open(&self, rt: &R) -> bool {
        self.file.is_there(rt)
    }

    fn tries_again(&self, rt: &R, error: &Error) -> bool {
        if !is_shortage(error) {
            return false;
        }
        if !self.has_said.swap(true, Ordering::SeqCst) {
            let _ = eprintln!(rt; "actorimage: nobody can be let in for now: {error}");
        }
        thread::sleep(rt, Duration::from_millis(PAUSE));
        true
    }

    fn is_operator(&self, _rt: &R, client: &UnixStream) -> bool {
        let Ok(address) = client.peer_addr() else {
            return false;
        };
        match address.as_abstract_name() {
            Some(name) => name.starts_with(OPERATOR),
            None => false,
        }
    }
}
