//! Clients are let in: each gets a session in a thread of its own.
ghost use Rattle.std.specs.Prelude.{◌≡◌, ◌⊎◌, ◌↔◌, IsTrue};
ghost use Rattle.std.specs.declared.io.ErrorKind.TheVariants.{ConnectionAborted, Interrupted};

use crate::accept_policy::{AcceptPolicy, SessionObserver};
use crate::admission::Admission;
use crate::attending::{Services, attend};
use crate::awaiting::Awaiting;
use crate::polling::Polled;
use crate::recording::Recorder;
use crate::starts::ServerInfo;
use st_classes::refusals::Refusal;
use st_pool::accounts::Account;
use st_pool::callers::Caller;
use st_pool::naming::Naming;
use st_pool::shared::Shared;
use st_pool::shares::CallerShare;
use st_script::images::Mailbox;
use st_script::keepers::Keeper;
use st_wire::streams::{Reader, Writer};
use std::alloc::Global;
use std::io::{BufWriter, ErrorKind, Read, Write};
use std::os::unix::net::{UnixListener, UnixStream};
use std::sync::atomic::{AtomicU64, Ordering};
use std::sync::{Mutex, Wait};
use std::thread;
use std::thread::{Scope, Threads};
use std::time::Clock;

/// The most sessions at a time. One more may be the operator's.
const MOST_SESSIONS: u64 = 64;

/// Written to a client that comes while the most sessions are open.
const TOO_MANY: &[u8] = b"{\"error\":\"TooMany\",\"what\":\"sessions\"}\n";

/// Written to a client when there is no memory for its share or its output. A client whose session gets no thread is disconnected
/// without a line.
const NO_MEMORY: &[u8] = b"{\"error\":\"NoMemory\"}\n";

/// Where sessions come from, how many are accepted, if they are counted, who is asked to let them in, who is told of their ends, and who
/// keeps the image where one of them wants it saved.
#[derive(Drop)]
pub(crate) struct Acceptor<'a, P, W, S> {
    pub(crate) listener: UnixListener,
    pub(crate) sessions: Option<u32>,
    pub(crate) policy: &'a P,
    pub(crate) observer: &'a W,
    pub(crate) keeper: &'a S,
}

/// What the sessions share: the image, the shares of ended sessions, room for what these have done, the number of open sessions, who is
/// told of their ends, who keeps the image, who goes on with its journal, how many at a time do what, when the server began, in nanoseconds
/// since 1970, and how many workers it has.
#[derive(Drop)]
pub(crate) struct ServerState<'a, K: Naming, W, S: Keeper> {
    pub(crate) shared: &'a Shared<K, Mailbox>,
    pub(crate) shares: &'a Mutex<Vec<CallerShare<K>>>,
    pub(crate) accounts: &'a Mutex<Vec<Account>>,
    pub(crate) active: &'a AtomicU64,
    pub(crate) observer: &'a W,
    pub(crate) keeper: &'a S,
    pub(crate) recorder: &'a Recorder<'a, K, S>,
    pub(crate) admission: &'a Admission,
    pub(crate) start: u64,
    pub(crate) workers: u64,
}

/// Reads and drops input that nobody will read, at most 131,072 bytes. With it unread, the client would see a failure at the end of
/// the replies.
fn drain(mut stream: &UnixStream) {
    if stream.set_nonblocking(true).is_err() {
        return;
    }
    let mut piece = [0u8; 8192];
    for _ in 0..16 {
        match stream.read(&mut piece) {
            Ok(count) if 0 < count => {}
            _ => return,
        }
    }
}

/// Tells a client why it gets no session.
fn turn_away(mut stream: &UnixStream, line: &[u8]) {
    let _ = stream.write_all(line);
    drain(stream);
}

/// Runs a session over a stream.
fn serve_stream<K: Naming, S: Keeper, R: Wait + Clock>(
    rt: &R,
    alloc: Global,
    info: ServerInfo<'_>,
    services: Services<'_, K, S>,
    caller: Caller<'_, K, Mailbox>,
    stream: &UnixStream,
) -> (CallerShare<K>, Result<u64, Refusal>) {
    // If the stream stays in the mode in which reads block, the session goes on without looks.
    let _ = stream.set_nonblocking(true);
    let awaiting = Awaiting {
        rt,
        alloc,
        recorder: services.recorder,
        output: Polled::new(stream),
    };
    let Ok(buffered) = BufWriter::new(alloc, awaiting) else {
        turn_away(stream, NO_MEMORY);
        return (caller.end(), Err(Refusal::NoMemory));
    };
    let mut input = Reader::new(Polled::new(stream));
    let mut output = Writer::new(buffered);
    let (share, result) = attend(rt, alloc, info, services, caller, &mut input, &mut output);
    match output.finish() {
        Ok(_) => (share, result),
        Err(_) => (share, Err(Refusal::WriteFault)),
    }
}

/// Runs a session with its own caller, and adds the caller's share to those of ended sessions. Room for it was made before.
fn run_session<K: Naming, W, S: Keeper, R: Wait + Clock>(
    rt: &R,
    alloc: Global,
    server: &ServerState<'_, K, W, S>,
    stream: &UnixStream,
) -> Result<u64, Refusal> {
    let caller = server.shared.caller(rt, alloc)?;
    let info = ServerInfo {
        start: server.start,
        sessions: server.active,
        workers: server.workers,
    };
    let services = Services {
        keeper: server.keeper,
        recorder: server.recorder,
        admission: server.admission,
    };
    let (share, result) = serve_stream(rt, alloc, info, services, caller, stream);
    let _ = server.shares.lock(rt).push(share);
    result
}

/// Runs a session in its thread.
fn session_thread<K: Naming, W: SessionObserver<R>, S: Keeper, R: Wait + Clock>(
    rt: &R,
    alloc: Global,
    server: &ServerState<'_, K, W, S>,
    stream: UnixStream,
) {
    let ended = run_session(rt, alloc, server, &stream);
    if ended.is_err() {
        drain(&stream);
    }
    // First the place is given back: whoever has read the end of this session finds it. Who is told of it may take his time.
    server.active.fetch_sub(1, Ordering::SeqCst);
    drop(stream);
    if let Err(refusal) = ended {
        server.observer.ended(rt, refusal);
    }
}

/// Makes room for the shares of as many sessions as can be open, and for the accounts of these and of all that have ended.
fn make_room<K: Naming, W, S: Keeper, R: Wait>(rt: &R, server: &ServerState<'_, K, W, S>) -> bool {
    let mut shares = server.shares.lock(rt);
    if shares.reserve(MOST_SESSIONS as usize + 1).is_err() {
        return false;
    }
    let most = shares.capacity();
    drop(shares);
    server.accounts.lock(rt).reserve(most).is_ok()
}

/// Whether there is no place for a client.
fn is_full<K: Naming, P: AcceptPolicy<R>, W, S: Keeper, R>(
    rt: &R,
    server: &ServerState<'_, K, W, S>,
    policy: &P,
    client: &UnixStream,
) -> bool {
    let active = server.active.load(Ordering::SeqCst);
    active > MOST_SESSIONS || active == MOST_SESSIONS && !policy.is_operator(rt, client)
}

/// Whether there is a place for a client, and room for what its session does. If not, it is told so.
fn has_place<K: Naming, P: AcceptPolicy<R>, W, S: Keeper, R: Wait>(
    rt: &R,
    server: &ServerState<'_, K, W, S>,
    policy: &P,
    client: &UnixStream,
) -> bool {
    if is_full(rt, server, policy, client) {
        turn_away(client, TOO_MANY);
        return false;
    }
    if !make_room(rt, server) {
        turn_away(client, NO_MEMORY);
        return false;
    }
    true
}

/// Whether the error concerns one connection and not the socket.
fn is_passing(kind: ErrorKind) -> bool
    ensures { IsTrue result ↔ ((kind ≡ Interrupted) ⊎ (kind ≡ ConnectionAborted)) }
{
    kind == ErrorKind::Interrupted || kind == ErrorKind::ConnectionAborted
}

/// Accepts sessions, each in its own thread of a scope, until their number is reached, the policy lets in nobody any more, or accepting
/// fails. The answer is false if it fails.
fn accept<
    's,
    E,
    K: Naming + Send + Sync,
    P: AcceptPolicy<R>,
    W: SessionObserver<R> + Sync,
    S: Keeper + Sync,
    R: Threads + Wait + Clock + Sync,
>(
    scope: &Scope<'s, E>,
    rt: &'s R,
    alloc: Global,
    acceptor: &Acceptor<'_, P, W, S>,
    server: &'s ServerState<'_, K, W, S>,
) -> bool {
    let policy = acceptor.policy;
    let mut left = acceptor.sessions;
    for stream in acceptor.listener.incoming() {
        if !policy.is_open(rt) {
            return true;
        }
        let stream = match stream {
            Ok(stream) => stream,
            Err(error) => {
                if is_passing(error.kind()) || policy.tries_again(rt, &error) {
                    continue;
                }
                return false;
            }
        };
        if !has_place(rt, server, policy, &stream) {
            continue;
        }
        server.active.fetch_add(1, Ordering::SeqCst);
        if let Err(refused) = scope.spawn(move || session_thread(rt, alloc, server, stream)) {
            server.active.fetch_sub(1, Ordering::SeqCst);
            drop(refused);
            continue;
        }
        match left {
            Some(count) if count <= 1 => return true,
            Some(count) => left = Some(count - 1),
            None => {}
        }
    }
    false
}

/// Accepts sessions as `accept` does, and waits for their ends.
pub(crate) fn accept_all<
    K: Naming + Send + Sync,
    P: AcceptPolicy<R>,
    W: SessionObserver<R> + Sync,
    S: Keeper + Sync,
    R: Threads + Wait + Clock + Sync,
>(
    rt: &R,
    alloc: Global,
    acceptor: Acceptor<'_, P, W, S>,
    server: &ServerState<'_, K, W, S>,
) -> bool {
    thread::scope(thread::scope_env(), rt, |scope| -> bool {
        let is_well = accept(scope, rt, alloc, &acceptor, server);
        // The open sessions go on, and whoever connects from here on is refused by the system.
        drop(acceptor);
        is_well
    })
}
