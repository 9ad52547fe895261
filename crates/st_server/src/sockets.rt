//! Sessions over a Unix socket, one thread each, on one image whose actors are run by worker threads.
ghost use Rattle.std.specs.Prelude.{◌≡◌, ◌⊎◌, ◌+◌, ◌≤◌, ◌↔◌, Err, IfOk, IfErr, IsTrue, vec_len, vec_capacity};
ghost use Rattle.std.specs.Option.{IfSome};
ghost use Rattle.st_classes.specs.declared.refusals.Refusal.TheVariants as refusals;
ghost use Rattle.st_image.specs.GoingOn.{GoesOnIn};
ghost use Rattle.st_calls.specs.Growth.{amounts};
ghost use Rattle.st_pool.specs.Books.{BooksView};
ghost use Rattle.st_pool.specs.Holds.{IsRun};
ghost use Rattle.st_pool.specs.Settled.{AreCounts, AreSums, HaveStood};
ghost use Rattle.st_server.specs.Serving.{AreInRange, HaveServed};

use crate::accept_policy::{AcceptAll, AcceptPolicy, FaultList, SessionObserver};
use crate::accepting::{Acceptor, ServerState, accept_all};
use crate::admission::Admission;
use crate::recording::Recorder;
use crate::starts::now;
use boxcar::Vec as Faults;
use st_classes::refusals::Refusal;
use st_image::settings::Settings;
use st_pool::accounts::Accounts;
use st_pool::books::Blanks;
use st_pool::known_prefix::Opened;
use st_pool::naming::Naming;
use st_pool::settling::{Shares, settle_image};
use st_pool::shared::Shared;
use st_pool::shares::WorkerShare;
use st_pool::totals::Totals;
use st_pool::workers::{OpenGate, worker_loop};
use st_script::images::{Image, Mailbox, Worker};
use st_script::keepers::{Keeper, Nobody};
use st_script::runner::new_worker;
use std::alloc::{AllocError, Global};
use std::marker::Brand;
use std::os::unix::net::UnixListener;
use std::sync::atomic::AtomicU64;
use std::sync::{Mutex, Wait};
use std::thread;
use std::thread::{JoinHandle, Scope, Threads};
use std::time::Clock;

/// The steps of a quantum: the maximum, since each quantum takes the lock once and adds an item to the history.
const QUANTUM: u32 = 1024;

/// The result of serving: the image, what each session and each worker has done, the totals of that, and the fault that ended
/// accepting, if accepting failed.
#[derive(Drop)]
pub struct Served {
    pub image: Image,
    pub accounts: Accounts,
    pub totals: Totals,
    pub fault: Option<Refusal>,
}

/// Makes workers with new caches.
fn new_workers(alloc: Global, count: u32) -> Result<Vec<Worker>, AllocError>
    ensures { IfOk result (λ workers. vec_len workers ≡ count) }
{
    let mut workers = Vec::with_capacity(alloc, count as usize)?;
    for _ in 0..count {
        let worker = new_worker(alloc)?;
        workers.push(worker)?;
    }
    Ok(workers)
}

/// The thread of a worker.
type Ended<K> = JoinHandle<Result<WorkerShare<K>, Refusal>>;

/// Starts the workers, each in its own thread, up to the first that gets no thread.
fn start<'s, E, K: Naming + Send + Sync, R: Threads + Wait + Clock + Sync>(
    scope: &Scope<'s, E>,
    rt: &'s R,
    alloc: Global,
    shared: &'s Shared<K, Mailbox>,
    mut workers: Vec<Worker>,
) -> Vec<Ended<K>> {
    let Ok(mut handles) = Vec::with_capacity(alloc, workers.len()) else {
        return Vec::new(alloc);
    };
    let mut number: u32 = 0;
    while let Some(worker) = workers.pop() {
        let started = scope.spawn(move || {
            worker_loop(rt, alloc, shared, number, worker, &mut OpenGate, QUANTUM)
        });
        let Ok(handle) = started else {
            return handles;
        };
        handles.push_reserved(handle);
        number = number.wrapping_add(1);
    }
    handles
}

/// Goes on with the journal, until the end.
fn go_on<K: Naming, W, S: Keeper, R: Wait + Clock>(
    rt: &R,
    alloc: Global,
    server: &ServerState<'_, K, W, S>,
) {
    server.recorder.go_on(rt, alloc);
}

/// Saves the image where its journal has become long, until the end.
fn go_on_saving<K: Naming, W, S: Keeper, R: Wait + Clock>(
    rt: &R,
    alloc: Global,
    server: &ServerState<'_, K, W, S>,
) {
    server.recorder.go_on_saving(rt, alloc, server.admission);
}

/// Starts the thread that goes on with the journal, if there is one, and the one that saves. The answer is false if one of them gets no
/// thread.
fn start_recorder<
    's,
    E,
    K: Naming + Send + Sync,
    W: SessionObserver<R> + Sync,
    S: Keeper + Sync,
    R: Threads + Wait + Clock + Sync,
>(scope: &Scope<'s, E>, rt: &'s R, alloc: Global, server: &'s ServerState<'_, K, W, S>) -> bool {
    if !server.recorder.is_kept() {
        return true;
    }
    scope.spawn(move || go_on(rt, alloc, server)).is_ok()
        && scope.spawn(move || go_on_saving(rt, alloc, server)).is_ok()
}

/// Adds the shares of workers that were told to end. `shares` must have room for them. A worker that ended without a share is
/// refused by `BadArguments`, as settling refuses a missing share.
fn ended<K: Naming, R: Threads>(
    rt: &R,
    mut handles: Vec<Ended<K>>,
    mut shares: Vec<WorkerShare<K>>,
) -> Result<Vec<WorkerShare<K>>, Refusal>
    requires room { vec_len shares + vec_len handles ≤ vec_capacity shares }
    ensures all { IfOk result (λ all. vec_len all ≡ vec_len shares + vec_len handles) }
    ensures refused { IfErr result (λ e. e ≡ refusals.BadArguments) }
{
    while let Some(handle) = handles.pop() {
        let Ok(share) = handle.join(rt) else {
            return Err(Refusal::BadArguments);
        };
        shares.push_reserved(share);
    }
    Ok(shares)
}

/// Lets workers run the image's actors while sessions are accepted, until no more are and all have ended. The answer is the threads of
/// the workers, and false if accepting failed. If a worker gets no thread, nothing is accepted.
fn run_workers<
    K: Naming + Send + Sync,
    P: AcceptPolicy<R>,
    W: SessionObserver<R> + Sync,
    S: Keeper + Sync,
    R: Threads + Wait + Clock + Sync,
>(
    rt: &R,
    alloc: Global,
    acceptor: Acceptor<'_, P, W, S>,
    server: &ServerState<'_, K, W, S>,
    workers: Vec<Worker>,
) -> (Vec<Ended<K>>, bool) {
    let shared = server.shared;
    let count = workers.len();
    thread::scope(thread::scope_env(), rt, |scope| -> (Vec<Ended<K>>, bool) {
        let is_recorded = start_recorder(scope, rt, alloc, server);
        let handles = start(scope, rt, alloc, shared, workers);
        let is_started = is_recorded && handles.len() == count;
        let are_accepted = is_started && accept_all(rt, alloc, acceptor, server);
        shared.stop(rt);
        server.recorder.end(rt);
        (handles, are_accepted)
    })
}

/// The same, with the shares of all workers in place of their threads.
fn work<
    K: Naming + Send + Sync,
    P: AcceptPolicy<R>,
    W: SessionObserver<R> + Sync,
    S: Keeper + Sync,
    R: Threads + Wait + Clock + Sync,
>(
    rt: &R,
    alloc: Global,
    acceptor: Acceptor<'_, P, W, S>,
    server: &ServerState<'_, K, W, S>,
    workers: Vec<Worker>,
) -> Result<(Vec<WorkerShare<K>>, bool), Refusal>
    ensures all { IfOk result (λ r. vec_len r.0 ≡ vec_len workers) }
    ensures refused { IfErr result (λ e. (e ≡ refusals.NoMemory) ⊎ (e ≡ refusals.BadArguments)) }
{
    let count = workers.len();
    let shares = Vec::with_capacity(alloc, count)?;
    let (handles, are_accepted) = run_workers(rt, alloc, acceptor, server, workers);
    if handles.len() != count {
        return Err(Refusal::NoMemory);
    }
    let shares = ended(rt, handles, shares)?;
    Ok((shares, are_accepted))
}

/// The fault that ended accepting, if accepting failed.
fn fault_of(are_accepted: bool) -> Option<Refusal>
    ensures { IfSome result (λ e. e ≡ refusals.ReadFault) }
{
    if are_accepted {
        None
    } else {
        Some(Refusal::ReadFault)
    }
}

/// What sessions and workers leave: their shares, room for what each has done, and whether accepting went well.
#[derive(Drop)]
struct Left<K: Naming> {
    shares: Shares<K>,
    room: Accounts,
    are_accepted: bool,
}

/// How much of an image is told in its journal, if there is one, when it begins to be served.
#[derive(Clone, Copy)]
struct Told {
    names: u32,
    items: usize,
    /// The steps that the image has counted.
    steps: u64,
}

/// Lets sessions and workers go on with an image that they share.
fn serve_shared<
    'a,
    K: Naming + Send + Sync,
    P: AcceptPolicy<R>,
    W: SessionObserver<R> + Sync,
    S: Keeper + Sync,
    R: Threads + Wait + Clock + Sync,
>(
    rt: &R,
    alloc: Global,
    shared: &'a Shared<K, Mailbox>,
    told: Told,
    acceptor: Acceptor<'a, P, W, S>,
    workers: Vec<Worker>,
) -> Result<Left<K>, Refusal>
    ensures workers { IfOk result (λ l. vec_len l.shares.workers ≡ vec_len workers) }
    ensures refused { IfErr result (λ e. (e ≡ refusals.NoMemory) ⊎ (e ≡ refusals.BadArguments)) }
{
    let recorder = Recorder::new(
        alloc,
        shared,
        acceptor.keeper,
        told.names,
        told.items,
        told.steps,
    );
    if recorder.is_kept() {
        shared.keep_past(rt, alloc);
    }
    let shares = Mutex::new(Vec::new(alloc));
    let accounts = Mutex::new(Vec::new(alloc));
    let steps = Vec::with_capacity(alloc, workers.len())?;
    let active = AtomicU64::new(0);
    let admission = Admission::new();
    let server = ServerState {
        shared,
        shares: &shares,
        accounts: &accounts,
        active: &active,
        observer: acceptor.observer,
        keeper: acceptor.keeper,
        recorder: &recorder,
        admission: &admission,
        start: now(rt),
        workers: workers.len() as u64,
    };
    let (workers, are_accepted) = work(rt, alloc, acceptor, &server, workers)?;
    recorder.write_all(rt, alloc);
    drop(recorder);
    let callers = shares.into_inner();
    let room = Accounts {
        callers: accounts.into_inner(),
        workers: steps,
    };
    Ok(Left {
        shares: Shares { callers, workers },
        room,
        are_accepted,
    })
}

/// Serves an image, and settles at the end.
fn serve<
    K: Naming + Send + Sync,
    P: AcceptPolicy<R>,
    W: SessionObserver<R> + Sync,
    S: Keeper + Sync,
    R: Threads + Wait + Clock + Sync,
>(
    rt: &R,
    alloc: Global,
    image: Image,
    blanks: Blanks,
    opened: Opened,
    acceptor: Acceptor<'_, P, W, S>,
    workers: Vec<Worker>,
) -> Result<Served, Refusal>
    requires posts { blanks.posts.name ≡ K.posts }
    requires edits { blanks.edits.name ≡ K.edits }
    requires steps { blanks.steps.name ≡ K.steps }
    requires emptied { blanks.emptied.name ≡ K.emptied }
    requires book { opened.seen.book ≡ K.book }
    requires start { K.start ≡ amounts image }
    requires first { K.first ≡ image }
    ensures counts { IfOk result (λ r. AreCounts (amounts image) r.image r.totals) }
    ensures sums { IfOk result (λ r. AreSums r.totals r.accounts.callers.items r.accounts.workers.items) }
    ensures stood { IfOk result (λ r. HaveStood r.image r.totals.posts r.accounts.callers.items) }
    ensures workers { IfOk result (λ r. vec_len r.accounts.workers ≡ vec_len workers) }
    ensures later { IfOk result (λ r. GoesOnIn image r.image) }
    ensures run { IfOk result (λ r. (b : BooksView) × IsRun image (record { image = r.image; books = b })) }
    ensures fault { IfOk result (λ r. IfSome r.fault (λ e. e ≡ refusals.ReadFault)) }
    ensures refused { IfErr result (λ e. (e ≡ refusals.BadArguments) ⊎ (e ≡ refusals.NoMemory) ⊎ (e ≡ refusals.Changed)) }
{
    let told = Told {
        names: image.names().len(),
        items: image.history().len(),
        steps: image.counted().steps,
    };
    let shared = Shared::<K, Mailbox>::new(image, blanks, opened);
    let Left {
        shares,
        room,
        are_accepted,
    } = serve_shared(rt, alloc, &shared, told, acceptor, workers)?;
    let (image, totals, accounts) = settle_image(shared, shares, room)?;
    let fault = fault_of(are_accepted);
    Ok(Served {
        image,
        accounts,
        totals,
        fault,
    })
}

/// Whether the number of workers and the number of sessions, if any, are in their ranges.
fn is_served(workers: u32, sessions: Option<u32>) -> bool
    ensures { IsTrue result ↔ AreInRange workers sessions }
{
    let is_counted = match sessions {
        Some(count) => 1 <= count && count <= 1_000_000,
        None => true,
    };
    1 <= workers && workers <= 16 && is_counted
}

/// Serves an image over a socket. Each session has its own thread, at most 64 at a time, and 1 to 16 workers run the actors. A
/// client beyond 64 gets a refusal and is disconnected, unless the policy says that it is the operator: one of these is let in.
///
/// `sessions` is how many sessions are accepted, from 1 to 1,000,000. Then the call waits for their ends, stops the workers, and
/// answers the image, what each session and each worker has done, and the totals of that: what the image has counted beyond its counts
/// at the start. With `None`, serving goes on. The image is what a list of events has made of the one that was handed in (`IsRun`).
///
/// The observer is told of each session that ends with a refusal, and the keeper is asked to keep the image where a session wants it
/// saved, by one session at a time. If the policy lets in nobody any more, the call ends as behind the
/// last session. If accepting fails and the policy does not try again, it ends so too, and the fault is `ReadFault`.
///
/// The listener is let go as soon as no more sessions are accepted, so clients that come while the open ones go on are refused by
/// the system.
///
/// Refusals: `BadArguments` if a number is out of its range, or a share is missing at the end; `NoMemory` if there is no memory at
/// the start, or no thread for a worker (room for what the end needs is made as sessions come); `Changed` if the history lacks
/// something that the callers have done.
pub fn serve_image<
    P: AcceptPolicy<R>,
    W: SessionObserver<R> + Sync,
    S: Keeper + Sync,
    R: Threads + Wait + Clock + Sync,
>(
    rt: &R,
    alloc: Global,
    listener: UnixListener,
    policy: &P,
    observer: &W,
    keeper: &S,
    workers: u32,
    sessions: Option<u32>,
    image: Image,
) -> Result<Served, Refusal>
    ensures range { ¬ (AreInRange workers sessions) → result ≡ Err refusals.BadArguments }
    ensures counts { IfOk result (λ r. AreCounts (amounts image) r.image r.totals) }
    ensures sums { IfOk result (λ r. AreSums r.totals r.accounts.callers.items r.accounts.workers.items) }
    ensures stood { IfOk result (λ r. HaveStood r.image r.totals.posts r.accounts.callers.items) }
    ensures workers { IfOk result (λ r. vec_len r.accounts.workers ≡ workers) }
    ensures later { IfOk result (λ r. GoesOnIn image r.image) }
    ensures run { IfOk result (λ r. (b : BooksView) × IsRun image (record { image = r.image; books = b })) }
    ensures fault { IfOk result (λ r. IfSome r.fault (λ e. e ≡ refusals.ReadFault)) }
    ensures refused { IfErr result (λ e. (e ≡ refusals.BadArguments) ⊎ (e ≡ refusals.NoMemory) ⊎ (e ≡ refusals.Changed)) }
{
    if !is_served(workers, sessions) {
        drop(image);
        return Err(Refusal::BadArguments);
    }
    let Ok(workers) = new_workers(alloc, workers) else {
        drop(image);
        return Err(Refusal::NoMemory);
    };
    let acceptor = Acceptor {
        listener,
        sessions,
        policy,
        observer,
        keeper,
    };
    serve::<Brand, P, W, S, R>(
        rt,
        alloc,
        image,
        Blanks::new(),
        Opened::new(),
        acceptor,
        workers,
    )
}

/// Serves a new image with the default settings in the same way, lets all clients in, and answers the totals. A session that ends with
/// a refusal adds it to `faults`, if there is memory; with `None` for `sessions` nothing is added. If accepting fails, it is refused by
/// `ReadFault`.
pub fn serve_on<R: Threads + Wait + Clock + Sync>(
    rt: &R,
    alloc: Global,
    listener: UnixListener,
    faults: &Faults<Refusal>,
    workers: u32,
    sessions: Option<u32>,
) -> Result<Totals, Refusal>
    ensures range { ¬ (AreInRange workers sessions) → (result ≡ Err refusals.BadArguments) ⊎ (result ≡ Err refusals.NoMemory) }
    ensures counts { IfOk result (HaveServed workers) }
    ensures refused { IfErr result (λ e. (e ≡ refusals.BadArguments) ⊎ (e ≡ refusals.NoMemory) ⊎ (e ≡ refusals.ReadFault) ⊎ (e ≡ refusals.Changed)) }
{
    let image = Image::new(alloc, Settings::DEFAULT)?;
    let observer = FaultList::of(faults, sessions);
    let Served {
        image,
        accounts,
        totals,
        fault,
    } = serve_image(
        rt, alloc, listener, &AcceptAll, &observer, &Nobody, workers, sessions, image,
    )?;
    image.known();
    drop((image, accounts));
    match fault {
        Some(refusal) => Err(refusal),
        None => Ok(totals),
    }
}
