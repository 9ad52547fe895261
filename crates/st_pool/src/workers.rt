//! Workers: who lets ready actors take their quanta.
//!
//! A worker holds the lock once for a quantum: it commits the steps that it took, finds the next ready actor and checks it out. Between
//! two holds it takes the steps on its own claim, with its own caches. What it does first, and after a wait, it finds in a hold of its
//! own. A worker that finds the lock held takes several claims, and commits them in one hold.
ghost use Rattle.std.specs.Prelude.{◌≡◌, ◌≤◌, IfErr};
ghost use Rattle.st_classes.specs.declared.refusals.Refusal.TheVariants as refusals;
ghost use Rattle.st_classes.specs.declared.refusals.Limited.TheVariants as limits;
ghost use Rattle.st_pool.specs.Holds.{IsHold, of_worker};

use crate::claim_slots::{ClaimSlots, HoldOutcome, Ran};
use crate::crowding::Crowding;
use crate::naming::Naming;
use crate::pool_state::{PoolState, Work};
use crate::pool_worker::PoolWorker;
use crate::shared::Shared;
use crate::shares::WorkerShare;
use st_classes::refusals::Refusal;
use st_guard::guard::Guard;
use st_mailbox::mailboxes::Mailbox;
use st_turn::claim::Claim;
use st_turn::worker::Worker;
use std::alloc::Global;
use std::sync::Wait;
use std::thread::yield_now;

/// What a worker calls round each of its quanta, while it does not hold the lock.
pub trait Gate {
    /// After the checkout, before the first step. The worker is named by the number that its loop was given. A worker may have claims
    /// beside this one, whose steps are taken before or after, and which are committed with it: what waits here for one of their
    /// commits waits for ever.
    fn before(&mut self, worker: u32, claim: &Claim);

    /// After the commit was answered, once for each claim. The worker may have its next claims by then.
    fn after(&mut self, worker: u32);
}

/// A gate that does nothing.
#[derive(Drop)]
pub struct OpenGate;

impl Gate for OpenGate {
    fn before(&mut self, _worker: u32, _claim: &Claim) {}

    fn after(&mut self, _worker: u32) {}
}

/// Waits until something has moved, or the workers are to end. It looks some times before it sleeps, and then sleeps on though something
/// has moved meanwhile, if no actor is ready.
fn wait_past<K: Naming, M: Mailbox, R: Wait>(rt: &R, shared: &Shared<K, M>, seen: u64) {
    let Some(seen) = shared.look_past(rt, seen) else {
        return;
    };
    let mut before = shared.enter(rt);
    before.waiting.begin_sleep();
    let mut behind = shared
        .moved
        .wait_while(rt, before, |pool| pool.waiting.is_still(seen));
    behind.waiting.end_sleep();
}

/// Rests until something other than short quanta has moved, or the workers are to end. It does not rest if no other worker is awake.
fn rest<K: Naming, M: Mailbox, R: Wait>(rt: &R, shared: &Shared<K, M>) {
    let mut before = shared.enter(rt);
    if !before.has_helpers() {
        return;
    }
    let seen = before.waiting.eases();
    before.waiting.begin_rest();
    let mut behind = shared
        .eased
        .wait_while(rt, before, |pool| !pool.waiting.is_eased_since(seen));
    behind.waiting.end_rest();
}

/// Waits, or rests if the worker was in the way of others.
fn pause<K: Naming, M: Mailbox, R: Wait>(
    rt: &R,
    shared: &Shared<K, M>,
    crowding: &mut Crowding,
    seen: u64,
) {
    if crowding.takes_rest() {
        rest(rt, shared);
    } else {
        wait_past(rt, shared, seen);
    }
}

/// What a worker without claims does first, or after a wait.
fn next_work<K: Naming, M: Mailbox, R: Wait>(
    rt: &R,
    alloc: Global,
    shared: &Shared<K, M>,
    share: &mut WorkerShare<K>,
    claim_slots: &mut ClaimSlots<K>,
) -> Work<()> {
    let work = claim_slots.find(alloc, &mut shared.enter(rt), share);
    claim_slots.let_go();
    work
}

/// What a worker does in its hold behind its quanta: it commits its claims, and takes others. `rests` says that it is to take none.
/// Where the lock was not free, it takes one more than it had, if its quanta were long and all were committed.
#[tactic(auto, using(crate::proofs::Holding::hold_then))]
fn commit_and_claim_all<K: Naming, M: Mailbox>(
    alloc: Global,
    pool: &mut PoolState<K, M>,
    share: &mut WorkerShare<K>,
    claim_slots: &mut ClaimSlots<K>,
    ran: Ran,
    rests: bool,
    was_free: bool,
) -> HoldOutcome
    ensures { IsHold of_worker pool.old pool.new }
{
    let are_long = !ran.has_short();
    let outcome = claim_slots.commit_and_claim(alloc, pool, share, rests, are_long);
    let is_well = outcome.committed == ran.count && !ran.is_starved;
    if outcome.goes_on && is_well && are_long && !was_free && !pool.has_idle() {
        claim_slots.take_more(alloc, pool, share);
    }
    pool.note_want(ran.is_starved);
    outcome
}

/// Commits the steps of the worker's quanta, and answers what the worker does next, both in one hold. A commit readies at most one
/// actor more than its slot takes next, so for each one other worker is woken if one sleeps and an actor is ready. One that rests is
/// woken too, but not after short quanta whose worker goes on or rests.
fn commit_and_claim<K: Naming, M: Mailbox, R: Wait>(
    rt: &R,
    alloc: Global,
    shared: &Shared<K, M>,
    share: &mut WorkerShare<K>,
    claim_slots: &mut ClaimSlots<K>,
    ran: Ran,
    crowding: &mut Crowding,
) -> Work<()> {
    let at_once = shared.pool.try_lock();
    let was_free = at_once.is_some();
    crowding.note(ran.long, ran.has_short(), was_free);
    let mut pool = match at_once {
        Some(pool) => pool,
        None => shared.enter(rt),
    };
    let rests = crowding.asks_for_rest(!ran.is_starved && pool.has_helpers());
    let outcome = commit_and_claim_all(alloc, &mut pool, share, claim_slots, ran, rests, was_free);
    let wants_help = pool.wants_help();
    let is_hurried = ran.long == 0 && (rests || outcome.goes_on);
    let wants_more = !is_hurried && pool.wants_more();
    let news = pool.take_news();
    drop(pool);
    shared.notify(news);
    claim_slots.let_go();
    for _ in 0..outcome.committed {
        if wants_help {
            shared.moved.notify_one();
        }
        if wants_more {
            shared.eased.notify_one();
        }
    }
    if outcome.goes_on {
        Work::Claimed(())
    } else {
        outcome.next
    }
}

/// What a worker has for itself: its caches, its claim slots, and whether it is in the way of others.
#[derive(Drop)]
struct WorkerState<K: Naming, G: Guard> {
    pool_worker: PoolWorker<K, G>,
    claim_slots: ClaimSlots<K>,
    crowding: Crowding,
}

/// The number of a worker, and the steps of a quantum.
#[derive(Clone, Copy)]
struct WorkerConfig {
    number: u32,
    quantum: u32,
}

/// Lets the worker's claims take their quanta, and answers what the worker does next.
fn take_quanta<G: Guard, K: Naming, M: Mailbox, T: Gate, R: Wait>(
    rt: &R,
    alloc: Global,
    shared: &Shared<K, M>,
    share: &mut WorkerShare<K>,
    state: &mut WorkerState<K, G>,
    config: WorkerConfig,
    gate: &mut T,
) -> Work<()> {
    let WorkerState {
        pool_worker,
        claim_slots,
        crowding,
    } = state;
    let WorkerConfig { number, quantum } = config;
    let ran = claim_slots.run(alloc, pool_worker, quantum, number, gate);
    let work = commit_and_claim(rt, alloc, shared, share, claim_slots, ran, crowding);
    for _ in 0..ran.count {
        gate.after(number);
    }
    work
}

/// Takes quanta until the workers are to end.
fn take_quanta_until_stop<G: Guard, K: Naming, M: Mailbox, T: Gate, R: Wait>(
    rt: &R,
    alloc: Global,
    shared: &Shared<K, M>,
    share: &mut WorkerShare<K>,
    state: &mut WorkerState<K, G>,
    config: WorkerConfig,
    gate: &mut T,
) {
    let mut work = next_work(rt, alloc, shared, share, &mut state.claim_slots);
    for _ in rt.forever() {
        work = match work {
            Work::Stop => return,
            Work::Wait(seen) => {
                pause(rt, shared, &mut state.crowding, seen);
                next_work(rt, alloc, shared, share, &mut state.claim_slots)
            }
            Work::Claimed(()) => {
                // Nobody else can take the actors of the claims meanwhile.
                if state.crowding.lets_others_run() {
                    yield_now();
                }
                take_quanta(rt, alloc, shared, share, state, config, gate)
            }
        };
    }
}

/// Lets ready actors take quanta of at most `quantum` steps, from 1 to 1,024, until the workers are told to stop. The quantum that a
/// worker is in is committed first. The answer is the worker's share: the steps that it committed.
///
/// It is refused (`TooMany` sessions) if 4,294,967,295 workers were given out; then no actor has been checked out.
///
/// A claim that is refused by `Stale` or `Changed` is dropped, and the worker goes on. If nothing is ready, memory ran out or the
/// history is full, it sleeps until another call may have changed that: an accepted post, an edit, a new actor or a close (refused
/// ones too), a checkpoint, a commit of steps after which another actor is ready, or the stop; and, if memory ran out or the history is
/// full, any call that is made of the image, refused ones too. `outcome`, `stats` and `look` wake nobody. Before it sleeps it looks some
/// times, if no other worker does.
///
/// A worker whose quanta are short and that often finds the lock held rests while another worker is awake, although actors are ready.
/// One whose quanta are long and that finds it held takes up to four claims at a time, lets one after the other take its quantum, and
/// commits them in one hold.
pub fn worker_loop<G: Guard, K: Naming, M: Mailbox, T: Gate, R: Wait>(
    rt: &R,
    alloc: Global,
    shared: &Shared<K, M>,
    number: u32,
    worker: Worker<G>,
    gate: &mut T,
    quantum: u32,
) -> Result<WorkerShare<K>, Refusal>
    requires quantum { (1 ≤ quantum) × (quantum ≤ 1024) }
    ensures refused { IfErr result (λ e. e ≡ refusals.TooMany limits.Sessions) }
{
    let employed = shared.enter(rt).employ();
    let mut share = match employed {
        Ok(share) => share,
        Err(refusal) => {
            drop(worker);
            return Err(refusal);
        }
    };
    let mut state = WorkerState {
        pool_worker: PoolWorker::new(worker),
        claim_slots: ClaimSlots::new(alloc),
        crowding: Crowding::none(),
    };
    let config = WorkerConfig { number, quantum };
    take_quanta_until_stop(rt, alloc, shared, &mut share, &mut state, config, gate);
    drop(state);
    Ok(share)
}
