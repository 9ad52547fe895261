//! The claims that a worker has at a time.
//!
//! That is one, as long as the worker finds the lock free at the end of its quantum. Where others hold it, the worker takes a claim
//! more in its own hold. So each hold commits and checks out several: fewer holds have to be waited for, and what is read in them was
//! less often written last by another processor. If a quantum is short, or while another worker sleeps or rests, the worker goes back
//! to one.
ghost use Rattle.st_pool.specs.Holds.{IsHold, of_worker};

use crate::crowding::is_short;
use crate::naming::Naming;
use crate::pool_claim::PoolClaim;
use crate::pool_state::{PoolState, Work, goes_on};
use crate::pool_worker::PoolWorker;
use crate::shares::WorkerShare;
use crate::workers::Gate;
use st_classes::refusals::Refusal;
use st_guard::guard::Guard;
use st_image::recycled::Recycled;
use st_mailbox::mailboxes::Mailbox;
use std::alloc::Global;

/// How many claims a worker has at most.
const MOST: usize = 4;

/// The place of a claim, whether its quantum was short and whether memory ran out in it, and what the claim before it left.
#[derive(Drop)]
struct ClaimSlot<K: Naming> {
    pool_claim: Option<PoolClaim<K>>,
    was_short: bool,
    is_starved: bool,
    recycled: Recycled,
}

impl<K: Naming> ClaimSlot<K> {
    fn empty() -> ClaimSlot<K> {
        ClaimSlot {
            pool_claim: None,
            was_short: false,
            is_starved: false,
            recycled: Recycled::none(),
        }
    }

    /// Takes the claim that was found, if one was. The answer is what was found.
    fn put(&mut self, work: Work<PoolClaim<K>>) -> Work<()> {
        match work {
            Work::Stop => Work::Stop,
            Work::Wait(seen) => Work::Wait(seen),
            Work::Claimed(pool_claim) => {
                self.pool_claim = Some(pool_claim);
                Work::Claimed(())
            }
        }
    }

    /// Looks for a claim.
    fn find<M: Mailbox>(
        &mut self,
        alloc: Global,
        pool: &mut PoolState<K, M>,
        share: &mut WorkerShare<K>,
    ) -> Work<()>
        ensures { IsHold of_worker pool.old pool.new }
    {
        let work = pool.work(alloc, share, &mut self.recycled);
        self.put(work)
    }

    /// Lets the claim take its quantum, if there is a claim, and adds it to those of the worker.
    fn run<G: Guard, T: Gate>(
        &mut self,
        alloc: Global,
        pool_worker: &mut PoolWorker<K, G>,
        quantum: u32,
        number: u32,
        gate: &mut T,
        ran: &mut Ran,
    ) {
        let Some(pool_claim) = &mut self.pool_claim else {
            return;
        };
        gate.before(number, pool_claim.claim());
        self.is_starved = pool_worker.run(alloc, pool_claim, quantum).is_err();
        self.was_short = is_short(pool_claim.claim().steps());
        if self.is_starved {
            self.recycled.let_go();
        } else {
            pool_claim.prepare(alloc, &mut self.recycled);
        }
        ran.add(self.was_short, self.is_starved);
    }

    /// Commits the claim, if there is one, and looks for the next one if the slot goes on. The answer is that of the commit, and what
    /// was found.
    fn commit_and_claim<M: Mailbox>(
        &mut self,
        alloc: Global,
        pool: &mut PoolState<K, M>,
        share: &mut WorkerShare<K>,
        goes_on: bool,
    ) -> Option<(Result<u32, Refusal>, Work<()>)>
        ensures { IsHold of_worker pool.old pool.new }
    {
        let pool_claim = self.pool_claim.take()?;
        let (answer, work) = pool.commit_and_claim(
            alloc,
            share,
            pool_claim,
            self.is_starved || !goes_on,
            self.was_short,
            &mut self.recycled,
        );
        Some((answer, self.put(work)))
    }

    /// Lets go what the claim did not take of what the one before it left; but a body stays while the slot goes on, since the copy at
    /// the end of the next quantum may take its memory. The lock is not held.
    fn let_go(&mut self) {
        if self.pool_claim.is_some() {
            self.recycled.let_go_but_body();
        } else {
            self.recycled.let_go();
        }
    }
}

/// What the quanta of a worker's claims were: how many, how many were not short, and whether memory ran out in one.
#[derive(Clone, Copy)]
pub(crate) struct Ran {
    pub(crate) count: u32,
    pub(crate) long: u32,
    pub(crate) is_starved: bool,
}

impl Ran {
    fn add(&mut self, was_short: bool, was_starved: bool) {
        self.count = self.count.saturating_add(1);
        if !was_short {
            self.long = self.long.saturating_add(1);
        }
        self.is_starved = self.is_starved || was_starved;
    }

    /// Whether one of them was short.
    pub(crate) fn has_short(&self) -> bool {
        self.long < self.count
    }
}

/// What a hold came to: how many claims were committed, whether the worker has claims, and what it is to do if it has none.
#[derive(Drop)]
pub(crate) struct HoldOutcome {
    pub(crate) committed: u32,
    pub(crate) goes_on: bool,
    pub(crate) next: Work<()>,
}

impl HoldOutcome {
    fn add(&mut self, outcome: Option<(Result<u32, Refusal>, Work<()>)>) {
        let Some((answer, work)) = outcome else {
            return;
        };
        if answer.is_ok() {
            self.committed = self.committed.saturating_add(1);
        }
        self.goes_on = self.goes_on || goes_on(&work);
        self.next = work;
    }
}

/// The claim slots of a worker. Most of the time the first one alone has a claim, and the others are not looked at.
#[derive(Drop)]
pub(crate) struct ClaimSlots<K: Naming> {
    first: ClaimSlot<K>,
    others: Vec<ClaimSlot<K>>,
    /// Whether one of the others may have a claim.
    are_several: bool,
}

impl<K: Naming> ClaimSlots<K> {
    /// Slots without claims. If there is no memory for others, there is the first one alone.
    pub(crate) fn new(alloc: Global) -> ClaimSlots<K> {
        let mut others = Vec::new(alloc);
        for _ in 1..MOST {
            let _ = others.push(ClaimSlot::empty());
        }
        ClaimSlots {
            first: ClaimSlot::empty(),
            others,
            are_several: false,
        }
    }

    /// What a worker without claims does first, or after a wait.
    pub(crate) fn find<M: Mailbox>(
        &mut self,
        alloc: Global,
        pool: &mut PoolState<K, M>,
        share: &mut WorkerShare<K>,
    ) -> Work<()>
        ensures { IsHold of_worker pool.old pool.new }
    {
        self.first.find(alloc, pool, share)
    }

    /// Lets each claim take its quantum.
    pub(crate) fn run<G: Guard, T: Gate>(
        &mut self,
        alloc: Global,
        pool_worker: &mut PoolWorker<K, G>,
        quantum: u32,
        number: u32,
        gate: &mut T,
    ) -> Ran {
        let mut ran = Ran {
            count: 0,
            long: 0,
            is_starved: false,
        };
        self.first
            .run(alloc, pool_worker, quantum, number, gate, &mut ran);
        if self.are_several {
            for claim_slot in &mut self.others {
                claim_slot.run(alloc, pool_worker, quantum, number, gate, &mut ran);
            }
        }
        ran
    }

    /// Commits all claims, and looks for the next ones, all in one hold. `rests` says that the worker is to take none. Otherwise one
    /// slot at least goes on if an actor is ready behind the last commit, unless memory or the history ran out or the workers are to end,
    /// and all do if `are_several` says so and no worker is idle.
    #[tactic(auto, using(crate::proofs::Holding::hold_then))]
    pub(crate) fn commit_and_claim<M: Mailbox>(
        &mut self,
        alloc: Global,
        pool: &mut PoolState<K, M>,
        share: &mut WorkerShare<K>,
        rests: bool,
        are_several: bool,
    ) -> HoldOutcome
        ensures { IsHold of_worker pool.old pool.new }
    {
        let mut outcome = HoldOutcome {
            committed: 0,
            goes_on: false,
            next: Work::Wait(pool.moves()),
        };
        outcome.add(self.first.commit_and_claim(alloc, pool, share, !rests));
        if self.are_several {
            for claim_slot in &mut self.others {
                let goes_on = !outcome.goes_on || are_several && !pool.has_idle();
                outcome.add(claim_slot.commit_and_claim(alloc, pool, share, goes_on && !rests));
            }
        }
        outcome
    }

    /// Takes one claim more, if there is a slot for it and an actor is ready.
    #[tactic(auto, using(crate::proofs::Holding::hold_then, crate::proofs::Holding::hold_none))]
    pub(crate) fn take_more<M: Mailbox>(
        &mut self,
        alloc: Global,
        pool: &mut PoolState<K, M>,
        share: &mut WorkerShare<K>,
    )
        ensures { IsHold of_worker pool.old pool.new }
    {
        if self.first.pool_claim.is_none() {
            let _ = self.first.find(alloc, pool, share);
            return;
        }
        for claim_slot in &mut self.others {
            if claim_slot.pool_claim.is_none() {
                let _ = claim_slot.find(alloc, pool, share);
                self.are_several = true;
                return;
            }
        }
    }

    /// Lets go what no claim took of what others left. The lock is not held.
    pub(crate) fn let_go(&mut self) {
        self.first.let_go();
        if self.are_several {
            let mut are_several = false;
            for claim_slot in &mut self.others {
                claim_slot.let_go();
                are_several = are_several || claim_slot.pool_claim.is_some();
            }
            self.are_several = are_several;
        }
    }
}
