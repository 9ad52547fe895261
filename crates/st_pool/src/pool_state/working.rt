//! What a worker does in a hold of the lock: it commits its claim, and is handed the next one.
ghost use Rattle.std.specs.Prelude.{◌≡◌};
ghost use Rattle.std.specs.Option.{IfSome};
ghost use Rattle.st_pool.specs.Done.{takes_more as takes_more_of};
ghost use Rattle.st_pool.specs.Seen.{Ends, MayFollow};

use crate::known_prefix::{KnownPrefix, LogHead, again, precedes};
use crate::naming::Naming;
use crate::pool_claim::PoolClaim;
use crate::pool_state::PoolState;
use crate::shares::WorkerShare;
use crate::waiting::Waiting;
use st_calls::claims;
use st_classes::refusals::Refusal;
use st_classes::values::ActorId;
use st_image::image::Image;
use st_image::recycled::Recycled;
use st_mailbox::mailboxes::Mailbox;
use st_turn::body::{Body, Phase};
use std::alloc::Global;

/// What a worker finds under the lock.
#[derive(Drop)]
pub(crate) enum Work<T> {
    /// It is to end.
    Stop,
    /// It is to sleep until there have been more moves than these.
    Wait(u64),
    /// A claim of the next ready actor.
    Claimed(T),
}

/// Adds an image as the last of those that were seen, if they are known.
fn note<K: Naming, M: Mailbox>(
    head: &LogHead<K>,
    prefix: &mut Option<KnownPrefix<K>>,
    image: &Image<M>,
)
    requires { IfSome prefix.old (λ l. MayFollow l image.now) }
    ensures { IfSome prefix.new (λ l. Ends l image.now) }
{
    let is_noted = match prefix {
        Some(prefix) => prefix.len() < 1 << 62 && prefix.add(head, image),
        None => false,
    };
    if !is_noted {
        *prefix = None;
    }
}

/// Whether steps were committed.
fn has_steps(answer: &Result<u32, Refusal>) -> bool {
    match answer {
        Ok(steps) => 0 < *steps,
        Err(_) => false,
    }
}

/// Whether a commit found no memory or no room in the history.
fn is_wanting(answer: &Result<u32, Refusal>) -> bool {
    matches!(answer, Err(Refusal::HistoryFull) | Err(Refusal::NoMemory))
}

/// Whether a body's last turn has ended.
fn is_over(body: &Body) -> bool {
    matches!(body.phase, Phase::Done(_))
}

/// Whether the last turn of an actor has ended.
fn has_ended<M: Mailbox>(image: &Image<M>, actor: ActorId) -> bool {
    match image.body(actor) {
        Some(body) => is_over(body),
        None => false,
    }
}

/// Whether somebody waits and a turn of an actor has ended, by the last of its steps or by the one that the image took itself.
fn is_news<M: Mailbox>(waiting: &Waiting, image: &Image<M>, actor: ActorId, ended: bool) -> bool {
    waiting.has_watchers() && (ended || has_ended(image, actor))
}

/// Whether a worker takes more work in the hold of its commit. It does not if its claim was handed back, nor if memory ran out in a
/// quantum that was committed.
fn takes_more(answer: &Result<u32, Refusal>, is_starved: bool) -> bool
    ensures { result ≡ takes_more_of is_starved answer.now }
{
    match answer {
        Ok(_) => !is_starved,
        Err(Refusal::HistoryFull) | Err(Refusal::NoMemory) => false,
        Err(_) => true,
    }
}

/// Whether a worker goes on with a claim.
pub(crate) fn goes_on<T>(work: &Work<T>) -> bool {
    matches!(work, Work::Claimed(_))
}

impl<K: Naming, M: Mailbox> PoolState<K, M> {
    ghost use Rattle.std.specs.Prelude.{◌≡◌, ◌+◌, ◌≤◌};
    ghost use Rattle.st_image.specs.Commits.{ChecksOut, Settles};
    ghost use Rattle.st_calls.specs.Growth.{amounts, committed};
    ghost use Rattle.st_pool.specs.Done.{CommitsAndClaims, Takes};

    /// Hands out a claim.
    #[inline(always)]
    pub(crate) fn check_out(
        &mut self,
        alloc: Global,
        actor: ActorId,
        recycled: &mut Recycled,
    ) -> Result<PoolClaim<K>, Refusal>
        ensures takes { ChecksOut self.old.image actor result self.new.image }
        ensures books { self.new.books ≡ self.old.books }
    {
        match claims::check_out(alloc, &mut self.image, actor, recycled) {
            Ok(claim) => {
                note(&self.head, &mut self.prefix, &self.image);
                Ok(PoolClaim {
                    claim,
                    seen: again(&self.prefix),
                })
            }
            Err(refusal) => Err(refusal),
        }
    }

    /// What a worker does next.
    #[tactic(auto, using(crate::proofs::Holding::run_same))]
    #[inline(always)]
    pub(crate) fn work(
        &mut self,
        alloc: Global,
        mine: &mut WorkerShare<K>,
        recycled: &mut Recycled,
    ) -> Work<PoolClaim<K>>
        ensures takes { Takes self.old.image result self.new.image }
        ensures share { mine.new ≡ mine.old }
        ensures books { self.new.books ≡ self.old.books }
        ensures within { K.start.steps + mine.old ≤ (amounts self.old.image).steps }
    {
        self.books.audit_worker(mine);
        if self.waiting.is_stopped() {
            return Work::Stop;
        }
        self.waiting.note_look();
        let Some(actor) = self.image.next_ready() else {
            return Work::Wait(self.waiting.moves());
        };
        match self.check_out(alloc, actor, recycled) {
            Ok(pool_claim) => Work::Claimed(pool_claim),
            Err(_) => {
                self.waiting.note_want(true);
                Work::Wait(self.waiting.moves())
            }
        }
    }

    /// Commits a claim for a worker, and releases it if it is handed back.
    #[inline(always)]
    fn commit(
        &mut self,
        alloc: Global,
        mine: &mut WorkerShare<K>,
        pool_claim: PoolClaim<K>,
        recycled: &mut Recycled,
    ) -> Result<u32, Refusal>
        ensures settles { Settles self.old.image pool_claim result self.new.image }
        ensures books { self.new.books ≡ record self.old.books { steps = self.old.books.steps + committed result } }
        ensures share { mine.new ≡ mine.old + committed result }
        ensures within { K.start.steps + mine.old ≤ (amounts self.old.image).steps }
    {
        self.image.known();
        let is_known = precedes(&pool_claim.seen, &self.prefix);
        let PoolClaim { claim, seen: _ } = pool_claim;
        let actor = claim.actor();
        let ended = is_over(claim.after());
        let answer = claims::settle(alloc, &mut self.image, claim, is_known, recycled);
        self.books.run(mine, &answer);
        self.waiting.note_commit(has_steps(&answer));
        self.waiting.note_want(is_wanting(&answer));
        let is_news = is_news(&self.waiting, &self.image, actor, ended);
        self.waiting.note_news_if(is_news);
        answer
    }

    /// Commits a claim for a worker, and finds what the worker does next if it takes more work. Otherwise it is to wait.
    #[inline(always)]
    pub(crate) fn commit_and_claim(
        &mut self,
        alloc: Global,
        mine: &mut WorkerShare<K>,
        pool_claim: PoolClaim<K>,
        is_starved: bool,
        is_short: bool,
        recycled: &mut Recycled,
    ) -> (Result<u32, Refusal>, Work<PoolClaim<K>>)
        ensures turns { CommitsAndClaims self.old.image pool_claim is_starved result.0 result.1 self.new.image }
        ensures books { self.new.books ≡ record self.old.books { steps = self.old.books.steps + committed result.0 } }
        ensures share { mine.new ≡ mine.old + committed result.0 }
        ensures within { K.start.steps + mine.old ≤ (amounts self.old.image).steps }
    {
        let answer = self.commit(alloc, mine, pool_claim, recycled);
        if !takes_more(&answer, is_starved) {
            return (answer, Work::Wait(self.waiting.moves()));
        }
        let work = self.work(alloc, mine, recycled);
        if is_short && goes_on(&work) {
            self.waiting.note_hurried(has_steps(&answer));
        }
        (answer, work)
    }

    /// A worker found no memory in a quantum, if so.
    pub(crate) fn note_want(&mut self, is_wanting: bool)
        ensures { self.new ≡ self.old }
    {
        self.waiting.note_want(is_wanting);
    }

    /// How often something has moved.
    pub(crate) fn moves(&self) -> u64 {
        self.waiting.moves()
    }

    /// Whether something has moved since there were so many moves, for which a worker that sleeps is to be woken: there is none if one looks
    /// and is free, who is not from then on.
    #[inline]
    pub(crate) fn wakes_past(&mut self, moves: u64) -> bool
        ensures { self.new ≡ self.old }
    {
        self.waiting.moves() != moves && !self.waiting.take_looker()
    }

    /// Whether something has moved since for which an actor is ready now, or the workers are to end.
    pub(crate) fn has_work_past(&self, seen: u64) -> bool {
        let is_still = self.waiting.is_still(seen);
        !is_still && (self.waiting.is_stopped() || self.image.next_ready().is_some())
    }

    /// Whether a worker may be asleep, rest or look.
    pub(crate) fn has_idle(&self) -> bool {
        self.waiting.has_sleepers() || self.waiting.has_resting() || self.waiting.has_looker()
    }

    /// Whether another worker than the one that asks neither sleeps nor rests.
    pub(crate) fn has_helpers(&self) -> bool {
        self.waiting.has_helpers(self.books.workers())
    }

    /// Whether an actor is ready while a worker may rest.
    pub(crate) fn wants_more(&self) -> bool {
        self.waiting.has_resting() && self.image.next_ready().is_some()
    }

    /// Whether an actor is ready while a worker may be asleep.
    pub(crate) fn wants_help(&self) -> bool {
        self.waiting.has_sleepers() && self.image.next_ready().is_some()
    }
}
