//! What threads share: an image under one lock, its books, and a sign that something has moved.
ghost use Rattle.std.specs.Prelude.{◌≡◌, IfErr, IfOk};
ghost use Rattle.st_classes.specs.declared.refusals.Refusal.TheVariants as refusals;
ghost use Rattle.st_classes.specs.declared.refusals.Limited.TheVariants as limits;
ghost use Rattle.st_calls.specs.Growth.{amounts};
ghost use Rattle.st_pool.specs.Done.{nothing_done};

use crate::books::Blanks;
use crate::callers::Caller;
use crate::holds::{Condition, Reading};
use crate::known_prefix::Opened;
use crate::naming::Naming;
use crate::pool_state::PoolState;
use crate::signals::Signal;
use crate::waiting::News;
use st_classes::refusals::Refusal;
use st_image::image::Image;
use st_mailbox::mailboxes::Mailbox;
use std::alloc::Global;
use std::hint::spin_loop;
use std::sync::{Condvar, CondvarTimeouts, Mutex, MutexGuard, Wait};
use std::thread::yield_now;
use std::time::{Clock, Duration};

/// How often a thread looks for the lock at short intervals. A hold takes about a microsecond.
const LOOKS: usize = 100;

/// How often it looks at long intervals then, before it sleeps for the lock. A sleep takes far more than a hold, and a thread that was
/// woken for the lock may find it held again; then it is left to that thread alone, and all others that look for it sleep as well.
const LONG_LOOKS: usize = 250;

/// How many pauses there are between two looks at a short interval, and at a long one.
const PAUSES: usize = 4;

const LONG_PAUSES: usize = 16;

/// How often a caller waits, for a long interval, for the signal that a turn has ended, before it sleeps for that. Between two intervals
/// other threads may run. Most turns end sooner than a thread that sleeps would be woken.
const LOOKS_FOR_END: u32 = 32;

/// How often a worker that found nothing looks, at long intervals, whether there is something now before it sleeps; a signal says that
/// something has moved. The next message of a client who waits for each reply comes sooner than a thread that sleeps would be woken.
const LOOKS_FOR_WORK: u32 = 48;

/// Lets some time pass.
#[inline]
fn pause(count: usize) {
    for _ in 0..count {
        spin_loop();
    }
}

/// An image that threads share, with books of what they do to it. Each call takes the lock once.
#[derive(Drop)]
pub struct Shared<K: Naming, M: Mailbox> {
    pub(crate) pool: Mutex<PoolState<K, M>>,
    pub(crate) moved: Condvar,
    /// What workers rest on that were in the way of others.
    pub(crate) eased: Condvar,
    /// What callers sleep on that wait for the end of a turn.
    pub(crate) ended: Condvar,
    /// What tells the worker that looks that something has moved.
    moves: Signal,
    /// What tells callers that look that a turn has ended.
    ends: Signal,
}

impl<K: Naming, M: Mailbox> Shared<K, M> {
    /// An image whose books are empty: they count what the image counts from now on. The blanks and what was opened give the pool its
    /// name `K`.
    pub fn new(image: Image<M>, blanks: Blanks, opened: Opened) -> Shared<K, M>
        requires posts { blanks.posts.name ≡ K.posts }
        requires edits { blanks.edits.name ≡ K.edits }
        requires steps { blanks.steps.name ≡ K.steps }
        requires emptied { blanks.emptied.name ≡ K.emptied }
        requires book { opened.seen.book ≡ K.book }
        requires start { K.start ≡ amounts image }
        requires first { K.first ≡ image }
    {
        Shared {
            pool: Mutex::new(PoolState::new(image, blanks, opened)),
            moved: Condvar::new(),
            eased: Condvar::new(),
            ended: Condvar::new(),
            moves: Signal::new(),
            ends: Signal::new(),
        }
    }

    /// Makes one more caller, which has done nothing. It is refused (`TooMany` sessions) if 4,294,967,295 callers were given out;
    /// nothing has changed then.
    pub fn caller<R: Wait>(&self, rt: &R, alloc: Global) -> Result<Caller<'_, K, M>, Refusal>
        ensures new { IfOk result (λ c. c ≡ nothing_done) }
        ensures refused { IfErr result (λ e. e ≡ refusals.TooMany limits.Sessions) }
    {
        let share = self.enter(rt).give(alloc)?;
        Ok(Caller::new(self, share))
    }

    /// From now on the histories that checkpoints empty are kept, until a reading takes them.
    pub fn keep_past<R: Wait>(&self, rt: &R, alloc: Global) {
        self.enter(rt).keep_past(alloc);
    }

    /// Reads something in one hold of the lock, in which nothing changes. No worker is woken.
    pub fn read<R: Wait, J: Reading<K, M>>(&self, rt: &R, alloc: Global, reading: J) -> J::Out {
        let mut pool = self.enter(rt);
        reading.read(alloc, &mut pool)
    }

    /// Looks for the lock this often, with this many pauses after each look.
    #[inline(always)]
    fn look(&self, looks: usize, pauses: usize) -> Option<MutexGuard<'_, PoolState<K, M>>> {
        for _ in 0..looks {
            if let Some(pool) = self.pool.try_lock() {
                return Some(pool);
            }
            pause(pauses);
        }
        None
    }

    /// Takes the lock. It is looked for some time before the thread sleeps for it.
    pub(crate) fn enter<R: Wait>(&self, rt: &R) -> MutexGuard<'_, PoolState<K, M>> {
        if let Some(pool) = self.look(LOOKS, PAUSES) {
            return pool;
        }
        if let Some(pool) = self.look(LONG_LOOKS, LONG_PAUSES) {
            return pool;
        }
        self.pool.lock(rt)
    }

    /// Takes the lock if a condition holds, or else once it holds at one of some looks.
    fn look_for<R: Wait, C: Condition<K, M>>(
        &self,
        rt: &R,
        condition: &C,
    ) -> Option<MutexGuard<'_, PoolState<K, M>>> {
        let mut ends = self.ends.count();
        let mut first = self.enter(rt);
        if condition.holds(&first) {
            return Some(first);
        }
        first.waiting.begin_seek();
        drop(first);
        for _ in 0..LOOKS_FOR_END {
            self.ends.pause_past(ends, LONG_PAUSES);
            let told = self.ends.count();
            if told == ends {
                yield_now();
            } else {
                ends = told;
                let mut pool = self.enter(rt);
                if condition.holds(&pool) {
                    pool.waiting.end_seek();
                    return Some(pool);
                }
            }
        }
        self.enter(rt).waiting.end_seek();
        None
    }

    /// Takes the lock once a condition holds, or this long has passed. It is looked some times before the thread sleeps for it; no lock is
    /// held meanwhile.
    pub(crate) fn enter_when<R: Wait + Clock, C: Condition<K, M>>(
        &self,
        rt: &R,
        condition: &C,
        most: Duration,
    ) -> MutexGuard<'_, PoolState<K, M>> {
        if most.is_zero() {
            return self.enter(rt);
        }
        if let Some(pool) = self.look_for(rt, condition) {
            return pool;
        }
        let mut before = self.enter(rt);
        before.waiting.begin_watch();
        let (mut behind, _) = self
            .ended
            .wait_timeout_while(rt, before, most, |pool| !condition.holds(pool));
        behind.waiting.end_watch();
        behind
    }

    /// Looks some times whether something has moved since for which an actor is ready, or the workers are to end. The answer is none if so;
    /// else what was seen by then, beyond which a move wakes. One worker at a time looks.
    pub(crate) fn look_past<R: Wait>(&self, rt: &R, seen: u64) -> Option<u64> {
        let mut told = self.moves.count();
        if !self.enter(rt).waiting.begin_look(seen) {
            return Some(seen);
        }
        let mut seen = seen;
        for _ in 0..LOOKS_FOR_WORK {
            self.moves.pause_past(told, LONG_PAUSES);
            told = self.moves.count();
            if let Some(mut pool) = self.pool.try_lock() {
                if pool.has_work_past(seen) {
                    pool.waiting.end_look();
                    return None;
                }
                seen = pool.moves();
            }
        }
        let mut pool = self.enter(rt);
        pool.waiting.end_look();
        if pool.has_work_past(seen) {
            return None;
        }
        Some(pool.moves())
    }

    /// A turn has ended, or the turns have been numbered anew, if so: the callers that wait look again.
    pub(crate) fn notify(&self, news: News) {
        if news.is_told {
            self.ends.tell();
        }
        if news.wakes {
            self.ended.notify_all();
        }
    }

    /// Something has moved while a worker looks, if so.
    pub(crate) fn tell_looker_if(&self, has_moved: bool) {
        if has_moved {
            self.moves.tell();
        }
    }

    /// Something has moved: a worker that sleeps is woken, and one that rests.
    pub(crate) fn wake(&self) {
        self.moved.notify_one();
        self.eased.notify_one();
    }

    /// The same, if something has moved.
    pub(crate) fn wake_if(&self, has_moved: bool) {
        if has_moved {
            self.wake();
        }
    }

    /// Tells the workers to end, each when its quantum is over. Those that wait or rest are woken.
    pub fn stop<R: Wait>(&self, rt: &R) {
        self.enter(rt).stop();
        self.moved.notify_all();
        self.eased.notify_all();
    }
}
