//! Gates that make a worker wait, and what threads of a test tell one another. Each wait has a limit, in turns of a millisecond.
use crate::scenes::Way;
use st_pool::workers::Gate;
use st_turn::claim::Claim;
use std::sync::atomic::{AtomicU64, Ordering};
use std::thread;
use std::time::{Clock, Duration};

pub const TURNS: u32 = 20_000;

/// How many claims a worker has at most.
const MOST_CLAIMS: u64 = 4;

/// The turns for which one of two workers waits for the other's first claim, which is there at once.
const MEETING: u32 = 100_000;

/// What threads of a test tell one another.
#[derive(Drop)]
pub struct Marks {
    /// How many claims the first worker got, and all others.
    first: AtomicU64,
    second: AtomicU64,
    /// How many quanta were over.
    ended: AtomicU64,
    /// Whether the caller lets the workers go on.
    told: AtomicU64,
    /// How many workers have ended.
    gone: AtomicU64,
    /// Whether something was not as it must be.
    wrong: AtomicU64,
}

impl Marks {
    pub fn new() -> Marks {
        Marks {
            first: AtomicU64::new(0),
            second: AtomicU64::new(0),
            ended: AtomicU64::new(0),
            told: AtomicU64::new(0),
            gone: AtomicU64::new(0),
            wrong: AtomicU64::new(0),
        }
    }

    /// How many claims the workers got.
    pub fn claims(&self) -> u64 {
        let first = self.first.load(Ordering::SeqCst);
        first.wrapping_add(self.second.load(Ordering::SeqCst))
    }

    /// Lets the workers go on.
    pub fn tell(&self) {
        self.told.store(1, Ordering::SeqCst);
    }

    /// A worker has ended.
    pub fn leave(&self) {
        self.gone.fetch_add(1, Ordering::SeqCst);
    }

    /// Whether this many workers end soon.
    pub fn await_gone<R: Clock>(&self, rt: &R, wanted: u64) -> bool {
        reaches(rt, &self.gone, wanted)
    }

    /// Whether this many workers have ended.
    pub fn are_gone(&self, wanted: u64) -> bool {
        self.gone.load(Ordering::SeqCst) >= wanted
    }

    /// Whether each claim that the workers got was taken to the end of its quantum.
    pub fn are_paired(&self) -> bool {
        self.claims() == self.ended.load(Ordering::SeqCst)
    }

    pub fn note_wrong(&self) {
        self.wrong.store(1, Ordering::SeqCst);
    }

    pub fn is_wrong(&self) -> bool {
        self.wrong.load(Ordering::SeqCst) != 0
    }

    /// Whether there are this many claims soon.
    pub fn await_claims<R: Clock>(&self, rt: &R, wanted: u64) -> bool {
        for _ in 0..TURNS {
            if self.claims() >= wanted {
                return true;
            }
            pause(rt, 1);
        }
        false
    }

    /// Whether this many quanta are over soon.
    pub fn await_ended<R: Clock>(&self, rt: &R, wanted: u64) -> bool {
        reaches(rt, &self.ended, wanted)
    }
}

/// Sleeps for this many milliseconds.
pub fn pause<R: Clock>(rt: &R, millis: u64) {
    thread::sleep(rt, Duration::from_millis(millis));
}

/// Whether a number is soon as large as wanted.
fn reaches<R: Clock>(rt: &R, number: &AtomicU64, wanted: u64) -> bool {
    reaches_in(rt, number, wanted, TURNS)
}

/// Whether it is so in this many turns.
fn reaches_in<R: Clock>(rt: &R, number: &AtomicU64, wanted: u64, turns: u32) -> bool {
    for _ in 0..turns {
        if number.load(Ordering::SeqCst) >= wanted {
            return true;
        }
        pause(rt, 1);
    }
    false
}

/// A gate of a worker.
#[derive(Drop)]
pub struct Door<'a, R: Clock> {
    pub rt: &'a R,
    pub marks: &'a Marks,
    pub number: u32,
    pub way: Way,
    /// How many claims the worker has that were not committed yet, but for those whose quanta have not begun.
    pub claims: u64,
}

impl<'a, R: Clock> Door<'a, R> {
    /// Whether the worker may soon take its steps with this claim of its own, where both had so many claims before.
    fn opens(&self, mine: u64, of_both: u64) -> bool {
        let marks = self.marks;
        match self.way {
            Way::Free | Way::Held => true,
            Way::Told => reaches(self.rt, &marks.told, 1),
            Way::Met if self.number == 0 => reaches_in(self.rt, &marks.second, 1, MEETING),
            Way::Met => reaches_in(self.rt, &marks.first, 1, MEETING),
            Way::AllMet => marks.await_claims(self.rt, 4),
            Way::Paced if self.number == 0 => reaches(self.rt, &marks.second, mine),
            Way::Paced => reaches(self.rt, &marks.first, mine),
            Way::Third if of_both == 0 => {
                // the other worker waits by then
                pause(self.rt, 100);
                true
            }
            Way::Third => marks.await_claims(self.rt, 3),
        }
    }
}

impl<'a, R: Clock> Gate for Door<'a, R> {
    fn before(&mut self, worker: u32, claim: &Claim) {
        let of_both = self.marks.claims();
        let mine = if self.number == 0 {
            &self.marks.first
        } else {
            &self.marks.second
        };
        let count = mine.fetch_add(1, Ordering::SeqCst).wrapping_add(1);
        self.claims = self.claims.wrapping_add(1);
        if self.claims > MOST_CLAIMS {
            self.marks.note_wrong();
        }
        if worker != self.number || claim.steps() != 0 || !self.opens(count, of_both) {
            self.marks.note_wrong();
        }
    }

    fn after(&mut self, worker: u32) {
        self.claims = self.claims.wrapping_sub(1);
        self.marks.ended.fetch_add(1, Ordering::SeqCst);
        let is_let_go = self.way != Way::Held || reaches(self.rt, &self.marks.told, 1);
        if worker != self.number || !is_let_go {
            self.marks.note_wrong();
        }
    }
}
