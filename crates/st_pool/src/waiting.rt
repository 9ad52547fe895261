//! Workers and callers that wait: how many there are, and by what each knows whether to go on.
//!
//! A worker sleeps while nothing can be done, until something has moved; before it sleeps, it looks for some time, if no other one does. It
//! rests while it would be in the way of others, until something other than short quanta has moved. While memory or room in the history is
//! wanting, each call of a caller is a move, since no clause says which of them gives some back. A caller waits for the end of a turn, or of
//! all turns that are numbered from one base.

/// Whom a thread tells, once it has let go of the lock, that something has happened which callers wait for.
#[derive(Clone, Copy)]
pub(crate) struct News {
    /// Whether a caller waits, and something has happened.
    pub(crate) is_told: bool,
    /// Whether one of those sleeps.
    pub(crate) wakes: bool,
}

/// How many workers and callers wait, and what has happened that they wait for.
#[derive(Drop)]
pub(crate) struct Waiting {
    /// How often something happened for which a worker that sleeps is to look again.
    moves: u64,
    /// How many moves were commits of short quanta, whose workers went on with the next one.
    hurried: u64,
    /// How many workers sleep, or have been woken and not taken the lock since.
    sleepers: u32,
    /// How many workers rest, or have been woken and not taken the lock since.
    resting: u32,
    /// Whether memory or room in the history was wanting since a worker looked last.
    is_wanting: bool,
    is_stopped: bool,
    /// Whether a worker that found nothing looks before it sleeps, and no call has moved anything since it began.
    has_looker: bool,
    /// How many callers look whether a turn has ended, before they sleep for that.
    seekers: u32,
    /// How many callers sleep for the end of a turn.
    watchers: u32,
    /// Whether a turn has ended since they were told, or the turns have been numbered anew.
    has_news: bool,
}

impl Waiting {
    /// No worker waits, and nothing has happened yet.
    pub(crate) fn none() -> Waiting {
        Waiting {
            moves: 0,
            hurried: 0,
            sleepers: 0,
            resting: 0,
            is_wanting: false,
            is_stopped: false,
            has_looker: false,
            seekers: 0,
            watchers: 0,
            has_news: false,
        }
    }

    /// How often something has moved.
    #[inline]
    pub(crate) fn moves(&self) -> u64 {
        self.moves
    }

    /// Something has happened for which a worker that sleeps is to look again.
    #[inline]
    pub(crate) fn note_move(&mut self) {
        self.moves = self.moves.wrapping_add(1);
    }

    /// The same, if it is a move.
    #[inline]
    pub(crate) fn note_if(&mut self, is_move: bool) {
        self.moves = self.moves.wrapping_add(is_move as u64);
    }

    /// A caller makes a call, whatever it will answer. That is a move if something is wanting.
    #[inline]
    pub(crate) fn note_call(&mut self) {
        self.note_if(self.is_wanting);
    }

    /// A worker looks for work.
    #[inline]
    pub(crate) fn note_look(&mut self) {
        self.is_wanting = false;
    }

    /// A checkout, a commit or a quantum found no memory, or no room in the history, if so.
    #[inline]
    pub(crate) fn note_want(&mut self, is_wanting: bool) {
        self.is_wanting = self.is_wanting || is_wanting;
    }

    /// A quantum was committed. That is a move if it had steps.
    #[inline]
    pub(crate) fn note_commit(&mut self, has_steps: bool) {
        self.moves = self.moves.wrapping_add(has_steps as u64);
    }

    /// The quantum that was committed is a short one, whose worker goes on with the next one.
    #[inline]
    pub(crate) fn note_hurried(&mut self, has_steps: bool) {
        self.hurried = self.hurried.wrapping_add(has_steps as u64);
    }

    /// Tells the workers to end.
    pub(crate) fn stop(&mut self) {
        self.is_stopped = true;
        self.note_move();
    }

    /// Whether the workers are to end.
    #[inline]
    pub(crate) fn is_stopped(&self) -> bool {
        self.is_stopped
    }

    /// Whether one of this many workers, other than the one that asks, neither sleeps nor rests.
    pub(crate) fn has_helpers(&self, workers: u64) -> bool {
        u64::from(self.sleepers) + u64::from(self.resting) + 1 < workers
    }

    /// Whether nothing has moved since, and the workers are to go on.
    pub(crate) fn is_still(&self, seen: u64) -> bool {
        self.moves == seen && !self.is_stopped
    }

    /// A worker that found nothing looks before it sleeps, if the answer says so: not where another one does, nor where something has moved
    /// since.
    pub(crate) fn begin_look(&mut self, seen: u64) -> bool {
        let looks = !self.has_looker && self.is_still(seen);
        self.has_looker = self.has_looker || looks;
        looks
    }

    /// The worker that looked goes on, or is about to sleep.
    pub(crate) fn end_look(&mut self) {
        self.has_looker = false;
    }

    /// Whether a worker looks that is free for what moves next.
    #[inline]
    pub(crate) fn has_looker(&self) -> bool {
        self.has_looker
    }

    /// The same, for who has moved something: the worker that looks finds it, and is not free for what moves behind it.
    #[inline]
    pub(crate) fn take_looker(&mut self) -> bool {
        let had_looker = self.has_looker;
        self.has_looker = false;
        had_looker
    }

    /// Whether a worker may be asleep.
    #[inline]
    pub(crate) fn has_sleepers(&self) -> bool {
        self.sleepers != 0
    }

    /// A worker is about to sleep, and holds the lock until it does.
    pub(crate) fn begin_sleep(&mut self) {
        self.sleepers = self.sleepers.wrapping_add(1);
    }

    /// A worker that was about to sleep, or slept, has the lock again.
    pub(crate) fn end_sleep(&mut self) {
        self.sleepers = self.sleepers.wrapping_sub(1);
    }

    /// How often something other than short quanta has moved.
    pub(crate) fn eases(&self) -> u64 {
        self.moves.wrapping_sub(self.hurried)
    }

    /// Whether something other than short quanta has moved since, or the workers are to end.
    pub(crate) fn is_eased_since(&self, seen: u64) -> bool {
        self.is_stopped || self.eases() != seen
    }

    /// Whether a worker may rest.
    #[inline]
    pub(crate) fn has_resting(&self) -> bool {
        self.resting != 0
    }

    /// A worker is about to rest, and holds the lock until it does.
    pub(crate) fn begin_rest(&mut self) {
        self.resting = self.resting.wrapping_add(1);
    }

    /// A worker that was about to rest, or rested, has the lock again.
    pub(crate) fn end_rest(&mut self) {
        self.resting = self.resting.wrapping_sub(1);
    }

    /// A caller begins to look whether a turn has ended.
    pub(crate) fn begin_seek(&mut self) {
        self.seekers = self.seekers.wrapping_add(1);
    }

    /// The caller that looked goes on, or is about to sleep.
    pub(crate) fn end_seek(&mut self) {
        self.seekers = self.seekers.wrapping_sub(1);
    }

    /// A caller is about to sleep for the end of a turn, and holds the lock until it does.
    pub(crate) fn begin_watch(&mut self) {
        self.watchers = self.watchers.wrapping_add(1);
    }

    /// A caller that was about to sleep, or slept, has the lock again.
    pub(crate) fn end_watch(&mut self) {
        self.watchers = self.watchers.wrapping_sub(1);
    }

    /// Whether a caller waits for the end of a turn.
    #[inline]
    pub(crate) fn has_watchers(&self) -> bool {
        self.watchers != 0 || self.seekers != 0
    }

    /// Something has happened that callers wait for, if so.
    #[inline]
    pub(crate) fn note_news_if(&mut self, is_news: bool) {
        self.has_news = self.has_news || is_news;
    }

    /// Which callers that wait are to be told of something. They are told once.
    #[inline]
    pub(crate) fn take_news(&mut self) -> News {
        let is_told = self.has_news && self.has_watchers();
        self.has_news = false;
        News {
            is_told,
            wakes: is_told && self.watchers != 0,
        }
    }
}
