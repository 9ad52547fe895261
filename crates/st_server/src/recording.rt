//! The journal of a served image, which is written while sessions and workers go on.
//!
//! What has happened is read in short holds of the image's lock, and told and written outside of it: so nobody waits for the disk but
//! sessions whose replies are to be true after a crash. One thread at a time goes on with the journal.
ghost use Rattle.st_script.specs.Keepers.{IsFault, StaysOrFails};

use crate::admission::Admission;
use crate::progress::Progress;
use crate::readings::{Behind, Copied, CopyingBehind, Read};
use st_classes::refusals::Refusal;
use st_file::image_snapshots::ImageSnapshot;
use st_pool::naming::Naming;
use st_pool::shared::Shared;
use st_script::images::Mailbox;
use st_script::keepers::{JournalSettings, Keeper};
use std::alloc::{AllocError, Global};
use std::sync::atomic::{AtomicU64, Ordering};
use std::sync::{Condvar, CondvarTimeouts, Mutex, MutexGuard, Wait};
use std::thread::yield_now;
use std::time::{Clock, Duration, Instant};

/// How many items are copied in a hold at most, so that it is short.
const MOST_READ: usize = 128;

/// The same where an image is copied too: what has happened meanwhile is to be read whole.
const MOST_COPIED: usize = 1 << 16;

/// How often is read in a round at most. With so many readings all has been read that had happened when the round began: the history, and
/// those that checkpoints have emptied.
const READINGS: u32 = 1 << 18;

/// How often an image is copied to save it, until nothing has happened that the journal does not tell.
const COPIES: u32 = 16;

/// The least pause between two rounds of the journal's thread, in milliseconds. Where replies wait for the journal, sessions make rounds,
/// and the thread has only that to do which nobody waits for.
const LEAST_PAUSE: u32 = 10;

const PAUSE_BEHIND_REPLIES: u32 = 1000;

/// The pause between two looks whether the image is to be saved, in milliseconds.
const SAVING_PAUSE: u32 = 100;

/// How often a session whose replies wait looks whether a round that serves it has ended, or whether it can make one itself. Between the
/// first looks other threads may run, and between the others the session sleeps until a round has ended: to be woken by the one before
/// it, as those are that wait for a lock, takes longer than many disks.
const LOOKS_AWAKE: u32 = 64;

const LOOKS_BETWEEN_SLEEPS: u32 = 128;

/// For how long it sleeps between two looks at most, in milliseconds.
const MOMENT: u64 = 1;

/// How often who makes a round looks first whether as many sessions wait as the last round served. Between two looks other threads may run.
const LOOKS_FOR_OTHERS: u32 = 96;

/// For how long it does so at most, in microseconds.
const GATHERING: u64 = 200;

/// Whether who gathers others has done so for long.
fn has_passed<R: Clock>(rt: &R, began: &Option<Instant>) -> bool {
    let most = Duration::from_micros(GATHERING);
    match (began, Instant::now(rt)) {
        (Some(began), Ok(now)) => now.saturating_duration_since(*began) > most,
        _ => true,
    }
}

/// Why an image is not copied or saved: there was no memory, or the journal could not be written, whatever was in the way.
fn as_fault(refusal: Refusal) -> Refusal
    ensures { IsFault result }
{
    match refusal {
        Refusal::NoMemory => Refusal::NoMemory,
        _ => Refusal::WriteFault,
    }
}

/// Goes on with the journal of a served image, if there is one.
#[derive(Drop)]
pub struct Recorder<'a, K: Naming, S: Keeper> {
    shared: &'a Shared<K, Mailbox>,
    keeper: &'a S,
    /// How many rounds have begun.
    rounds: AtomicU64,
    /// The number of the last round that has ended, and has written all that had happened when it began.
    ended: AtomicU64,
    /// How many sessions have come to wait since the last round of a session began.
    arrived: AtomicU64,
    /// How many had come by then since the one before.
    served: AtomicU64,
    /// How many rounds of sessions have ended, and a sign for those who sleep until one has.
    round_ends: Mutex<u64>,
    round_ended: Condvar,
    progress: Mutex<Progress>,
    is_ended: Mutex<bool>,
    ending: Condvar,
}

impl<'a, K: Naming, S: Keeper> Recorder<'a, K, S> {
    /// Of the image that is shared, which has counted so many steps, the keeper's journal has so many names and items, if there is one.
    pub fn new(
        alloc: Global,
        shared: &'a Shared<K, Mailbox>,
        keeper: &'a S,
        names: u32,
        items: usize,
        steps: u64,
    ) -> Recorder<'a, K, S> {
        Recorder {
            shared,
            keeper,
            rounds: AtomicU64::new(0),
            ended: AtomicU64::new(0),
            arrived: AtomicU64::new(0),
            served: AtomicU64::new(0),
            round_ends: Mutex::new(0),
            round_ended: Condvar::new(),
            progress: Mutex::new(Progress::new(alloc, names, items, steps)),
            is_ended: Mutex::new(false),
            ending: Condvar::new(),
        }
    }

    /// Whether there is a journal.
    pub(crate) fn is_kept(&self) -> bool {
        self.keeper.journal().is_some()
    }

    /// Waits for the right to go on with the journal.
    pub(crate) fn lock<R: Wait>(&self, rt: &R) -> MutexGuard<'_, Progress> {
        self.progress.lock(rt)
    }

    /// Tells some of what has happened. The answer is whether there may be more.
    fn tell_some<R: Wait>(
        &self,
        rt: &R,
        alloc: Global,
        progress: &mut Progress,
    ) -> Result<bool, Refusal> {
        if let Some(past) = progress.past.take() {
            let told = progress.tell_past(alloc, &past);
            match told {
                Ok(true) => {}
                _ => progress.past = Some(past),
            }
            return match told {
                Ok(_) => Ok(true),
                Err(refusal) => Err(refusal),
            };
        }
        let behind = progress.behind(MOST_READ);
        let read = self.shared.read(rt, alloc, behind)?;
        self.take_in(alloc, progress, read)
    }

    /// Tells what was read of the present history, or keeps what was read of an earlier one. The answer is whether there may be more.
    fn take_in(&self, alloc: Global, progress: &mut Progress, read: Read) -> Result<bool, Refusal> {
        progress.steps = read.steps;
        if read.is_past {
            progress.past = Some(read);
            return Ok(true);
        }
        progress.tell_present(alloc, &read)?;
        Ok(read.is_left)
    }

    /// Tells all that has happened until now, and has it written where it is much. After an error some of it is told.
    fn tell_all<R: Wait>(
        &self,
        rt: &R,
        alloc: Global,
        progress: &mut Progress,
    ) -> Result<(), Refusal> {
        for _ in 0..READINGS {
            if progress.batch.is_much() {
                progress.batch.write(alloc, self.keeper)?;
            }
            if !self.tell_some(rt, alloc, progress)? {
                return Ok(());
            }
        }
        Ok(())
    }

    /// Tells and writes all that has happened until now. After an error some of it is, and the next round goes on from there.
    fn round<R: Wait>(
        &self,
        rt: &R,
        alloc: Global,
        progress: &mut Progress,
    ) -> Result<(), Refusal> {
        let number = self.rounds.fetch_add(1, Ordering::SeqCst).wrapping_add(1);
        self.tell_all(rt, alloc, progress)?;
        progress.batch.write(alloc, self.keeper)?;
        self.ended.store(number, Ordering::SeqCst);
        Ok(())
    }

    /// A round, and behind it what has happened meanwhile is told, and not written: so a hold that follows finds little more.
    pub(crate) fn round_before_copying<R: Wait>(
        &self,
        rt: &R,
        alloc: Global,
        progress: &mut Progress,
    ) -> Result<(), Refusal> {
        self.round(rt, alloc, progress)?;
        self.tell_all(rt, alloc, progress)
    }

    /// Whether a round has ended that began when so many rounds had begun before it, or more.
    fn has_ended_since(&self, begun: u64) -> bool {
        self.ended.load(Ordering::SeqCst) > begun
    }

    /// Lets sessions come first, as many as the last round served: they are back soon, mostly, and then one round serves them all. It waits
    /// for no more than a moment, nor if the clock cannot be read.
    fn gather<R: Clock>(&self, rt: &R) {
        let served = self.served.load(Ordering::SeqCst);
        let began = Instant::now(rt).ok();
        for _ in 0..LOOKS_FOR_OTHERS {
            if self.arrived.load(Ordering::SeqCst) >= served || has_passed(rt, &began) {
                break;
            }
            yield_now();
        }
        let arrived = self.arrived.swap(0, Ordering::SeqCst);
        self.served.store(arrived, Ordering::SeqCst);
    }

    /// A round of a session, for all that wait, unless one has ended that serves it.
    fn round_for_all<R: Wait + Clock>(
        &self,
        rt: &R,
        alloc: Global,
        begun: u64,
        mut progress: MutexGuard<'_, Progress>,
    ) -> Result<(), Refusal> {
        if self.has_ended_since(begun) {
            return Ok(());
        }
        self.gather(rt);
        let made = self.round(rt, alloc, &mut progress);
        drop(progress);
        let mut ends = self.round_ends.lock(rt);
        *ends = ends.wrapping_add(1);
        drop(ends);
        self.round_ended.notify_all();
        made
    }

    /// The same where nobody else goes on with the journal; else none, if no round has ended that serves it.
    fn try_round<R: Wait + Clock>(
        &self,
        rt: &R,
        alloc: Global,
        begun: u64,
    ) -> Option<Result<(), Refusal>> {
        if self.has_ended_since(begun) {
            return Some(Ok(()));
        }
        match self.progress.try_lock() {
            Some(progress) => Some(self.round_for_all(rt, alloc, begun, progress)),
            None => None,
        }
    }

    /// How many rounds of sessions have ended.
    fn ends<R: Wait>(&self, rt: &R) -> u64 {
        *self.round_ends.lock(rt)
    }

    /// Sleeps until one more has ended, or for a moment.
    fn sleep_past<R: Wait + Clock>(&self, rt: &R, seen: u64) {
        let before = self.round_ends.lock(rt);
        let most = Duration::from_millis(MOMENT);
        let _ = self
            .round_ended
            .wait_timeout_while(rt, before, most, |ends| *ends == seen);
    }

    /// Waits until a round has ended that began by now or later. Sessions that wait together share one, which one of them makes.
    fn wait_for_round<R: Wait + Clock>(&self, rt: &R, alloc: Global) -> Result<(), Refusal> {
        let begun = self.rounds.load(Ordering::SeqCst);
        for _ in 0..LOOKS_AWAKE {
            if let Some(reached) = self.try_round(rt, alloc, begun) {
                return reached;
            }
            yield_now();
        }
        for _ in 0..LOOKS_BETWEEN_SLEEPS {
            let seen = self.ends(rt);
            if let Some(reached) = self.try_round(rt, alloc, begun) {
                return reached;
            }
            self.sleep_past(rt, seen);
        }
        let progress = self.progress.lock(rt);
        self.round_for_all(rt, alloc, begun, progress)
    }

    /// Waits until all that has happened until now is on the disk, if replies wait for that.
    pub(crate) fn reach<R: Wait + Clock>(&self, rt: &R, alloc: Global) -> Result<(), Refusal> {
        match self.keeper.journal() {
            Some(settings) if settings.pause == 0 => {}
            _ => return Ok(()),
        }
        self.arrived.fetch_add(1, Ordering::SeqCst);
        self.wait_for_round(rt, alloc)
    }

    /// What is to be read in the hold in which an image is copied.
    pub(crate) fn behind(&self, progress: &Progress) -> Behind {
        progress.behind(MOST_COPIED)
    }

    /// Writes what was read in a hold behind a round, in which an image was copied. The answer is what was copied, and where the journal
    /// ends that tells all that led there; none where more had happened than was read.
    pub(crate) fn write_copied(
        &self,
        alloc: Global,
        progress: &mut Progress,
        told: Result<(), Refusal>,
        copied: Copied,
    ) -> (Result<ImageSnapshot, Refusal>, Option<u64>)
        ensures { StaysOrFails copied.0 result.0 }
    {
        let (snapshot, read) = copied;
        match self.write_read(alloc, progress, told, read) {
            Ok(end) => (snapshot, end),
            Err(refusal) => (Err(as_fault(refusal)), Some(0)),
        }
    }

    /// Writes what was read behind a round. The answer is where the journal ends, or none where more had happened.
    fn write_read(
        &self,
        alloc: Global,
        progress: &mut Progress,
        told: Result<(), Refusal>,
        read: Result<Read, AllocError>,
    ) -> Result<Option<u64>, Refusal> {
        let read = read?;
        if read.is_past {
            // It was taken, and nobody else has it.
            progress.past = Some(read);
            told?;
            return Ok(None);
        }
        told?;
        if self.take_in(alloc, progress, read)? {
            return Ok(None);
        }
        progress.batch.write(alloc, self.keeper)?;
        Ok(Some(self.keeper.end()))
    }

    /// Ends [`Recorder::go_on`].
    pub(crate) fn end<R: Wait>(&self, rt: &R) {
        *self.is_ended.lock(rt) = true;
        self.ending.notify_all();
    }

    /// Waits so many milliseconds, or until the end. The answer is whether it is the end.
    fn pause<R: Wait + Clock>(&self, rt: &R, pause: u32) -> bool {
        let before = self.is_ended.lock(rt);
        let most = Duration::from_millis(u64::from(pause));
        let (behind, _) = self
            .ending
            .wait_timeout_while(rt, before, most, |is_ended| !*is_ended);
        *behind
    }

    /// Writes what has happened now and then, until the end. Why that cannot be is told by the keeper.
    pub(crate) fn go_on<R: Wait + Clock>(&self, rt: &R, alloc: Global) {
        let Some(settings) = self.keeper.journal() else {
            return;
        };
        let pause = match settings.pause {
            0 => PAUSE_BEHIND_REPLIES,
            pause => pause.max(LEAST_PAUSE),
        };
        for _ in rt.forever() {
            if self.pause(rt, pause) {
                return;
            }
            self.write_all(rt, alloc);
        }
    }

    /// Saves the image where much has happened, until the end. Why that cannot be is told by the keeper.
    pub(crate) fn go_on_saving<R: Wait + Clock>(
        &self,
        rt: &R,
        alloc: Global,
        admission: &Admission,
    ) {
        let Some(settings) = self.keeper.journal() else {
            return;
        };
        self.progress.lock(rt).wait_for_more(0, settings);
        for _ in rt.forever() {
            if self.pause(rt, SAVING_PAUSE) {
                return;
            }
            if self.is_due(rt) {
                self.save(rt, alloc, admission, settings);
            }
        }
    }

    /// Writes all that has happened until now, if there is a journal. Why that cannot be is told by the keeper.
    pub(crate) fn write_all<R: Wait>(&self, rt: &R, alloc: Global) {
        if !self.is_kept() {
            return;
        }
        let mut progress = self.progress.lock(rt);
        let _ = self.round(rt, alloc, &mut progress);
        drop(progress);
        self.keeper.report_error();
    }

    /// Whether the image is to be saved, since much has happened.
    fn is_due<R: Wait>(&self, rt: &R) -> bool {
        let progress = self.progress.lock(rt);
        progress.is_due(self.keeper.end())
    }

    /// What the image is now, and where the journal ends that tells all that led there.
    fn copy<R: Wait>(&self, rt: &R, alloc: Global) -> Result<(ImageSnapshot, u64), Refusal> {
        let mut progress = self.progress.lock(rt);
        for _ in 0..COPIES {
            let told = self.round_before_copying(rt, alloc, &mut progress);
            let behind = self.behind(&progress);
            let copied = self.shared.read(rt, alloc, CopyingBehind { behind });
            let (snapshot, read) = copied;
            let end = self.write_read(alloc, &mut progress, told, read)?;
            let snapshot = snapshot?;
            if let Some(end) = end {
                return Ok((snapshot, end));
            }
        }
        Err(Refusal::NoMemory)
    }

    /// Has the image written and kept.
    fn keep<R: Wait>(&self, rt: &R, alloc: Global) -> Result<(), Refusal> {
        let (snapshot, from) = self.copy(rt, alloc)?;
        self.keeper.write(alloc, &snapshot)?;
        let progress = self.progress.lock(rt);
        let replaced = self.keeper.replace(alloc, from);
        drop(progress);
        replaced
    }

    /// Saves the image, as a session does. Whether it is saved or not, it is saved next when much more has happened.
    fn save<R: Wait>(
        &self,
        rt: &R,
        alloc: Global,
        admission: &Admission,
        settings: JournalSettings,
    ) {
        let admitted = admission.save(rt);
        let _ = self.keep(rt, alloc);
        let mut progress = self.progress.lock(rt);
        progress.wait_for_more(self.keeper.end(), settings);
        drop(progress);
        drop(admitted);
        self.keeper.report_error();
    }
}
