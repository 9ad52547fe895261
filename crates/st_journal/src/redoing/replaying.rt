//! How an image does the beginning of a journal's text again.
ghost use Rattle.std.specs.Prelude.{◌≡◌, ◌≤◌, ◌⊎◌, Some, IfErr, IfOk, OnOk};
ghost use Rattle.st_image.specs.Images.{world};
ghost use Rattle.st_image.specs.KeptEdits.{KeepsBeginning};
ghost use Rattle.st_journal.specs.declared.entries.Entry.TheVariants as entry;
ghost use Rattle.st_journal.specs.Entries.{Leads};
ghost use Rattle.st_journal.specs.EntryTexts.{RefusesLine, StopsAtLine, lines_of};
ghost use Rattle.st_journal.specs.Replays.{DoesOrLeaves, Replays, StandsAt, TakesSome};

use crate::entries::Entry;
use crate::redo_error::{LineError, RedoError, RefusedLine};
use crate::redoing::lines::{entry_of, first_line};
use crate::redoing::redo_next;
use st_classes::values::ActorId;
use st_guard::guard::Guard;
use st_image::image::Image;
use st_mailbox::mailboxes::Mailbox;
use st_turn::worker::Worker;
use std::alloc::Global;

/// How much of a text is done again.
#[derive(Clone, Copy)]
pub enum Until {
    /// All of it.
    End,
    /// So many lines, or all if there are fewer.
    Line(usize),
    /// All that happened until the image had counted so many steps and took the next one.
    Step(u64),
}

/// Where a text was left.
#[derive(Drop)]
pub struct Stopped {
    /// How many lines were done.
    pub done: usize,
    /// The entry of the line behind them, if there is one.
    pub next: Option<Entry>,
}

/// Why the beginning of a text is not done again.
#[derive(Clone, Copy, PartialEq, Eq, Debug)]
pub enum ReplayError {
    /// A line is refused.
    Line(RefusedLine),
    /// No commit ends with so many steps: the image takes the next one with the last of these.
    WithinCommit,
    /// The steps of the last line are not taken again.
    Redo(RedoError),
}

impl Until {
    /// Whether an entry lies behind, where so many lines are done and so many steps are counted.
    fn is_before(self, done: usize, counted: u64, entry: &Entry) -> bool {
        match (self, entry) {
            (Until::End, _) => false,
            (Until::Line(lines), _) => done >= lines,
            (Until::Step(step), Entry::Ran { steps, .. }) => {
                counted.saturating_add(u64::from(*steps)) > step
            }
            (Until::Step(_), _) => false,
        }
    }

    /// How many of so many steps are wanted, where others are counted.
    fn wanted(self, counted: u64, steps: u32) -> u32
        ensures { result ≤ steps }
    {
        match self {
            Until::Step(step) => step.saturating_sub(counted).min(u64::from(steps)) as u32,
            _ => 0,
        }
    }
}

/// Does the entry that a line says again, unless it lies behind: then nothing is done, and the answer is that entry.
fn redo_unless<M: Mailbox, G: Guard>(
    alloc: Global,
    image: &mut Image<M>,
    worker: &mut Worker<G>,
    line: &[u8],
    done: usize,
    until: Until,
) -> Result<Option<Entry>, LineError>
    requires { KeepsBeginning (world image.old).edits worker.old }
    ensures ok { IfOk result (λ next. DoesOrLeaves image.old line.now next image.new) }
    ensures err { IfErr result (λ e. RefusesLine image.old line.now e) }
    ensures kept { OnOk result (KeepsBeginning (world image.new).edits worker.new) }
{
    let entry = entry_of(alloc, image, line)?;
    if until.is_before(done, image.counted().steps, &entry) {
        return Ok(Some(entry));
    }
    match redo_next(alloc, image, worker, &entry) {
        Ok(()) => Ok(None),
        Err(error) => Err(LineError::Redo(error)),
    }
}

/// Does the entries that the first lines of a text say again, one after the other. Where it fails, the lines before the one that is refused
/// were done, and the image is to be dropped.
fn redo_until<M: Mailbox, G: Guard>(
    alloc: Global,
    image: &mut Image<M>,
    worker: &mut Worker<G>,
    text: &[u8],
    until: Until,
) -> Result<Stopped, RefusedLine>
    requires { KeepsBeginning (world image.old).edits worker.old }
    ensures ok { IfOk result (λ s. StandsAt image.old (lines_of text.now) s.done s.next image.new) }
    ensures err { IfErr result (λ r. StopsAtLine image.old (lines_of text.now) r) }
    ensures kept { OnOk result (KeepsBeginning (world image.new).edits worker.new) }
{
    let mut done = 0;
    let mut rest = text;
    while !rest.is_empty() {
        let (line, behind) = first_line(rest);
        let next = match redo_unless(alloc, image, worker, line, done, until) {
            Ok(next) => next,
            Err(error) => return Err(RefusedLine { place: done, error }),
        };
        if next.is_some() {
            return Ok(Stopped { done, next });
        }
        done += 1;
        image.known();
        rest = behind;
    }
    Ok(Stopped { done, next: None })
}

/// Takes the first steps of a commit again, or none.
fn run_some<M: Mailbox, G: Guard>(
    alloc: Global,
    image: &mut Image<M>,
    worker: &mut Worker<G>,
    actor: ActorId,
    steps: u32,
) -> Result<(), ReplayError>
    requires { KeepsBeginning (world image.old).edits worker.old }
    ensures { OnOk result ((image.new ≡ image.old) ⊎ Leads image.old (entry.Ran actor steps) image.new) }
{
    if steps == 0 {
        return Ok(());
    }
    match redo_next(alloc, image, worker, &Entry::Ran { actor, steps }) {
        Ok(()) => Ok(()),
        Err(RedoError::OtherSteps) => Err(ReplayError::WithinCommit),
        Err(error) => Err(ReplayError::Redo(error)),
    }
}

/// Takes some first steps of those that an entry tells, if any of them are wanted.
fn run_part<M: Mailbox, G: Guard>(
    alloc: Global,
    image: &mut Image<M>,
    worker: &mut Worker<G>,
    next: &Option<Entry>,
    until: Until,
) -> Result<(), ReplayError>
    requires { KeepsBeginning (world image.old).edits worker.old }
    ensures { OnOk result (TakesSome image.old next.now image.new) }
{
    match next {
        Some(Entry::Ran { actor, steps }) => {
            let wanted = until.wanted(image.counted().steps, *steps);
            run_some(alloc, image, worker, *actor, wanted)
        }
        _ => Ok(()),
    }
}

/// Does the beginning of a text again: the entries that its first lines say, and where a number of steps is wanted, as many of the first
/// steps of the line behind them.
///
/// The answer is how many lines were done whole. After an error the image is to be dropped. What the worker had found before is forgotten.
#[tactic(auto, using(st_image::proofs::Following::kept_none))]
pub fn replay<M: Mailbox, G: Guard>(
    alloc: Global,
    image: &mut Image<M>,
    worker: &mut Worker<G>,
    text: &[u8],
    until: Until,
) -> Result<usize, ReplayError>
    ensures { IfOk result (λ n. Replays image.old (lines_of text.now) n image.new) }
{
    worker.forget();
    let stopped = match redo_until(alloc, image, worker, text, until) {
        Ok(stopped) => stopped,
        Err(refused) => return Err(ReplayError::Line(refused)),
    };
    run_part(alloc, image, worker, &stopped.next, until)?;
    Ok(stopped.done)
}
