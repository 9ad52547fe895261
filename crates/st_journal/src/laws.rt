//! Laws of journals.
ghost use Rattle.std.specs.Prelude.{List, ℕ};
ghost use Rattle.st_journal.specs.Alike.{StayAlike, WorldsBeginFew};
ghost use Rattle.st_journal.specs.Crashes.{CrashLeadsBack, CrashesLeadBack, LinesLeadBack};
ghost use Rattle.st_journal.specs.EntryForms.{EntriesAreRead, ToldIsText, ToldLater};
ghost use Rattle.st_journal.specs.EntryTexts.{ReadingLeads, ReadsOne, ToldIsRead};
ghost use Rattle.st_journal.specs.Recovery.{ComesToTheImage, RedoneGoesOn, RedoneIsWhatWasTold, TellingTells};
ghost use Rattle.st_journal.specs.Saved.{SavesKeep};
ghost use Rattle.st_journal.specs.Telling.{TellingGoesOn};
ghost use Rattle.st_log.specs.Lines.{HasFirst};
ghost use Rattle.st_log.specs.Logs.{HasOldLines};

use st_log::device::Device;
use st_reader::reader::one_reading;

/// Entries that tell what happened lead to the very world and names to which that led, if they are done again from where it began. So an
/// image that does again what tells another one's history comes to that one's names and world, and its counts go on as that one's did. No
/// claim stays out that was taken for an entry. What `tell_since` tells is such.
pub fn redone_is_what_was_told()
    ensures telling { TellingTells }
    ensures redone { RedoneIsWhatWasTold }
    ensures beside { RedoneGoesOn }
    ensures image { ComesToTheImage }
{
    one_reading();
}

/// While a save replaces an image and its journal, each state of the disk leads to the same world, or to that world as if a checkpoint
/// had been made where the save was taken. The journal that goes on from the new image is written first, under another name; then the
/// new image replaces the old one; then that journal replaces the old one.
pub fn saves_keep()
    ensures { SavesKeep }
{}

/// A checkpoint in between changes nothing that happens afterwards: from worlds that are the same but for the numbers of turns and the
/// outcomes of earlier ones, the same items and checkpoints lead to such worlds. In each of them no actor has begun more than it accepted;
/// so it is in each world that a lawful image comes to.
pub fn stay_alike()
    ensures alike { StayAlike }
    ensures few { WorldsBeginFew }
{}

/// What an entry is as a JSON value, by names and a class table, tells this very entry by them, if it can be told: its classes and
/// selectors are there, its texts are UTF-8, and its numbers are within bounds.
#[tactic(auto, using(crate::proofs::EntriesRead::entries_are_read))]
pub fn entries_are_read()
    ensures { EntriesAreRead }
{}

/// An entry has the same JSON value, and so the same line, by all names and edits that came later. So what happened may be told at the end,
/// by the names and the class table that there are then.
#[tactic(auto, using(crate::proofs::LaterTables::told_later))]
pub fn told_later()
    ensures { ToldLater }
{}

/// The entries that lines say lead where the lines lead.
#[tactic(auto, using(crate::proofs::SaidLines::reading_leads))]
pub fn reading_leads()
    ensures { ReadingLeads }
{}

/// What tells entries, line by line, is a text whose lines say these entries; and the lines of a text say one list of entries at an image,
/// which leads to one list of names and one world. So a text that was told is done again as the very entries that it tells.
pub fn texts_say_one()
    ensures told { ToldIsRead }
    ensures one { ReadsOne }
{
    one_reading();
}

/// The texts of the entries that tell an image's names and its history are UTF-8, as [`crate::lines::line_of`] wants them.
#[tactic(auto, using(crate::proofs::ToldTexts::told_is_text))]
pub fn told_is_text()
    ensures { ToldIsText }
{}

/// What is told of an image from time to time, line by line, tells what happened to it: the names, the items and the checkpoints that came
/// since, as [`crate::telling::tell_since`] tells them and [`crate::lines::write_lines`] writes them, also if more has happened by then.
/// What is asked holds of an image: that they led on from where the lines before had come, that the names are a table's and the methods are
/// sound and compiled from their sources, that numbers are within the bounds of their types, and that the lines could be written.
#[tactic(auto, using(crate::proofs::ToldOn::telling_goes_on))]
pub fn telling_goes_on()
    ensures { TellingGoesOn }
{}

/// Lines that tell what happened, done again from where it began, lead to the very names and the very world to which that led; each line
/// says its entry by the names and the class table that there were when it happened. So whatever a crash leaves of a journal while batches
/// are added to it, what is read of it leads to where the lines so far led, with those of some first batches and no others; with one batch,
/// all of it or nothing. It is read if [`crate::redoing::lines::redo_text`] takes it, and no clause says that it does.
pub fn crashes_lead_back()
    ensures lines { LinesLeadBack }
    ensures batches { CrashesLeadBack }
    ensures batch { CrashLeadsBack }
{
    one_reading();
}

/// Recovery may crash too: where what is read of a device, and all that a crash could leave of it, has the lines so far and those of some
/// first batches, so has all that a crash leaves of the recovery (`any_moment` of [`st_log::logs::Log::recover`]).
pub fn recoveries_keep<D: Device>(device: &D, old: &[u8], batches: &[Vec<u8>])
    requires read { HasFirst old.now batches.now (D.contents device.now) }
    requires left { (c : List ℕ) → D.may_leave device.now c → HasFirst old.now batches.now c }
    ensures { (text : List ℕ) → HasOldLines D.contents D.may_leave device.now text → HasFirst old.now batches.now text }
{}
