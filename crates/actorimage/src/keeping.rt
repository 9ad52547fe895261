//! The file in which a run keeps its image.
ghost use Rattle.std.specs.Prelude.{IfOk, Ok};
ghost use Rattle.st_script.specs.Keepers.{IsFault, Keeps};

use crate::noting::Noted;
use st_classes::refusals::Refusal;
use st_disk::failures::Failure;
use st_disk::journals::Journal;
use st_disk::new_files::{NewFile, hold, hold_beside};
use st_disk::stamps::Stamp;
use st_file::image_snapshots::ImageSnapshot;
use st_script::images::Image;
use st_script::keepers::{JournalSettings, JournalWriter, Keeper};
use st_wire::names::refusal_name;
use std::alloc::Global;
use std::fs::{File, Files};
use std::sync::Mutex;
use std::sync::atomic::{AtomicBool, Ordering};

/// An image that is written to the new file, and has not taken its file's place.
#[derive(Drop)]
struct Ready {
    new: NewFile,
    digest: String,
}

/// What a run has of its image's file between two saves.
#[derive(Drop)]
struct Held {
    /// The new file, if it is held.
    new: Option<NewFile>,
    /// The new file, if an image was written to it.
    ready: Option<Ready>,
    /// The path of the file, once a new one was held beside it. A link that led there may lead elsewhere since.
    place: Option<String>,
    /// What this run has seen of the file: at its start, and after each save.
    seen: Option<Stamp>,
    /// The file that it has loaded or saved last. If it is locked, it stays so while it is open.
    last: Option<File>,
    /// The digest of the text that it has saved last.
    digest: Option<String>,
}

impl Held {
    /// Takes the new file, or holds one.
    fn taken<R: Files<File = File>>(
        &mut self,
        rt: &R,
        alloc: Global,
        path: &str,
    ) -> Result<NewFile, Failure> {
        if let Some(new) = self.new.take() {
            return Ok(new);
        }
        match &self.place {
            Some(place) => match String::from_str(alloc, place.as_str()) {
                Ok(place) => hold_beside(rt, alloc, place),
                Err(_) => Err(Failure::from(Refusal::NoMemory)),
            },
            None => hold(rt, alloc, path),
        }
    }

    /// The new file, and where the file is beside which it lies.
    fn placed<R: Files<File = File>>(
        &mut self,
        rt: &R,
        alloc: Global,
        path: &str,
    ) -> Result<NewFile, Failure> {
        let new = self.taken(rt, alloc, path)?;
        match new.place(alloc) {
            Ok(place) => {
                self.place = Some(place);
                Ok(new)
            }
            Err(refusal) => {
                new.remove(rt);
                Err(Failure::from(refusal))
            }
        }
    }

    /// Writes an image beside the file at a path.
    fn write<R: Files<File = File>>(
        &mut self,
        rt: &R,
        alloc: Global,
        path: &str,
        snapshot: &ImageSnapshot,
    ) -> Result<u64, Failure>
        ensures { IfOk result (λ n. Keeps snapshot.now (Ok n)) }
    {
        let mut new = self.placed(rt, alloc, path)?;
        match new.write(rt, alloc, snapshot) {
            Ok((bytes, digest)) => {
                self.ready = Some(Ready { new, digest });
                Ok(bytes)
            }
            Err(failure) => {
                self.new = self.taken(rt, alloc, path).ok();
                Err(failure)
            }
        }
    }

    /// Moves the image that was written into the file's place, and lets the journal go on from it behind so many bytes. If it is not the
    /// last, another new file is held then for the next.
    fn replace<R: Files<File = File>>(
        &mut self,
        rt: &R,
        alloc: Global,
        path: &str,
        journal: &mut Option<Journal>,
        from: u64,
        is_last: bool,
    ) -> Result<(), Failure> {
        let Some(ready) = self.ready.take() else {
            return Err(Failure::from(Refusal::WriteFault));
        };
        let replaced = self.replace_file(rt, alloc, ready, journal, from, is_last);
        if !is_last {
            self.new = self.taken(rt, alloc, path).ok();
        }
        replaced
    }

    /// The same, without a new file for the next.
    fn replace_file<R: Files<File = File>>(
        &mut self,
        rt: &R,
        alloc: Global,
        ready: Ready,
        journal: &mut Option<Journal>,
        from: u64,
        is_last: bool,
    ) -> Result<(), Failure> {
        let Ready { new, digest } = ready;
        if let Some(journal) = journal {
            if let Err(failure) = journal.write_new(rt, alloc, digest.as_str(), from) {
                return Err(new.kept_for(rt, alloc, is_last, failure));
            }
        }
        let unsure = new.take_place(rt, alloc, self.seen, is_last)?;
        let file = new.into_file();
        self.seen = match file.metadata() {
            Ok(found) => Some(Stamp::of(&found)),
            Err(_) => None,
        };
        self.last = Some(file);
        self.digest = Some(digest);
        if let Some(failure) = unsure {
            if let Some(journal) = journal {
                journal.doubt();
            }
            return Err(failure);
        }
        match journal {
            Some(journal) => journal.take_place(rt, alloc),
            None => Ok(()),
        }
    }
}

/// Keeps the image of a run in a file, if there is a place for it. One save is made at a time: whoever comes meanwhile is refused. The
/// runtime is that of the program, so that a session's thread can use it for files.
#[derive(Drop)]
pub struct FileKeeper<'a> {
    rt: &'a HostRuntime,
    path: Option<&'a str>,
    held: Mutex<Held>,
    journal: Mutex<Option<Journal>>,
    /// How the journal is kept, if there is one.
    settings: Option<JournalSettings>,
    /// What a script has led to, if its journal tells that.
    noted: Mutex<Option<Noted>>,
    /// What is to be said of the last save or of the journal, if that was not said yet.
    news: Mutex<Option<String>>,
    /// Whether somebody says that.
    is_telling: AtomicBool,
    /// Whether the journal could not be written last: that is said once, and once that it is written again.
    is_unwritten: AtomicBool,
}

/// The refusal of a save: that there was no memory, or that the file could not be written, whatever was in the way.
fn refused(refusal: Refusal) -> Refusal
    ensures { IsFault result }
{
    match refusal {
        Refusal::NoMemory => Refusal::NoMemory,
        _ => Refusal::WriteFault,
    }
}

/// What has failed, and why, in words.
fn words_of(alloc: Global, what: &str, failure: &Failure) -> Option<String> {
    let why = match &failure.words {
        Some(words) => words.as_str(),
        None => refusal_name(failure.refusal),
    };
    format!(in alloc; "{what}: {why}").ok()
}

/// How it begins what is said of a save and of a journal.
const NOT_SAVED: &str = "the image is not saved";

const NOT_WRITTEN: &str = "the journal is not written";

impl<'a> FileKeeper<'a> {
    /// One that keeps the image at a path, if one is given. `new` is the new file beside it, if it is held, `seen` what was seen of the
    /// file, and `loaded` the file itself, if it was there.
    pub fn new(
        rt: &'a HostRuntime,
        path: Option<&'a str>,
        new: Option<NewFile>,
        seen: Option<Stamp>,
        loaded: Option<File>,
    ) -> FileKeeper<'a> {
        FileKeeper {
            rt,
            path,
            held: Mutex::new(Held {
                new,
                ready: None,
                place: None,
                seen,
                last: loaded,
                digest: None,
            }),
            journal: Mutex::new(None),
            settings: None,
            noted: Mutex::new(None),
            news: Mutex::new(None),
            is_telling: AtomicBool::new(false),
            is_unwritten: AtomicBool::new(false),
        }
    }

    /// Writes an image beside the file at a path, unless somebody else does.
    fn write_at(&self, alloc: Global, path: &str, snapshot: &ImageSnapshot) -> Result<u64, Failure>
        ensures { IfOk result (λ n. Keeps snapshot.now (Ok n)) }
    {
        match self.held.try_lock() {
            Some(mut held) => held.write(self.rt, alloc, path, snapshot),
            None => Err(Failure::from(Refusal::WriteFault)),
        }
    }

    /// Moves the image that was written into the place of the file at a path, unless somebody else does.
    fn replace_at(
        &self,
        alloc: Global,
        path: &str,
        from: u64,
        is_last: bool,
    ) -> Result<(), Failure> {
        let (Some(mut held), Some(mut journal)) = (self.held.try_lock(), self.journal.try_lock())
        else {
            return Err(Failure::from(Refusal::WriteFault));
        };
        held.replace(self.rt, alloc, path, &mut journal, from, is_last)
    }

    /// Saves an image in the file at a path. What its journal tells led to it.
    fn save(
        &self,
        alloc: Global,
        path: &str,
        snapshot: &ImageSnapshot,
        is_last: bool,
    ) -> Result<(), Failure> {
        self.write_at(alloc, path, snapshot)?;
        self.replace_at(alloc, path, self.end(), is_last)
    }

    /// Saves the image at the end of a run. It is let go before its text is written. Then its journal is removed, if there is one.
    pub fn finish(&self, alloc: Global, image: Image) -> Result<(), Failure> {
        let Some(path) = self.path else {
            drop(image);
            return Ok(());
        };
        let snapshot = ImageSnapshot::of(alloc, &image);
        drop(image);
        match snapshot {
            Ok(snapshot) => match self.save(alloc, path, &snapshot, true) {
                Ok(()) => {
                    self.remove_journal();
                    Ok(())
                }
                Err(failure) => {
                    self.leave();
                    Err(failure)
                }
            },
            Err(_) => {
                self.leave();
                Err(Failure::from(Refusal::NoMemory))
            }
        }
    }

    /// Removes the journal, if there is one: it tells nothing that is not in the image.
    fn remove_journal(&self) {
        if let Some(mut journal) = self.journal.try_lock() {
            if let Some(journal) = journal.take() {
                journal.remove(self.rt);
            }
        }
    }

    /// Saves the image with which a run begins. The answer is the digest of its text.
    pub fn save_first(&self, alloc: Global, image: &Image) -> Result<String, Failure> {
        let Some(path) = self.path else {
            return Err(Failure::from(Refusal::BadArguments));
        };
        let snapshot = ImageSnapshot::of(alloc, image)?;
        self.save(alloc, path, &snapshot, false)?;
        let digest = match self.held.try_lock() {
            Some(mut held) => held.digest.take(),
            None => None,
        };
        match digest {
            Some(digest) => Ok(digest),
            None => Err(Failure::from(Refusal::WriteFault)),
        }
    }

    /// From now on what happens is told in a journal, which is kept so.
    pub fn with_journal(self, journal: Journal, settings: JournalSettings) -> FileKeeper<'a> {
        let FileKeeper {
            rt,
            path,
            held,
            journal: _,
            settings: _,
            noted,
            news,
            is_telling,
            is_unwritten,
        } = self;
        FileKeeper {
            rt,
            path,
            held,
            journal: Mutex::new(Some(journal)),
            settings: Some(settings),
            noted,
            news,
            is_telling,
            is_unwritten,
        }
    }

    /// From now on what the commands of a script lead to is told in the journal. All that there is of the image is told there.
    pub fn begin_noting(&self, alloc: Global, image: &Image) {
        if let Some(mut noted) = self.noted.try_lock() {
            *noted = Some(Noted::new(alloc, image));
        }
    }

    /// Has what was noted written to the journal. It is on the disk then.
    pub fn write_noted(&self, alloc: Global) -> Result<(), Refusal> {
        let Some(mut noted) = self.noted.try_lock() else {
            return Err(Refusal::WriteFault);
        };
        match &mut *noted {
            Some(noted) => noted.write(alloc, self),
            None => Ok(()),
        }
    }

    /// Ends a run without saving: the new file is removed, if it is held.
    pub fn leave(&self) {
        if let Some(held) = self.held.try_lock() {
            if let Some(new) = &held.new {
                new.remove(self.rt);
            }
        }
    }

    /// Keeps what is to be said for who asks next.
    fn note_news(&self, words: Option<String>) {
        if let Some(mut news) = self.news.try_lock() {
            *news = words;
        }
    }

    /// What a failure is to sessions. What has failed and why is kept for who asks next.
    fn refusal_of(&self, alloc: Global, what: &str, failure: Failure) -> Refusal
        ensures { IsFault result }
    {
        self.note_news(words_of(alloc, what, &failure));
        refused(failure.refusal)
    }
}

impl<'a> JournalWriter for FileKeeper<'a> {
    fn append(&self, alloc: Global, batch: &[u8]) -> Result<(), Refusal> {
        let Some(mut journal) = self.journal.try_lock() else {
            return Err(Refusal::WriteFault);
        };
        let Some(journal) = &mut *journal else {
            return Err(Refusal::WriteFault);
        };
        match journal.append(self.rt, alloc, batch) {
            Ok(()) => {
                if self.is_unwritten.swap(false, Ordering::SeqCst) {
                    let path = journal.path();
                    self.note_news(format!(in alloc; "the journal is written again: {path}").ok());
                }
                Ok(())
            }
            Err(failure) if self.is_unwritten.swap(true, Ordering::SeqCst) => {
                Err(refused(failure.refusal))
            }
            Err(failure) => Err(self.refusal_of(alloc, NOT_WRITTEN, failure)),
        }
    }
}

impl<'a> Keeper for FileKeeper<'a> {
    fn write(&self, alloc: Global, snapshot: &ImageSnapshot) -> Result<u64, Refusal> {
        let Some(path) = self.path else {
            return Err(Refusal::BadArguments);
        };
        if let Err(refusal) = self.write_noted(alloc) {
            return Err(refused(refusal));
        }
        match self.write_at(alloc, path, snapshot) {
            Ok(bytes) => Ok(bytes),
            Err(failure) => Err(self.refusal_of(alloc, NOT_SAVED, failure)),
        }
    }

    fn replace(&self, alloc: Global, from: u64) -> Result<(), Refusal> {
        let Some(path) = self.path else {
            return Err(Refusal::WriteFault);
        };
        match self.replace_at(alloc, path, from, false) {
            Ok(()) => Ok(()),
            Err(failure) => Err(self.refusal_of(alloc, NOT_SAVED, failure)),
        }
    }

    fn journal(&self) -> Option<JournalSettings> {
        self.settings
    }

    fn end(&self) -> u64 {
        match self.journal.try_lock() {
            Some(journal) => match &*journal {
                Some(journal) => journal.end(),
                None => 0,
            },
            None => u64::MAX,
        }
    }

    fn note(&self, alloc: Global, image: &Image) {
        if let Some(mut noted) = self.noted.try_lock() {
            if let Some(noted) = &mut *noted {
                noted.note(alloc, self, image);
            }
        }
    }

    fn note_checkpoint(&self, alloc: Global, image: &Image) {
        if let Some(mut noted) = self.noted.try_lock() {
            if let Some(noted) = &mut *noted {
                noted.note_checkpoint(alloc, image);
            }
        }
    }

    /// Writes to standard error. Where nobody reads that, it waits, and others do not write meanwhile.
    fn report_error(&self) {
        let news = match self.news.try_lock() {
            Some(mut news) => news.take(),
            None => None,
        };
        let Some(words) = news else {
            return;
        };
        if !self.is_telling.swap(true, Ordering::SeqCst) {
            let _ = eprintln!(self.rt; "actorimage: {words}");
            self.is_telling.store(false, Ordering::SeqCst);
        }
    }
}
