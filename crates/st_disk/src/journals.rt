//! The journal beside an image's file. It has the name of that, and `.journal`.
//!
//! A save writes the journal that goes on from the new image under another name, which ends in `.journal.new`, before it replaces the
//! image. So each of both images has its journal, whichever a crash leaves.
use crate::failures::Failure;
use crate::journal_files::{
    LastError, Lines, changed_by_another, is_there, open, open_again, open_to_read, open_whole,
    read_whole, unread, write_whole,
};
use crate::new_files::sync_folder;
use st_classes::refusals::{ImagePlace, Refusal};
use st_image::settings::Settings;
use st_journal::headers::header;
use st_log::device::DeviceError;
use st_log::lines::is_batch;
use std::alloc::Global;
use std::fs::{self, File, Files};
use std::io::{Seek, SeekFrom};

/// A path as a text of its own, with an ending.
fn path_with(alloc: Global, place: &str, ending: &str) -> Result<String, Refusal> {
    match format!(in alloc; "{place}{ending}") {
        Ok(path) => Ok(path),
        Err(_) => Err(Refusal::NoMemory),
    }
}

/// The path of the journal of the image at a path.
pub fn journal_of(alloc: Global, place: &str) -> Result<String, Refusal> {
    path_with(alloc, place, ".journal")
}

/// Refuses an image whose journal is there, for one who would not go on with it.
pub fn refuse_journal<R: Files>(rt: &R, alloc: Global, place: &str) -> Result<(), Failure> {
    let path = journal_of(alloc, place)?;
    if is_there(rt, path.as_str()) {
        return Err(Failure::of(
            alloc,
            Refusal::WriteFault,
            path.as_str(),
            "is there: what it tells is not in the image; serve that with --journal",
        ));
    }
    Ok(())
}

/// The journal of an image.
#[derive(Drop)]
pub struct Journal {
    /// The path of the journal.
    path: String,
    /// The journal, where its last change did not fail.
    lines: Option<Lines>,
    /// Why its last change failed.
    last_error: LastError,
    /// How many bytes its lines have.
    end: usize,
    /// Whether another image was moved into the file's place, and it is not known to be on the disk there, with its journal in this one's
    /// place. Nothing is appended before that is so.
    is_unsure: bool,
}

/// What a journal tells of an image: the lines behind its header.
#[derive(Drop)]
pub struct Found {
    pub journal: Journal,
    lines: Vec<u8>,
    /// Where the first line behind the header begins.
    from: usize,
}

impl Found {
    /// The lines behind the header.
    pub fn text(&self) -> &[u8] {
        self.lines.get(self.from..).unwrap_or(&[])
    }
}

/// The header of a journal that goes on from the image with a digest.
pub fn header_of(alloc: Global, digest: &str) -> Result<Vec<u8>, Failure> {
    match header(alloc, digest, Settings::DEFAULT.capacity) {
        Ok(line) => Ok(line),
        Err(_) => Err(Failure::from(Refusal::NoMemory)),
    }
}

/// The refusal of a journal that goes on from another image.
pub fn journal_of_another_image(alloc: Global, path: &str) -> Failure {
    Failure::of(
        alloc,
        Refusal::BadImage {
            place: ImagePlace::Shape,
        },
        path,
        "line 1: is the journal of another image",
    )
}

/// Moves the journal at a path into the place of another. That is on the disk then.
fn move_over<R: Files<File = File>>(
    rt: &R,
    alloc: Global,
    new: &str,
    path: &str,
) -> Result<(), Failure> {
    if let Err(error) = fs::rename(rt, new, path) {
        return Err(Failure::at(alloc, Refusal::WriteFault, path, &error));
    }
    match sync_folder(rt, alloc, path) {
        Some(failure) => Err(failure),
        None => Ok(()),
    }
}

impl Journal {
    /// The journal of the image at a path, whose text has a digest: the one that is there, or a new one.
    ///
    /// `BadImage` says that the one that is there goes on from another image. Where a save was broken off behind the new image, the journal
    /// that was written for it takes its place.
    pub fn find<R: Files<File = File>>(
        rt: &R,
        alloc: Global,
        place: &str,
        digest: &str,
    ) -> Result<Found, Failure> {
        let path = journal_of(alloc, place)?;
        let header = header_of(alloc, digest)?;
        let new = path_with(alloc, path.as_str(), ".new")?;
        let last_error = LastError::new(alloc)?;
        let found = open(rt, alloc, path.as_str(), &last_error)?;
        if !found.1.starts_with(&header) && is_there(rt, new.as_str()) {
            if let Some(other) = open_whole(rt, alloc, new.as_str(), &header, &last_error)? {
                drop(found);
                move_over(rt, alloc, new.as_str(), path.as_str())?;
                return Journal::of(rt, alloc, path, last_error, other, header);
            }
        }
        Journal::of(rt, alloc, path, last_error, found, header)
    }

    /// A journal that was opened. Where it has no lines of its own, it begins with the header.
    fn of<R: Files<File = File>>(
        rt: &R,
        alloc: Global,
        path: String,
        last_error: LastError,
        (lines, text): (Lines, Vec<u8>),
        header: Vec<u8>,
    ) -> Result<Found, Failure> {
        let end = lines.end();
        let from = header.len();
        let goes_on = text.starts_with(&header);
        let mut journal = Journal {
            path,
            lines: Some(lines),
            last_error,
            end,
            is_unsure: false,
        };
        if !goes_on {
            if !text.is_empty() {
                return Err(journal_of_another_image(alloc, journal.path.as_str()));
            }
            journal.begin(rt, alloc, header)?;
        }
        Ok(Found {
            journal,
            lines: text,
            from,
        })
    }

    /// Writes the header of a journal without lines. It is on the disk then, and so is the file's name.
    fn begin<R: Files<File = File>>(
        &mut self,
        rt: &R,
        alloc: Global,
        mut header: Vec<u8>,
    ) -> Result<(), Failure> {
        header.extend_from_slice(b"\n")?;
        if let Err(error) = self.add(&header) {
            return Err(self.last_error.of(alloc, self.path.as_str(), error));
        }
        match sync_folder(rt, alloc, self.path.as_str()) {
            Some(failure) => Err(failure),
            None => Ok(()),
        }
    }

    /// The path of the journal's file.
    pub fn path(&self) -> &str {
        self.path.as_str()
    }

    /// How many bytes the lines have.
    pub fn end(&self) -> u64 {
        self.end as u64
    }

    /// Adds a batch to the log, which is there.
    fn add(&mut self, batch: &[u8]) -> Result<(), DeviceError> {
        let Some(lines) = self.lines.take() else {
            return Err(DeviceError::Failed);
        };
        if !is_batch(batch) {
            self.lines = Some(lines);
            return Err(DeviceError::Failed);
        }
        let lines = lines.append(batch)?;
        self.end = lines.end();
        self.lines = Some(lines);
        Ok(())
    }

    /// Opens the journal again behind a change that failed: what was not acknowledged is cut off.
    fn reopen<R: Files<File = File>>(&mut self, rt: &R, alloc: Global) -> Result<(), Failure> {
        let (lines, text) = open_again(rt, alloc, self.path.as_str(), self.end, &self.last_error)?;
        if text.len() != self.end {
            return Err(changed_by_another(alloc, self.path.as_str()));
        }
        self.lines = Some(lines);
        Ok(())
    }

    /// Appends a batch. After a failure a crash may leave it or not, and the next batch takes its place.
    pub fn append<R: Files<File = File>>(
        &mut self,
        rt: &R,
        alloc: Global,
        batch: &[u8],
    ) -> Result<(), Failure> {
        self.be_sure(rt, alloc)?;
        if self.lines.is_none() {
            self.reopen(rt, alloc)?;
        }
        match self.add(batch) {
            Ok(()) => Ok(()),
            Err(error) => Err(self.last_error.of(alloc, self.path.as_str(), error)),
        }
    }

    /// The lines behind so many bytes. What stands behind the last that was acknowledged is not among them.
    fn behind<R: Files<File = File>>(
        &self,
        rt: &R,
        alloc: Global,
        from: u64,
    ) -> Result<Vec<u8>, Failure> {
        let path = self.path.as_str();
        let mut file = open_to_read(rt, alloc, path)?;
        if let Err(error) = file.seek(SeekFrom::Start(from)) {
            return Err(unread(alloc, path, &error));
        }
        let mut lines = read_whole(alloc, &file, path)?;
        let count = match self.end().checked_sub(from) {
            Some(count) if count <= lines.len() as u64 => count,
            _ => return Err(changed_by_another(alloc, path)),
        };
        lines.truncate(count as usize);
        Ok(lines)
    }

    /// Writes the journal that goes on from the image with a digest, with the lines behind so many bytes, under its other name. It is on
    /// the disk then, and so is its name.
    pub fn write_new<R: Files<File = File>>(
        &mut self,
        rt: &R,
        alloc: Global,
        digest: &str,
        from: u64,
    ) -> Result<(), Failure> {
        self.be_sure(rt, alloc)?;
        let mut text = header_of(alloc, digest)?;
        let behind = self.behind(rt, alloc, from)?;
        text.extend_from_slice(&behind)?;
        text.extend_from_slice(b"\n")?;
        let path = path_with(alloc, self.path.as_str(), ".new")?;
        write_whole(rt, alloc, path.as_str(), &text)?;
        match sync_folder(rt, alloc, path.as_str()) {
            Some(failure) => Err(failure),
            None => Ok(()),
        }
    }

    /// Moves the journal that was written for the new image into the place of the old one, once that image is known to be on the disk in its
    /// place. If that fails, it is tried again before anything is appended or saved.
    pub fn take_place<R: Files<File = File>>(
        &mut self,
        rt: &R,
        alloc: Global,
    ) -> Result<(), Failure> {
        self.doubt();
        self.be_sure(rt, alloc)
    }

    /// Nobody knows any more where the journal goes on, until the new image and its journal are on the disk.
    pub fn doubt(&mut self) {
        self.lines = None;
        self.is_unsure = true;
    }

    /// Has the new image and its journal on the disk, each in its place, if that is not known.
    fn be_sure<R: Files<File = File>>(&mut self, rt: &R, alloc: Global) -> Result<(), Failure> {
        if !self.is_unsure {
            return Ok(());
        }
        let path = self.path.as_str();
        if let Some(failure) = sync_folder(rt, alloc, path) {
            return Err(failure);
        }
        // If it was moved before, only the wait for that failed.
        let new = path_with(alloc, path, ".new")?;
        if is_there(rt, new.as_str()) {
            move_over(rt, alloc, new.as_str(), path)?;
        }
        let (lines, text) = open(rt, alloc, path, &self.last_error)?;
        drop(text);
        self.end = lines.end();
        self.lines = Some(lines);
        self.is_unsure = false;
        Ok(())
    }

    /// Removes the journal.
    pub fn remove<R: Files>(self, rt: &R) {
        let _ = fs::remove_file(rt, self.path.as_str());
    }
}
