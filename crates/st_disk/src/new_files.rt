//! The new file beside an image's file. It is held by a lock, gets the text, and takes the old file's place.
ghost use Rattle.std.specs.Prelude.{IfOk};
ghost use Rattle.st_file.specs.Saving.{HasFileOf};

use crate::digests::WrittenDigest;
use crate::failures::Failure;
use crate::stamps::{Stamp, has_changed};
use st_classes::refusals::Refusal;
use st_file::image_snapshots::ImageSnapshot;
use st_file::saving::save_snapshot;
use st_wire::streams::Writer;
use std::alloc::Global;
use std::fs::{self, File, Files, Permissions, TryLockError};
use std::io::{self, ErrorKind, Write};
use std::os::unix::fs::{MetadataExt, OpenOptionsExt, PermissionsExt, fchown};

/// How often a new file is opened, at most, until it is the one at its path.
const TRIES: u32 = 8;

/// Below this number are those of the names that are tried for an image which cannot take its file's place.
const MOST_KEPT: u32 = 1000;

/// What is said of a file that another process has locked.
pub const HELD_BY_ANOTHER: &str = "is held by another process";

/// The permissions of an image's file that is made where none was: its owner can read and write.
const OWNER_ALONE: u32 = 0o600;

/// The new file beside an image's file, which this process holds: no other one can take hold of it.
#[derive(Drop)]
pub struct NewFile {
    file: File,
    /// The path of the new file.
    path: String,
    /// The path of the file whose place it takes.
    place: String,
}

/// A path as a text of its own.
fn owned(alloc: Global, path: &str) -> Result<String, Refusal> {
    match String::from_str(alloc, path) {
        Ok(path) => Ok(path),
        Err(_) => Err(Refusal::NoMemory),
    }
}

/// The path of the file to which a path leads. If none is there, it is the path itself.
pub fn place_of<R: Files>(rt: &R, alloc: Global, path: &str) -> Result<String, Refusal> {
    match rt.canonicalize(alloc, path) {
        Ok(place) => owned(alloc, place.as_str()),
        Err(error) if error.kind() == ErrorKind::OutOfMemory => Err(Refusal::NoMemory),
        Err(_) => owned(alloc, path),
    }
}

/// The path of the new file beside the one at a path.
fn beside(alloc: Global, place: &str) -> Result<String, Refusal> {
    let mut path = owned(alloc, place)?;
    match path.push_str(".new") {
        Ok(()) => Ok(path),
        Err(_) => Err(Refusal::NoMemory),
    }
}

/// Whether a new file can be at a path: nothing is there, or a file. A link, a folder and a device are none.
fn is_free<R: Files>(rt: &R, path: &str) -> bool {
    match fs::symlink_metadata(rt, path) {
        Ok(found) => found.is_file(),
        Err(error) => error.kind() == ErrorKind::NotFound,
    }
}

/// Whether nothing is at a path.
fn is_nothing<R: Files>(rt: &R, path: &str) -> bool {
    match fs::symlink_metadata(rt, path) {
        Ok(_) => false,
        Err(error) => error.kind() == ErrorKind::NotFound,
    }
}

/// Whether an open file is the one at a path, and not one to which a link there leads.
fn is_at<R: Files>(rt: &R, file: &File, path: &str) -> bool {
    let Ok(own) = file.metadata() else {
        return false;
    };
    let Ok(found) = fs::symlink_metadata(rt, path) else {
        return false;
    };
    own.dev() == found.dev() && own.ino() == found.ino()
}

/// The permissions with which the new file beside the one at a path is made: those of the old file, and that its owner can read and
/// write it.
fn mode_beside<R: Files>(rt: &R, place: &str) -> u32 {
    match fs::metadata(rt, place) {
        Ok(old) => old.mode() & 0o777 | OWNER_ALONE,
        Err(_) => OWNER_ALONE,
    }
}

/// The refusal to write to a path, for what is so there.
fn unwritten(alloc: Global, path: &str, what: &str) -> Failure {
    Failure::of(alloc, Refusal::WriteFault, path, what)
}

/// Opens the file at a path to write to it, and locks it. It is made with these permissions if it is not there, and what is in it stays.
/// Where files cannot be locked it is only opened.
fn locked<R: Files<File = File>>(
    rt: &R,
    alloc: Global,
    path: &str,
    mode: u32,
) -> Result<File, Failure> {
    if !is_free(rt, path) {
        return Err(unwritten(alloc, path, "is there already, and is no file"));
    }
    let mut options = File::options();
    let file = match options.write(true).create(true).mode(mode).open(rt, path) {
        Ok(file) => file,
        Err(error) => return Err(Failure::at(alloc, Refusal::WriteFault, path, &error)),
    };
    match file.try_lock() {
        Err(TryLockError::WouldBlock) => Err(unwritten(alloc, path, HELD_BY_ANOTHER)),
        _ => Ok(file),
    }
}

/// Opens and locks the new file at a path, beside the one whose place it takes. If it was moved or taken away meanwhile, the one that
/// is there then is tried.
fn held<R: Files<File = File>>(
    rt: &R,
    alloc: Global,
    path: &str,
    place: &str,
) -> Result<File, Failure> {
    let mode = mode_beside(rt, place);
    for _ in 0..TRIES {
        let file = locked(rt, alloc, path, mode)?;
        if is_at(rt, &file, path) {
            return Ok(file);
        }
    }
    Err(unwritten(alloc, path, "is taken away again and again"))
}

/// Takes hold of the new file beside the image's file at a path, which need not be there. If the path is a link, it is the one beside
/// the file to which it leads. `WriteFault` says that it cannot be written, that another process holds it, or that the path is empty.
/// Neither file is changed, but that the new one is made if it is not there.
pub fn hold<R: Files<File = File>>(rt: &R, alloc: Global, path: &str) -> Result<NewFile, Failure> {
    if path.is_empty() {
        return Err(Failure::from(Refusal::WriteFault));
    }
    let place = place_of(rt, alloc, path)?;
    hold_beside(rt, alloc, place)
}

/// The same beside the file at a path that is no link.
pub fn hold_beside<R: Files<File = File>>(
    rt: &R,
    alloc: Global,
    place: String,
) -> Result<NewFile, Failure> {
    let path = beside(alloc, place.as_str())?;
    let file = held(rt, alloc, path.as_str(), place.as_str())?;
    Ok(NewFile { file, path, place })
}

/// Gives an open file the owner, the group and the permissions of the one at a path, as far as that works. If none is there, its owner
/// alone can read and write it.
fn take_rights<R: Files>(rt: &R, file: &File, place: &str) {
    let Ok(old) = fs::metadata(rt, place) else {
        let _ = file.set_permissions(Permissions::from_mode(OWNER_ALONE));
        return;
    };
    let _ = fchown(file, None, Some(old.gid()));
    let _ = fchown(file, Some(old.uid()), None);
    let _ = file.set_permissions(old.permissions());
}

/// A file to which is written, and the last error of that.
#[derive(Drop)]
struct Written<'a> {
    file: &'a File,
    error: Option<io::Error>,
}

impl<'a> Write for Written<'a> {
    fn write(&mut self, bytes: &[u8]) -> io::Result<usize> {
        let mut file = self.file;
        match file.write(bytes) {
            Ok(count) => Ok(count),
            Err(error) => {
                let kind = error.kind();
                self.error = Some(error);
                Err(io::Error::from(kind))
            }
        }
    }

    fn flush(&mut self) -> io::Result<()> {
        Ok(())
    }
}

/// Writes an image to an open file and waits until it is on the disk. The answer is how many bytes were written, and their digest. A
/// failure is said of the path.
fn write_image(
    alloc: Global,
    file: &File,
    path: &str,
    snapshot: &ImageSnapshot,
) -> Result<(u64, String), Failure>
    ensures { IfOk result (λ r. HasFileOf snapshot.now r.0) }
{
    let mut output = WrittenDigest::new(Written { file, error: None });
    let saved = save_snapshot(alloc, snapshot, &mut Writer::new(&mut output));
    let (written, digest) = output.digest(alloc);
    let bytes = match saved {
        Ok(bytes) => bytes,
        Err(refusal) => {
            return Err(match &written.error {
                Some(error) => Failure::at(alloc, refusal, path, error),
                None => Failure::from(refusal),
            });
        }
    };
    let Ok(digest) = digest else {
        return Err(Failure::from(Refusal::NoMemory));
    };
    match file.sync_all() {
        Ok(()) => Ok((bytes, digest)),
        Err(error) => Err(Failure::at(alloc, Refusal::WriteFault, path, &error)),
    }
}

/// Waits until the names of a file's folder are on the disk. If that fails, the answer says so. Where folders cannot be opened or have no
/// such wait, nothing is done.
pub fn sync_folder<R: Files<File = File>>(rt: &R, alloc: Global, path: &str) -> Option<Failure> {
    let folder = match path.rsplit_once('/') {
        Some(("", _)) => "/",
        Some((folder, _)) => folder,
        None => ".",
    };
    let Ok(opened) = File::open(rt, folder) else {
        return None;
    };
    match opened.sync_all() {
        Err(error) if error.kind() != ErrorKind::InvalidInput => Some(Failure::at(
            alloc,
            Refusal::WriteFault,
            folder,
            &error,
        )),
        _ => None,
    }
}

impl NewFile {
    /// Whether the new file is at its path still.
    fn is_there<R: Files>(&self, rt: &R) -> bool {
        is_at(rt, &self.file, self.path.as_str())
    }

    /// Removes the new file, if it is still the one that is held.
    pub fn remove<R: Files>(&self, rt: &R) {
        if self.is_there(rt) {
            let _ = fs::remove_file(rt, self.path.as_str());
        }
    }

    /// Empties the new file, gives it the rights of the old one, and then writes an image to it.
    fn fill<R: Files>(
        &self,
        rt: &R,
        alloc: Global,
        snapshot: &ImageSnapshot,
    ) -> Result<(u64, String), Failure>
        ensures { IfOk result (λ r. HasFileOf snapshot.now r.0) }
    {
        let place = self.place.as_str();
        if let Err(error) = self.file.set_len(0) {
            return Err(Failure::at(alloc, Refusal::WriteFault, place, &error));
        }
        take_rights(rt, &self.file, place);
        write_image(alloc, &self.file, place, snapshot)
    }

    /// Moves the new file, which is filled, to a free name beside the old one. The answer is its path then.
    fn moved_aside<R: Files>(&self, rt: &R, alloc: Global) -> Option<String> {
        let place = self.place.as_str();
        for number in 1..MOST_KEPT {
            let path = format!(in alloc; "{place}.kept{number}").ok()?;
            if !is_nothing(rt, path.as_str()) {
                continue;
            }
            fs::rename(rt, self.path.as_str(), path.as_str()).ok()?;
            return Some(path);
        }
        None
    }

    /// Says why the new file, which is filled, cannot take the old one's place, and where it is. It is kept beside it if it is the last;
    /// else it is removed.
    fn kept<R: Files<File = File>>(
        &self,
        rt: &R,
        alloc: Global,
        is_last: bool,
        why: &str,
    ) -> Failure {
        let place = self.place.as_str();
        if !is_last {
            self.remove(rt);
            return unwritten(alloc, place, why);
        }
        let aside = self.moved_aside(rt, alloc);
        let path = match &aside {
            Some(path) => path.as_str(),
            None => self.path.as_str(),
        };
        let _ = sync_folder(rt, alloc, path);
        Failure {
            refusal: Refusal::WriteFault,
            words: format!(in alloc; "{place} {why}: this image is saved in {path}").ok(),
        }
    }

    /// The failure of a save whose journal cannot be written, for which the new file, which is filled, does not take the old one's place. It
    /// is kept beside it if it is the last; else it is removed.
    pub fn kept_for<R: Files<File = File>>(
        &self,
        rt: &R,
        alloc: Global,
        is_last: bool,
        failure: Failure,
    ) -> Failure {
        if !is_last {
            self.remove(rt);
            return failure;
        }
        self.kept(
            rt,
            alloc,
            is_last,
            "has a journal that cannot be written, and is NOT replaced",
        )
    }

    /// Writes an image's text to the new file. If the new file was taken away or moved, another one is held in its stead. The answer is how
    /// many bytes the text has, and its digest. If the text is not written whole, the new file is gone then.
    pub fn write<R: Files<File = File>>(
        &mut self,
        rt: &R,
        alloc: Global,
        snapshot: &ImageSnapshot,
    ) -> Result<(u64, String), Failure>
        ensures { IfOk result (λ r. HasFileOf snapshot.now r.0) }
    {
        if !self.is_there(rt) {
            self.file = held(rt, alloc, self.path.as_str(), self.place.as_str())?;
        }
        match self.fill(rt, alloc, snapshot) {
            Ok(written) => Ok(written),
            Err(failure) => {
                self.remove(rt);
                Err(failure)
            }
        }
    }

    /// Moves the new file, which is filled, into the old one's place, unless that has changed since it was seen or cannot be replaced. So
    /// the file holds the old image or the new one, whenever the program is killed. The answer has why its name may not be on the disk, if
    /// that is so.
    ///
    /// `WriteFault` says that it cannot take the place. Then it is in a file beside it if no other save follows, and the old file is as it
    /// was.
    pub fn take_place<R: Files<File = File>>(
        &self,
        rt: &R,
        alloc: Global,
        seen: Option<Stamp>,
        is_last: bool,
    ) -> Result<Option<Failure>, Failure> {
        let (path, place) = (self.path.as_str(), self.place.as_str());
        if !self.is_there(rt) {
            return Err(unwritten(alloc, path, "was taken away"));
        }
        if has_changed(rt, place, seen) {
            let _ = self
                .file
                .set_permissions(Permissions::from_mode(OWNER_ALONE));
            return Err(self.kept(
                rt,
                alloc,
                is_last,
                "was changed by another process, and is NOT replaced",
            ));
        }
        if fs::rename(rt, path, place).is_err() {
            return Err(self.kept(rt, alloc, is_last, "can NOT be replaced"));
        }
        Ok(sync_folder(rt, alloc, place))
    }

    /// The path of the file whose place it takes.
    pub fn place(&self, alloc: Global) -> Result<String, Refusal> {
        owned(alloc, self.place.as_str())
    }

    /// The file, which stays locked while it is open.
    pub fn into_file(self) -> File {
        self.file
    }
}
