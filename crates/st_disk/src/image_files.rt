//! Image files on disk.
ghost use Rattle.std.specs.Prelude.{◌≡◌, [], Result, IfOk, IfSome};
ghost use Rattle.st_classes.specs.declared.refusals.Refusal.{Refusal as RefusalOf};
ghost use Rattle.st_image.specs.Images.{ImageView};
ghost use Rattle.st_wire.specs.Streams.{input_view};
ghost use Rattle.st_file.specs.Files.{LoadsFile};
ghost use Rattle.st_disk.specs.FoundImages as spec;

use crate::digests::digest_of;
use crate::failures::Failure;
use crate::new_files::HELD_BY_ANOTHER;
use crate::stamps::Stamp;
use st_classes::refusals::Refusal;
use st_file::files::load;
use st_image::image::Image;
use st_mailbox::mailboxes::Mailbox;
use st_wire::streams::{Input, Reader};
use std::alloc::Global;
use std::fs::{self, File, Files, TryLockError};
use std::io::{self, ErrorKind, Read, Seek};

/// Stands for a file that cannot be opened: each read fails.
#[derive(Drop)]
pub struct Unreadable;

impl Read for Unreadable {
    fn read(&mut self, _buffer: &mut [u8]) -> io::Result<usize> {
        Err(io::Error::from(ErrorKind::NotFound))
    }
}

/// What is found in a file: the image that was loaded from it, or why it was refused.
fn found_as<M: Mailbox>(loaded: Result<Image<M>, Refusal>) -> Result<Option<Image<M>>, Refusal>
    ensures { result ≡ spec.found_as loaded }
{
    match loaded {
        Ok(image) => Ok(Some(image)),
        Err(refused) => Err(refused),
    }
}

/// The image that is found in the input of a file, with an empty history, or why the file is refused.
fn found_in<M: Mailbox, I: Input>(alloc: Global, input: &mut I) -> Result<Option<Image<M>>, Refusal>
    ensures loaded { let before = input_view I.remaining I.failures I.reads input.old in
        let after = input_view I.remaining I.failures I.reads input.new in
        (loaded : Result ImageView RefusalOf) × LoadsFile before after loaded × (result ≡ spec.found_as loaded) }
    ensures anew { IfOk result (λ found. IfSome found (λ i. i.history ≡ [])) }
{
    let loaded: Result<Image<M>, Refusal> = load(alloc, input);
    found_as(loaded)
}

/// The image of a file, or none if there is no file. `ReadFault` says that the file cannot be read, and `BadImage` that it holds no
/// image.
pub fn load_file<M: Mailbox>(
    alloc: Global,
    file: Option<&File>,
) -> Result<Option<Image<M>>, Refusal>
    ensures { IfOk result (λ found. IfSome found (λ i. i.history ≡ [])) }
{
    match file {
        Some(file) => found_in(alloc, &mut Reader::new(file)),
        None => Ok(None),
    }
}

/// The digest of an image's file, or none if there is no file. The file can be read again then.
pub fn digest_of_file(
    alloc: Global,
    path: &str,
    file: Option<&File>,
) -> Result<Option<String>, Failure> {
    let Some(mut file) = file else {
        return Ok(None);
    };
    match digest_of(alloc, &mut file) {
        Ok(digest) => match file.rewind() {
            Ok(()) => Ok(Some(digest)),
            Err(error) => Err(unread(alloc, path, &error)),
        },
        Err(error) => Err(unread(alloc, path, &error)),
    }
}

/// Where the image of a run is kept.
#[derive(Clone, Copy)]
pub struct Place<'a> {
    /// The path of the image's file.
    pub path: &'a str,
    /// Whether the file is to be there when the run begins.
    pub must_exist: bool,
}

/// The path of an image's place, if one is given.
pub fn path_of(place: Option<Place<'_>>) -> Option<&str> {
    match place {
        Some(place) => Some(place.path),
        None => None,
    }
}

/// What is at an image's place when a run begins: the file, if one is there, and what the system says of it.
#[derive(Drop)]
pub struct Opened {
    pub file: Option<File>,
    pub seen: Option<Stamp>,
}

impl Opened {
    /// What is at a place where nothing is.
    pub fn nothing() -> Opened {
        Opened {
            file: None,
            seen: None,
        }
    }

    /// Locks the file, so that no other server begins on it by whatever name. Where files cannot be locked nothing is done.
    pub fn lock(&self, alloc: Global, path: &str) -> Result<(), Failure> {
        let Some(file) = &self.file else {
            return Ok(());
        };
        match file.try_lock() {
            Err(TryLockError::WouldBlock) => {
                Err(Failure::of(alloc, Refusal::WriteFault, path, HELD_BY_ANOTHER))
            }
            _ => Ok(()),
        }
    }
}

/// The refusal to read a path, since the system says so.
fn unread(alloc: Global, path: &str, error: &io::Error) -> Failure {
    Failure::at(alloc, Refusal::ReadFault, path, error)
}

/// What is at an image's place where no file can be opened: nothing, or a link that leads nowhere.
fn without_file<R: Files>(rt: &R, path: &str) -> Opened {
    match fs::symlink_metadata(rt, path) {
        Ok(link) => Opened {
            file: None,
            seen: Some(Stamp::of(&link)),
        },
        Err(_) => Opened::nothing(),
    }
}

/// Opens a file.
fn open_there<R: Files<File = File>>(rt: &R, alloc: Global, path: &str) -> Result<Opened, Failure> {
    let file = match File::open(rt, path) {
        Ok(file) => file,
        Err(error) => return Err(unread(alloc, path, &error)),
    };
    match file.metadata() {
        Ok(found) => Ok(Opened {
            seen: Some(Stamp::of(&found)),
            file: Some(file),
        }),
        Err(error) => Err(unread(alloc, path, &error)),
    }
}

/// Opens the file at an image's place. `ReadFault` says that it cannot be read, is no file, or is not there and must be. Who opens a pipe
/// waits until somebody writes into it, so what is there is asked first.
pub fn open_file<R: Files<File = File>>(
    rt: &R,
    alloc: Global,
    place: Place<'_>,
) -> Result<Opened, Failure> {
    let path = place.path;
    let what = match fs::metadata(rt, path) {
        Ok(found) if found.is_file() => return open_there(rt, alloc, path),
        Ok(found) if found.is_dir() => "is a folder",
        Ok(_) => "is no file",
        Err(error) if error.kind() == ErrorKind::NotFound && !place.must_exist => {
            return Ok(without_file(rt, path));
        }
        Err(error) => return Err(unread(alloc, path, &error)),
    };
    Err(Failure::of(alloc, Refusal::ReadFault, path, what))
}
