//! The image with which a run begins that has hold of its file, and what keeps it.
use crate::keeping::FileKeeper;
use crate::options::Keeping;
use crate::runs::begin_with;
use st_classes::refusals::{ImagePlace, Refusal};
use st_disk::failures::Failure;
use st_disk::image_files::{Opened, digest_of_file, load_file, path_of};
use st_disk::journal_files::is_there;
use st_disk::journals::{Found, Journal, journal_of, journal_of_another_image, refuse_journal};
use st_disk::new_files::NewFile;
use st_journal::redo_error::{LineError, RedoError, RefusedLine};
use st_script::images::Image;
use st_script::keepers::JournalSettings;
use st_script::recovering::recover;
use std::alloc::Global;
use std::fs::{File, Files};

/// A journal with so many bytes or more takes a moment to be done again, or some seconds.
const MUCH: usize = 1_000_000;

/// The refusal of a journal's line, by its number, from 1. The first line is the header.
pub fn refused_line(alloc: Global, path: &str, refused: RefusedLine) -> Failure {
    let number = refused.place.saturating_add(2);
    let words = match refused.error {
        LineError::Redo(RedoError::Refused(Refusal::NoMemory)) => {
            return Failure::from(Refusal::NoMemory);
        }
        LineError::Redo(RedoError::Refused(refusal)) => {
            format!(in alloc; "{path}: line {number}: {refusal}")
        }
        LineError::Redo(error) => format!(in alloc; "{path}: line {number}: {error}"),
        error => format!(in alloc; "{path}: line {number}: {error}"),
    };
    Failure {
        refusal: Refusal::BadImage {
            place: ImagePlace::Shape,
        },
        words: words.ok(),
    }
}

/// Says that a long journal is done again.
fn tell_again<R: Eprint>(rt: &R, found: &Found) {
    let bytes = found.text().len();
    if bytes >= MUCH {
        let path = found.journal.path();
        let megabytes = bytes / MUCH;
        let _ = eprintln!(rt; "actorimage: doing {path} again, {megabytes} MB");
    }
}

/// An image comes back to what it was, by what its journal tells.
fn recovered<R: Eprint>(
    rt: &R,
    alloc: Global,
    image: Image,
    found: Found,
) -> Result<(Image, Journal), Failure> {
    tell_again(rt, &found);
    match recover(alloc, image, found.text()) {
        Ok(image) => Ok((image, found.journal)),
        Err(refused) => Err(refused_line(alloc, found.journal.path(), refused)),
    }
}

/// The image of a file, or a new one.
pub fn loaded(alloc: Global, file: Option<&File>) -> Result<Image, Failure> {
    let image = begin_with(alloc, load_file(alloc, file))?;
    Ok(image)
}

/// The same, and the digest of the file's text, if there is a file.
fn loaded_with_digest(
    alloc: Global,
    path: &str,
    file: Option<&File>,
) -> Result<(Image, Option<String>), Failure> {
    let digest = digest_of_file(alloc, path, file)?;
    let image = loaded(alloc, file)?;
    Ok((image, digest))
}

/// Saves the image that is in no file, unless the journal of another one is there. The answer is the digest of its text.
fn first_digest<R: Files<File = File>>(
    rt: &R,
    alloc: Global,
    place: &str,
    keeper: &FileKeeper<'_>,
    image: &Image,
) -> Result<String, Failure> {
    let path = journal_of(alloc, place)?;
    if is_there(rt, path.as_str()) {
        return Err(journal_of_another_image(alloc, path.as_str()));
    }
    keeper.save_first(alloc, image)
}

/// Begins or goes on with the journal of an image, which comes back to what it was. An image that is in no file is saved first.
fn with_journal<'a, R: Files<File = File> + Eprint>(
    rt: &R,
    alloc: Global,
    place: &str,
    settings: JournalSettings,
    keeper: FileKeeper<'a>,
    (image, digest): (Image, Option<String>),
) -> (FileKeeper<'a>, Result<Image, Failure>) {
    let digest = match digest {
        Some(digest) => Ok(digest),
        None => first_digest(rt, alloc, place, &keeper, &image),
    };
    let found = match digest {
        Ok(digest) => Journal::find(rt, alloc, place, digest.as_str()),
        Err(failure) => Err(failure),
    };
    let recovered = match found {
        Ok(found) => recovered(rt, alloc, image, found),
        Err(failure) => {
            drop(image);
            Err(failure)
        }
    };
    match recovered {
        Ok((image, journal)) => (keeper.with_journal(journal, settings), Ok(image)),
        Err(failure) => (keeper, Err(failure)),
    }
}

/// Where the file lies beside which a new one is held, or an empty path.
fn place_beside(alloc: Global, held: &Option<NewFile>) -> Result<String, Failure> {
    match held {
        Some(new) => Ok(new.place(alloc)?),
        None => Ok(String::new(alloc)),
    }
}

/// The image with which a run begins, and if it has a journal the digest of its file. Without a journal an image whose journal is there
/// is refused.
fn found_at<R: Files>(
    rt: &R,
    alloc: Global,
    keeping: Keeping<'_>,
    place: &str,
    file: Option<&File>,
) -> Result<(Image, Option<String>), Failure> {
    if let Some(image) = keeping.image {
        if keeping.journal.is_some() {
            return loaded_with_digest(alloc, image.path, file);
        }
        refuse_journal(rt, alloc, place)?;
    }
    let image = loaded(alloc, file)?;
    Ok((image, None))
}

/// The image with which a run begins, and what keeps it in the file that was opened. The new file beside that is held, if there is one.
pub fn begin_keeping<'a, R: Files<File = File> + Eprint>(
    rt: &R,
    program: &'a HostRuntime,
    alloc: Global,
    keeping: Keeping<'a>,
    held: Option<NewFile>,
    opened: Opened,
) -> (FileKeeper<'a>, Result<Image, Failure>) {
    let place = place_beside(alloc, &held);
    let Opened { file, seen } = opened;
    let path = path_of(keeping.image);
    let place = match place {
        Ok(place) => place,
        Err(failure) => {
            let keeper = FileKeeper::new(program, path, held, seen, file);
            return (keeper, Err(failure));
        }
    };
    let found = found_at(rt, alloc, keeping, place.as_str(), file.as_ref());
    let keeper = FileKeeper::new(program, path, held, seen, file);
    let found = match found {
        Ok(found) => found,
        Err(failure) => return (keeper, Err(failure)),
    };
    match keeping.journal {
        Some(settings) => with_journal(rt, alloc, place.as_str(), settings, keeper, found),
        None => {
            let (image, _) = found;
            (keeper, Ok(image))
        }
    }
}
