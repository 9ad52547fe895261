//! Images that were: an image's file, and the beginning of what its journal tells. Both stay as they are.
use crate::keeping::FileKeeper;
use crate::loading::{loaded, refused_line};
use crate::options::ReplayOptions;
use st_classes::refusals::{ImagePlace, Refusal};
use st_disk::failures::Failure;
use st_disk::image_files::{Opened, Place, digest_of_file, open_file};
use st_disk::journal_files::{is_there, open_to_read, read_whole};
use st_disk::journals::{header_of, journal_of, journal_of_another_image};
use st_disk::new_files::place_of;
use st_journal::redo_error::RedoError;
use st_journal::redoing::replaying::{ReplayError, Until};
use st_log::lines::whole_len;
use st_script::images::Image;
use st_script::recovering::go_back_to;
use std::alloc::Global;
use std::fs::{File, Files};
use std::io::Seek;

/// An image file, and the journal that goes on from it.
#[derive(Drop)]
struct Sources {
    file: File,
    /// The path of the journal.
    path: String,
    journal: Vec<u8>,
    /// How long the journal's first line is.
    header: usize,
}

/// The path of the journal: the one that is given, or the one beside the image's file.
fn journal_path<R: Files>(
    rt: &R,
    alloc: Global,
    options: ReplayOptions<'_>,
) -> Result<String, Failure> {
    let path = match options.journal {
        Some(path) => String::from_str(alloc, path)?,
        None => journal_of(alloc, place_of(rt, alloc, options.file)?.as_str())?,
    };
    Ok(path)
}

/// Opens an image file that is there, and answers the digest of its text too.
fn open_image<R: Files<File = File>>(
    rt: &R,
    alloc: Global,
    path: &str,
) -> Result<(File, String), Failure> {
    let place = Place {
        path,
        must_exist: true,
    };
    let Opened { file, .. } = open_file(rt, alloc, place)?;
    let digest = digest_of_file(alloc, path, file.as_ref())?;
    match (file, digest) {
        (Some(file), Some(digest)) => Ok((file, digest)),
        _ => Err(Failure::from(Refusal::ReadFault)),
    }
}

/// Opens an image file and reads its journal.
fn open<R: Files<File = File>>(
    rt: &R,
    alloc: Global,
    options: ReplayOptions<'_>,
) -> Result<Sources, Failure> {
    let (file, digest) = open_image(rt, alloc, options.file)?;
    let path = journal_path(rt, alloc, options)?;
    let opened = open_to_read(rt, alloc, path.as_str())?;
    let journal = read_whole(alloc, &opened, path.as_str())?;
    let header = header_of(alloc, digest.as_str())?;
    if !journal.starts_with(&header) {
        return Err(journal_of_another_image(alloc, path.as_str()));
    }
    Ok(Sources {
        file,
        path,
        journal,
        header: header.len(),
    })
}

impl Sources {
    /// The image of the file, which can be loaded again then.
    fn image(&self, alloc: Global, path: &str) -> Result<Image, Failure> {
        let image = loaded(alloc, Some(&self.file))?;
        match (&self.file).rewind() {
            Ok(()) => Ok(image),
            Err(error) => {
                drop(image);
                Err(Failure::at(alloc, Refusal::ReadFault, path, &error))
            }
        }
    }

    /// What the journal tells behind its first line.
    fn text(&self) -> &[u8] {
        let end = whole_len(&self.journal);
        self.journal.get(self.header..end).unwrap_or(&[])
    }

    /// The failure of a replay.
    fn failure(&self, alloc: Global, error: ReplayError) -> Failure {
        match error {
            ReplayError::Line(refused) => refused_line(alloc, self.path.as_str(), refused),
            ReplayError::Redo(RedoError::Refused(Refusal::NoMemory)) => {
                Failure::from(Refusal::NoMemory)
            }
            _ => Failure::of(
                alloc,
                Refusal::BadImage {
                    place: ImagePlace::Shape,
                },
                self.path.as_str(),
                "tells steps that the image does not take",
            ),
        }
    }
}

/// Refuses a number of steps that an image has counted already.
fn refuse_earlier(alloc: Global, options: ReplayOptions<'_>, image: &Image) -> Result<(), Failure> {
    let counted = image.counted().steps;
    match options.until {
        Until::Step(step) if step < counted => Err(Failure {
            refusal: Refusal::BadArguments,
            words: format!(in alloc;
                "{}: the image has counted {counted} steps",
                options.file
            ).ok(),
        }),
        _ => Ok(()),
    }
}

/// The step behind the one to which a replay goes.
fn one_further(until: Until) -> Until {
    match until {
        Until::Step(step) => Until::Step(step.saturating_add(1)),
        until => until,
    }
}

/// The image to which the beginning of a journal leads, and how many lines behind the first one were done whole. Where the step behind the
/// last one is one that the image takes with it, that is taken too.
pub fn replayed<R: Files<File = File>>(
    rt: &R,
    alloc: Global,
    options: ReplayOptions<'_>,
) -> Result<(Image, usize), Failure> {
    let sources = open(rt, alloc, options)?;
    let image = sources.image(alloc, options.file)?;
    if let Err(failure) = refuse_earlier(alloc, options, &image) {
        drop(image);
        return Err(failure);
    }
    let gone = match go_back_to(alloc, image, sources.text(), options.until) {
        Err(ReplayError::WithinCommit) => {
            let image = sources.image(alloc, options.file)?;
            go_back_to(alloc, image, sources.text(), one_further(options.until))
        }
        gone => gone,
    };
    match gone {
        Ok(found) => Ok(found),
        Err(error) => Err(sources.failure(alloc, error)),
    }
}

/// Saves an image at a path where nothing is.
pub fn save_at<R: Files>(
    rt: &R,
    program: &HostRuntime,
    alloc: Global,
    path: &str,
    image: Image,
) -> Result<(), Failure> {
    if is_there(rt, path) {
        drop(image);
        return Err(Failure::of(alloc, Refusal::WriteFault, path, "is there already"));
    }
    FileKeeper::new(program, Some(path), None, None, None).finish(alloc, image)
}
