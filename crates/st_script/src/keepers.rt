//! Who keeps the images that are saved.
ghost use Rattle.std.specs.Prelude.{◌≡◌, IfErr, IfOk};
ghost use Rattle.st_script.specs.Keepers.{IsFault, Replaces, SavesSnapshot, SavesSeen};
ghost use Rattle.st_file.specs.ImageSnapshots.{snapshot_of};

use crate::images::Image;
use st_classes::refusals::Refusal;
use st_file::image_snapshots::ImageSnapshot;
use st_wire::replies::Reply;
use std::alloc::Global;

/// How a journal is kept.
#[derive(Clone, Copy)]
pub struct JournalSettings {
    /// After how many milliseconds at the latest what has happened is in the journal; with 0 before each reply.
    pub pause: u32,
    /// The image is saved when the journal has so many megabytes more, or tells 31,250,000 times as many steps.
    pub save_after: u32,
}

/// Who appends to a journal, if there is one. One thread at a time does.
pub trait JournalWriter {
    ghost use Rattle.std.specs.Prelude.{IfErr};
    ghost use Rattle.st_script.specs.Keepers.{IsFault};

    /// Appends a batch to the journal: whole lines, and an empty line. At `Ok` it is on the disk.
    ///
    /// Refusals: `NoMemory`, `WriteFault`. After these a crash may leave it or not, and the next batch takes its place: so it begins with
    /// the same lines.
    fn append(&self, alloc: Global, batch: &[u8]) -> Result<(), Refusal>
        ensures { IfErr result IsFault };
}

/// Who keeps the images that are saved, and perhaps a journal of what happens between two saves. One thread at a time calls one method.
pub trait Keeper: JournalWriter {
    ghost use Rattle.std.specs.Prelude.{IfErr};
    ghost use Rattle.st_script.specs.Keepers.{Keeps, IsFault};

    /// Writes an image as it was at a moment beside the one that is kept. The answer is how many bytes its file has, which are on the disk
    /// then.
    ///
    /// Refusals: `BadArguments` if there is no place for it, `NoMemory`, `WriteFault`.
    fn write(&self, alloc: Global, snapshot: &ImageSnapshot) -> Result<u64, Refusal>
        ensures { Keeps snapshot.now result };

    /// Keeps the image that was written last in place of the one that was kept before. If there is a journal, it begins anew with what
    /// stands there behind so many bytes; until then nothing may be appended. At `Ok` all of that is on the disk.
    ///
    /// Refusals: `NoMemory`, `WriteFault`. After these the image that was kept before is there still, with its journal, or after
    /// `WriteFault` perhaps the new one, if that is not known to be on the disk.
    fn replace(&self, alloc: Global, from: u64) -> Result<(), Refusal>
        ensures { IfErr result IsFault };

    /// How the journal is kept, if there is one.
    fn journal(&self) -> Option<JournalSettings>;

    /// How many bytes the lines of the journal have; 0 if there is none.
    fn end(&self) -> u64;

    /// Tells what a command of a script has led to, if there is a journal: what there is of the image and was not told before.
    fn note(&self, alloc: Global, image: &Image);

    /// Tells that a command of a script has made a checkpoint, if there is a journal. All that was before was noted.
    fn note_checkpoint(&self, alloc: Global, image: &Image);

    /// Says why it could not keep an image or append to the journal last, if that is said anywhere and was not said yet. This may take
    /// its time, so it is asked where no other session waits for it.
    fn report_error(&self);
}

/// Nobody: there is no place for images.
pub struct Nobody;

impl JournalWriter for Nobody {
    fn append(&self, _alloc: Global, _batch: &[u8]) -> Result<(), Refusal> {
        Err(Refusal::WriteFault)
    }
}

impl Keeper for Nobody {
    fn write(&self, _alloc: Global, _snapshot: &ImageSnapshot) -> Result<u64, Refusal> {
        Err(Refusal::BadArguments)
    }

    fn replace(&self, _alloc: Global, _from: u64) -> Result<(), Refusal> {
        Err(Refusal::WriteFault)
    }

    fn journal(&self) -> Option<JournalSettings> {
        None
    }

    fn end(&self) -> u64 {
        0
    }

    fn note(&self, _alloc: Global, _image: &Image) {}

    fn note_checkpoint(&self, _alloc: Global, _image: &Image) {}

    fn report_error(&self) {}
}

/// The reply to one who wants an image saved, as it was at a moment, once that is written; or why it was not copied.
pub fn written<S: Keeper>(
    alloc: Global,
    keeper: &S,
    snapshot: Result<ImageSnapshot, Refusal>,
) -> Reply
    ensures { SavesSeen snapshot result }
{
    match snapshot {
        Ok(snapshot) => match keeper.write(alloc, &snapshot) {
            Ok(bytes) => Reply::Saved(bytes),
            Err(refusal) => Reply::Refused(refusal),
        },
        Err(refusal) => Reply::Refused(refusal),
    }
}

/// The reply once the image that was written is kept, if it was written.
pub fn replaced<S: Keeper>(alloc: Global, keeper: &S, from: u64, reply: Reply) -> Reply
    ensures { Replaces reply result }
{
    if !matches!(reply, Reply::Saved(_)) {
        return reply;
    }
    match keeper.replace(alloc, from) {
        Ok(()) => reply,
        Err(refusal) => Reply::Refused(refusal),
    }
}

/// What an image is now, or that there was no memory to copy that.
pub fn copied(alloc: Global, image: &Image) -> Result<ImageSnapshot, Refusal>
    ensures snapshot { IfOk result (λ m. m ≡ snapshot_of image.now) }
    ensures fault { IfErr result IsFault }
{
    match ImageSnapshot::of(alloc, image) {
        Ok(snapshot) => Ok(snapshot),
        Err(_) => Err(Refusal::NoMemory),
    }
}

/// The reply to one who wants an image saved as it is.
pub(crate) fn save<S: Keeper>(alloc: Global, keeper: &S, image: &Image) -> Reply
    ensures { SavesSnapshot (snapshot_of image.now) result }
{
    let snapshot = copied(alloc, image);
    let reply = written(alloc, keeper, snapshot);
    let reply = replaced(alloc, keeper, keeper.end(), reply);
    keeper.report_error();
    reply
}
