//! Image::failed_turns and failure: the turns that ended with a fault.
use crate::failures::Failed;
use crate::image::Image;
use st_mailbox::mailboxes::Mailbox;

impl<M: Mailbox> Image<M> {
    ghost use Rattle.std.specs.Prelude.{◌≡◌, length, slice_get};
    ghost use Rattle.std.specs.Option.{option_copied};
    ghost use Rattle.st_image.specs.Failures.{failures_of};
    ghost use Rattle.st_image.specs.NewestResults.{newest};

    /// How many turns have ended with a fault since the image was new or loaded, or since its last checkpoint.
    pub fn failed_turns(&self) -> u64
        ensures { result ≡ length (failures_of self.now) }
    {
        self.failures.count()
    }

    /// One of the newest 64 turns that ended with a fault since then, by its place among them, the oldest first.
    pub fn failure(&self, place: usize) -> Option<&Failed>
        ensures { option_copied result ≡ slice_get (newest (failures_of self.now)) place }
    {
        self.failures.get(place)
    }
}
