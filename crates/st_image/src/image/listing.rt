//! Image::clients, counted, steps_at_base, edits_made and most_items: the clients that have sent a message, the counts, and the room
//! that is left.
use crate::counts::Counts;
use crate::image::Image;
use st_mailbox::mailboxes::Mailbox;
use std::alloc::{AllocError, Global};

impl<M: Mailbox> Image<M> {
    ghost use Rattle.std.specs.Prelude.{◌≡◌, IfOk};
    ghost use Rattle.st_image.specs.Counts.{CanBeCounted};
    ghost use Rattle.st_image.specs.Images.{counts_of, edits_made, world};

    /// The clients that have sent a message, in rising order, each with the number of its last message, which is at least 1.
    pub fn clients(&self, alloc: Global) -> Result<Vec<(u16, u64)>, AllocError>
        ensures { IfOk result (λ clients. clients.items ≡ (world self.now).clients) }
    {
        self.clients.list(alloc)
    }

    /// How many messages of clients were accepted, and how many steps were taken, since the image was new, also before it was loaded.
    /// Neither is more than 2^63 - 1. Checkpoints do not change them.
    pub fn counted(&self) -> Counts
        ensures counts { result ≡ counts_of self.now }
        ensures few { CanBeCounted result }
    {
        let earlier = self.earlier.counts();
        Counts {
            posts: earlier.posts + self.counts.posts,
            steps: earlier.steps + self.counts.steps,
        }
    }

    /// How many steps had been taken at the base: when the image was new or loaded, or had its last checkpoint.
    pub fn steps_at_base(&self) -> u64
        ensures { result ≡ self.now.standing.earlier.steps }
    {
        self.earlier.counts().steps
    }

    /// How many edits the run has accepted since the image was new or loaded; checkpoints do not change it.
    pub fn edits_made(&self) -> u32
        ensures { result ≡ edits_made self.now }
    {
        self.token.shown().known();
        self.earlier.edits() + self.edits_made
    }

    /// The most items that the history holds.
    pub fn most_items(&self) -> u32
        ensures { result ≡ self.now.most_items }
    {
        self.settings.history
    }
}
