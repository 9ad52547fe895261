//! Image::checkpoint: the present world becomes the image's base.
use crate::base::Base;
use crate::changes::Changes;
use crate::counts::Counts;
use crate::earlier_counts::EarlierCounts;
use crate::failures::Failures;
use crate::history::Item;
use crate::image::Image;
use crate::tallies::Tallies;
use st_classes::values::ActorId;
use st_mailbox::mailboxes::Mailbox;
use std::alloc::{AllocError, Global};
use std::mem::replace;

impl<M: Mailbox> Image<M> {
    ghost use Rattle.std.specs.Prelude.{◌≡◌, ℕ, IfOk, OnOk, OnErr};
    ghost use Rattle.st_image.specs.Changes.{change_count};
    ghost use Rattle.st_image.specs.Checkpoints.{BeginsAnew};
    ghost use Rattle.st_image.specs.Commits.{changed_at};
    ghost use Rattle.st_image.specs.Images.{counts_of, edits_made, world};
    ghost use Rattle.st_image.specs.Parts.{rebase};

    /// All that was counted until now.
    fn counted_so_far(&self, alloc: Global) -> Result<EarlierCounts, AllocError>
        ensures changes { IfOk result (λ e. (a : ℕ) → change_count e.changes a ≡ changed_at self.now a) }
        ensures edits { IfOk result (λ e. e.edits ≡ edits_made self.now) }
        ensures posts { IfOk result (λ e. e.posts ≡ (counts_of self.now).posts) }
        ensures steps { IfOk result (λ e. e.steps ≡ (counts_of self.now).steps) }
    {
        let counts = self.counted();
        let edits = self.edits_made();
        self.earlier.with(alloc, &self.changes, edits, counts)
    }

    /// The present world as a base.
    fn present_base(&self, alloc: Global) -> Result<Base, AllocError>
        ensures { IfOk result (λ b. b ≡ rebase (world self.now)) }
    {
        let clients = self.clients(alloc)?;
        let mut base = Base::new(alloc, self.token.again()?, clients.as_slice());
        for actor in 0..self.actors() {
            let Ok(part) = self.part(alloc, ActorId(actor)) else {
                return Err(AllocError);
            };
            base.push(&part)?;
        }
        Ok(base)
    }

    /// The present world becomes the one that the image begins with, and the history is emptied. EarlierCounts results and the statistics are
    /// forgotten. Pending messages are turns 1 and on, and the turn that an actor is in, or has ended last, is turn 0. These stay: senders'
    /// numbers, the edits, the count of edits of the run, the place from which the next ready actor is looked for, the counts of posts and
    /// steps, and the claims that are out.
    ///
    /// It takes time and memory in proportion to the actors, their bodies and pending messages, and the clients. After an error nothing has
    /// changed.
    pub fn checkpoint(&mut self, alloc: Global) -> Result<(), AllocError>
        ensures ok { OnOk result (BeginsAnew self.old self.new) }
        ensures err { OnErr result (self.new ≡ self.old) }
    {
        let mut past = Vec::new(alloc);
        self.checkpoint_into(alloc, &mut past)
    }

    /// The same, and the history that is emptied takes the place of what is in `past`. It is moved there, and not copied. After an error
    /// nothing has changed there either.
    pub fn checkpoint_into(&mut self, alloc: Global, past: &mut Vec<Item>) -> Result<(), AllocError>
        ensures ok { OnOk result (BeginsAnew self.old self.new) }
        ensures past { OnOk result (past.new.items ≡ self.old.history) }
        ensures err { OnErr result ((self.new ≡ self.old) × (past.new ≡ past.old)) }
    {
        self.can_be_base();
        let base = self.present_base(alloc)?;
        let results = self.actors.last_results(alloc)?;
        let earlier = self.counted_so_far(alloc)?;
        let failures = Failures::none(alloc)?;
        self.actors.begin_anew(results);
        self.base = base;
        *past = replace(&mut self.history, Vec::new(alloc));
        self.edits_made = 0;
        self.tallies = Tallies::new(alloc);
        self.changes = Changes::new(alloc);
        self.counts = Counts { posts: 0, steps: 0 };
        self.earlier = earlier;
        self.failures = failures;
        Ok(())
    }
}
