//! Loader::finish: the image of what was loaded.
ghost use Rattle.std.specs.Prelude.{◌≡◌, ◌≤◌, length, Decides, Err, IfOk, IfErr, OnOk};
ghost use Rattle.st_image.specs.Counts.{CanBeCounted};
ghost use Rattle.st_image.specs.declared.counts.Counts.{Counts as CountsOf};
ghost use Rattle.st_image.specs.Loaded.{AreBaseActors, AreBaseSenders, Finishes};

use crate::actor_part::ActorPart;
use crate::counts::Counts;
use crate::dropping::let_go;
use crate::fitting::actors_fit;
use crate::image::Image;
use crate::loader::Loader;
use crate::sequence_numbers::{in_sending_order, senders_are_there};
use st_classes::limits::ACTORS;
use st_classes::names::Names;
use st_classes::refusals::{ImagePlace, Refusal};
use st_classes::version::Version;
use st_mailbox::mailboxes::Mailbox;
use std::alloc::Global;

/// Whether actors are those of a base.
fn are_base_actors(names: &Names, version: &Version, parts: &[ActorPart]) -> bool
    ensures { Decides result (AreBaseActors names.now version.now parts.now) }
{
    if parts.len() > ACTORS {
        return false;
    }
    actors_fit(names, version, parts.len() as u32, parts) && senders_are_there(parts)
}

impl Loader {
    /// Whether these are actors and clients of a base with the names and the class table that were loaded; if not, why. Memory may run
    /// out.
    fn check_base(
        &self,
        alloc: Global,
        parts: &[ActorPart],
        clients: &[(u16, u64)],
    ) -> Result<(), Refusal>
        ensures ok { OnOk result (AreBaseActors self.now.names self.now.edits parts.now × AreBaseSenders self.now.edits parts.now clients.now) }
        ensures err { IfErr result (λ e. (counts : CountsOf) → Finishes self.now.names self.now.edits parts.now clients.now counts (Err e)) }
    {
        if !are_base_actors(&self.names, &self.version, parts) {
            return Err(Refusal::BadImage {
                place: ImagePlace::Actors,
            });
        }
        let is_in_order = in_sending_order(alloc, parts, clients)?;
        if !is_in_order {
            return Err(Refusal::BadImage {
                place: ImagePlace::Senders,
            });
        }
        Ok(())
    }

    /// The image that begins with the names and the class table that were loaded, these actors, and these clients with the numbers of
    /// their last messages. It goes on from these counts of posts and steps, has the default settings, and its history is empty.
    ///
    /// Refusals, in this order: `BadImage` at the actors, if there are more than 65,536, one is not an actor of a world with these names,
    /// this table and this many actors, or an actor that sent a message does not exist; `BadImage` at the senders, if clients do not
    /// rise, a client's last number is 0, the numbers of a sender do not rise in a mailbox, one is 0 or above its sender's last, or one
    /// is in two mailboxes.
    pub fn finish<M: Mailbox>(
        self,
        alloc: Global,
        parts: Vec<ActorPart>,
        clients: Vec<(u16, u64)>,
        counts: Counts,
    ) -> Result<Image<M>, Refusal>
        requires { CanBeCounted counts }
        ensures { Finishes self.names self.edits parts.items clients.items counts result }
    {
        self.known();
        match self.check_base(alloc, parts.as_slice(), clients.as_slice()) {
            Ok(()) => {
                let Loader { names, version } = self;
                Ok(Image::at_base(alloc, names, version, parts, clients, counts)?)
            }
            Err(refusal) => Err(let_go(clients, let_go(parts, let_go(self, refusal)))),
        }
    }
}
