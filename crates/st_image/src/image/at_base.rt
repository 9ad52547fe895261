//! The image at a base.
use crate::actor_part::ActorPart;
use crate::actors::Actors;
use crate::base::Base;
use crate::changes::Changes;
use crate::clients::Clients;
use crate::counts::Counts;
use crate::earlier_counts::EarlierCounts;
use crate::failures::Failures;
use crate::image::Image;
use crate::settings::Settings;
use crate::tallies::Tallies;
use st_classes::names::Names;
use st_classes::token::Token;
use st_classes::version::Version;
use st_mailbox::mailboxes::Mailbox;
use std::alloc::{AllocError, Global};

/// What is made for an image at a base: a pointer to its class table, the base, its actors from the parts, and its clients.
#[derive(Drop)]
struct Made<M: Mailbox> {
    token: Token,
    base: Base,
    actors: Actors<M>,
    clients: Clients,
}

impl<M: Mailbox> Made<M> {
    ghost use Rattle.std.specs.Prelude.{◌≡◌, ◌≤◌, ℕ, length, map, replicate, All, IfOk};
    ghost use Rattle.st_image.specs.ActorViews.{actor_view};
    ghost use Rattle.st_image.specs.Clients.{number_of};
    ghost use Rattle.st_image.specs.Parts.{FitsMailbox, actor_of, world_of_parts};
    ghost use Rattle.st_image.specs.Worlds.{client_last};
    ghost use Rattle.st_image.specs.declared.actor_part.ActorPart.{ActorPart as PartOf};

    fn of(
        alloc: Global,
        version: Version,
        parts: Vec<ActorPart>,
        clients: &[(u16, u64)],
    ) -> Result<Made<M>, AllocError>
        requires few { length parts.items ≤ 65536 }
        requires fit { All FitsMailbox parts.items }
        ensures token { IfOk result (λ m. m.token ≡ version) }
        ensures base { IfOk result (λ m. m.base ≡ world_of_parts version parts.items clients.now) }
        ensures actors { IfOk result (λ m. m.actors ≡ record { list = map (λ (p : PartOf). actor_view (actor_of p)) parts.items; out = replicate (length parts.items) 0 }) }
        ensures clients { IfOk result (λ m. (s : ℕ) → client_last s clients.now ≡ number_of m.clients s) }
    {
        let token = Token::publish(alloc, version)?;
        let base = Base::of(alloc, token.again()?, parts.as_slice(), clients)?;
        let actors = Actors::from_parts(alloc, parts)?;
        let clients = Clients::from_pairs(alloc, clients)?;
        Ok(Made {
            token,
            base,
            actors,
            clients,
        })
    }
}

impl<M: Mailbox> Image<M> {
    ghost use Rattle.std.specs.Prelude.{◌≡◌, IfOk};
    ghost use Rattle.st_classes.specs.EditLists.{AllSuit};
    ghost use Rattle.st_image.specs.CompiledEdits.{AllCompiled};
    ghost use Rattle.st_image.specs.Counts.{CanBeCounted};
    ghost use Rattle.st_image.specs.Loaded.{AreBaseActors, AreBaseSenders, loaded_image};

    /// The image at a base, with the counts of posts and steps before it and the default settings.
    pub(crate) fn at_base(
        alloc: Global,
        names: Names,
        version: Version,
        parts: Vec<ActorPart>,
        clients: Vec<(u16, u64)>,
        counts: Counts,
    ) -> Result<Image<M>, AllocError>
        requires suited { AllSuit names version }
        requires compiled { AllCompiled names version }
        requires actors { AreBaseActors names version parts.items }
        requires senders { AreBaseSenders version parts.items clients.items }
        requires counts { CanBeCounted counts }
        ensures { IfOk result (λ i. i ≡ loaded_image names version parts.items clients.items counts) }
    {
        names.known();
        version.known();
        let made = Made::of(alloc, version, parts, clients.as_slice())?;
        let failures = Failures::none(alloc)?;
        Ok(Image {
            base: made.base,
            names,
            token: made.token,
            actors: made.actors,
            clients: made.clients,
            history: Vec::new(alloc),
            edits_made: 0,
            settings: Settings::DEFAULT,
            next_from: 0,
            tallies: Tallies::new(alloc),
            changes: Changes::new(alloc),
            counts: Counts { posts: 0, steps: 0 },
            earlier: EarlierCounts::counted(alloc, counts),
            failures,
        })
    }
}
