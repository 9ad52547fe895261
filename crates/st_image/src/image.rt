//! The image: construction, readers, interning, new actors, and the laws of images. Edits and installs, posts, closing, checkouts
//! and commits, checkpoints, statistics, and the list of clients are in image/.
ghost use Rattle.st_image.specs.Changes.{BodiesStay};
ghost use Rattle.st_image.specs.Checkpoints.{LeavesClaims};
ghost use Rattle.st_image.specs.Delivery.{Delivers};
ghost use Rattle.st_image.specs.OneClaim.{CountsOnItsBody};
ghost use Rattle.st_image.specs.WorldInvariant.{NamesMayGrow};

mod at_base;
mod checking_out;
mod checkpointing;
mod closing;
mod committing;
mod defining;
mod failing;
mod installing;
mod listing;
mod parting;
mod posting;
mod removing;
mod reparenting;
mod statistics;

use crate::actor::Actor;
use crate::actors::Actors;
use crate::base::Base;
use crate::changes::Changes;
use crate::clients::Clients;
use crate::counts::Counts;
use crate::earlier_counts::EarlierCounts;
use crate::failures::Failures;
use crate::history::Item;
use crate::settings::Settings;
use crate::tallies::Tallies;
use st_classes::kernel::is_value_class;
use st_classes::limits::ACTORS;
use st_classes::names::Names;
use st_classes::refusals::{Limited, Refusal};
use st_classes::token::Token;
use st_classes::values::{ActorId, ClassId, Selector};
use st_classes::version::Version;
use st_mailbox::mailboxes::Mailbox;
use st_mailbox::messages::Sender;
use st_turn::body::{Body, Outcome};
use std::alloc::{AllocError, Global};
use std::marker::Model;

/// Each actor has begun a prefix of what its mailbox accepted, every message once, each sender's in sending order, and none accepted
/// after close. Whatever happens later, what a mailbox accepted stays accepted, what an actor began stays begun, and results stay.
pub fn delivery()
    ensures { Delivers }
{}

/// New names change nothing in a history: it stays lawful with more names, and leads to the same world.
pub fn names_may_grow()
    ensures { NamesMayGrow }
{}

/// An actor's body is changed only by the beginning of its messages and by its own steps.
pub fn bodies_stay()
    ensures { BodiesStay }
{}

/// The steps of a claim count only if its actor still has the body that the claim began with, and they are then steps of the present
/// class table. So after a commit that changed the body, a second claim on the body before is refused as `Changed` if it survives.
pub fn one_claim_counts()
    ensures { CountsOnItsBody }
{}

/// A checkpoint changes nothing for a claim that is out: the claim commits afterwards as it would have before, and is refused as
/// `Stale` or `Changed` exactly if it would have been.
pub fn checkpoint_leaves_claims()
    ensures { LeavesClaims }
{}

/// The kernel's names, and two pointers to its class table.
#[derive(Drop)]
struct KernelParts {
    names: Names,
    token: Token,
    table: Token,
}

impl KernelParts {
    ghost use Rattle.std.specs.Prelude.{◌≡◌, [], IfOk};
    ghost use Rattle.st_classes.specs.Kernel.{kernel_selectors};

    fn of(alloc: Global) -> Result<KernelParts, AllocError>
        ensures names { IfOk result (λ k. k.names ≡ kernel_selectors) }
        ensures token { IfOk result (λ k. k.token ≡ []) }
        ensures table { IfOk result (λ k. k.table ≡ []) }
    {
        let token = Token::publish(alloc, Version::kernel(alloc)?)?;
        let table = token.again()?;
        Ok(KernelParts {
            names: Names::kernel(alloc)?,
            token,
            table,
        })
    }
}

/// An image: a class table, actors, and the history that led to them.
///
/// Contracts see the world that it began with, its names, its history, its settings, and what it keeps beside its world: the number
/// from which the next ready actor is looked for, how many claims of each actor are out, the tallies of call sites, and what was
/// counted before it began. All else follows from the history.
#[derive(Drop)]
pub struct Image<M: Mailbox> {
    /// The world that it began with.
    base: Base,
    names: Names,
    /// The present class table.
    token: Token,
    actors: Actors<M>,
    clients: Clients,
    /// How many edits are in the history.
    edits_made: u32,
    settings: Settings,
    tallies: Tallies,
    changes: Changes,
    earlier: EarlierCounts,
    /// The newest turns that ended with a fault.
    failures: Failures,
    // Each quantum writes what follows, so it lies together: a processor that holds a lock on the image waits for fewer lines of memory.
    history: Vec<Item>,
    /// The posts and the steps of the history.
    counts: Counts,
    /// The number from which the next ready actor is looked for.
    next_from: u32,
}

impl<M: Mailbox> Model for Image<M> {
    ghost use Rattle.st_image.specs.Images.{ImageView};

    ghost Value = { ImageView };

    ghost use Rattle.st_image.specs.ImageInvariant.{HoldsImage};
    ghost use Rattle.st_image.specs.ClaimsOut.{trimmed};

    ghost view = { λ i. record { base = i.base; names = i.names; history = i.history.items; capacity = i.settings.capacity; most_items = i.settings.history; standing = record { next_from = i.next_from; claims_out = trimmed i.actors.out; tallies = i.tallies; earlier = i.earlier } } };

    ghost invariant = { λ i. HoldsImage i.base i.names i.token i.actors.list i.history.items i.edits_made i.settings i.clients i.tallies i.changes i.counts i.earlier i.failures };
}

impl<M: Mailbox> Image<M> {
    ghost use Rattle.std.specs.Prelude.{◌≡◌, ◌+◌, ◌<◌, [], ◌∷◌, length, slice_get, OnOk, OnErr, MatchResult, IfSome, IfNone, IfOk, IfErr, None, Some, Err, ℕ, false, option_map};
    ghost use Rattle.st_image.specs.ActorViews.{actor_view};
    ghost use Rattle.st_classes.specs.declared.refusals.Refusal.TheVariants.{NoMemory};
    ghost use Rattle.st_classes.specs.Names.{interned, intern_rules, is_name};
    ghost use Rattle.st_classes.specs.Refusals.{first_of, Answers};
    ghost use Rattle.st_image.specs.Calls.{Creates};
    ghost use Rattle.st_image.specs.CompiledEdits.{AllCompiled};
    ghost use Rattle.st_image.specs.Images.{create_rules, new_image, no_room, settings_rules, world};
    ghost use Rattle.st_image.specs.PostRules.{sender_last as last_of_sender};
    ghost use Rattle.st_image.specs.Outcomes.{image_outcome};
    ghost use Rattle.st_image.specs.Worlds.{mailbox_of};
    ghost use Rattle.std.specs.Option.{option_copied};
    ghost use Rattle.st_image.specs.Scheduling.{IsNextReady, is_free_at};
    ghost use Rattle.st_image.specs.Delivery.{HasDelivered};
    ghost use Rattle.st_image.specs.RanTargets.{EachStepRan};
    ghost use Rattle.st_image.specs.WorldInvariant.{IsLawful};

    /// An image with the kernel's names and classes, no actors and no history.
    ///
    /// `BadArguments` if a setting is out of its range.
    pub fn new(alloc: Global, settings: Settings) -> Result<Image<M>, Refusal>
        ensures { Answers (first_of (settings_rules settings)) result (λ i. i ≡ new_image settings) }
    {
        if let Some(refusal) = settings.refusal() {
            return Err(refusal);
        }
        let first = KernelParts::of(alloc)?;
        let failures = Failures::none(alloc)?;
        Ok(Image {
            base: Base::new(alloc, first.table, &[]),
            names: first.names,
            token: first.token,
            actors: Actors::new(alloc),
            clients: Clients::new(alloc),
            history: Vec::new(alloc),
            edits_made: 0,
            settings,
            next_from: 0,
            tallies: Tallies::new(alloc),
            changes: Changes::new(alloc),
            counts: Counts { posts: 0, steps: 0 },
            earlier: EarlierCounts::counted(alloc, Counts { posts: 0, steps: 0 }),
            failures,
        })
    }

    /// Replaces the capacity of new mailboxes and the limit of the history. The history has to be empty.
    ///
    /// `BadArguments` if a setting is out of its range. A refused call changes nothing.
    pub fn set(&mut self, settings: Settings) -> Result<(), Refusal>
        requires { self.old.history ≡ [] }
        ensures { MatchResult result
            (λ _. (first_of (settings_rules settings) ≡ None) × (self.new ≡ record self.old { capacity = settings.capacity; most_items = settings.history }))
            (λ e. (first_of (settings_rules settings) ≡ Some e) × (self.new ≡ self.old)) }
    {
        if let Some(refusal) = settings.refusal() {
            return Err(refusal);
        }
        self.settings = settings;
        Ok(())
    }

    /// What holds of every image.
    pub fn known(&self)
        ensures { IsLawful self.now }
    {
        self.actors.len();
    }

    /// Each installed method is the one that its own source spells, compiled in its class at the edits before it.
    pub fn all_compiled(&self)
        ensures { AllCompiled self.now.names (world self.now).edits }
    {
        self.actors.len();
    }

    /// Over each prefix of the history, each actor had begun a prefix of what its mailbox had accepted, every message once and each
    /// sender's in sending order. Both have only grown since, and a mailbox that was closed has accepted nothing since.
    pub fn delivered(&self)
        ensures { HasDelivered self.now }
    {
        self.known();
    }

    /// Each step in the history that sent a message has run what the walk up the superclass chain finds at the class table of that
    /// place: a user's method that is current in it, a method of the kernel, the user's method for `doesNotUnderstand:`, or none.
    pub fn sends_ran(&self)
        ensures { EachStepRan self.now }
    {
        self.known();
    }

    /// All that happened since the image was made or loaded, or since its last checkpoint, in order.
    pub fn history(&self) -> &[Item]
        ensures { result.now ≡ self.now.history }
    {
        self.history.as_slice()
    }

    /// The selectors and symbols by their numbers.
    pub fn names(&self) -> &Names
        ensures { result.now ≡ self.now.names }
    {
        &self.names
    }

    /// The class table.
    pub fn version(&self) -> &Version
        ensures { result.now ≡ (world self.now).edits }
    {
        self.token.shown()
    }

    /// The class table, as a pointer that can be shared.
    pub fn token(&self) -> &Token
        ensures { result.now ≡ (world self.now).edits }
    {
        &self.token
    }

    /// The number of actors, at most 65,536.
    pub fn actors(&self) -> u32
        ensures { result ≡ length (world self.now).actors }
    {
        self.actors.len() as u32
    }

    /// The number of a selector. A new one is appended to the names.
    ///
    /// `BadName` if the text is no selector; `TooMany` if it is new and there are 8,192 names. Memory can run out only if the text is new.
    /// A refused call changes nothing.
    pub fn intern(&mut self, alloc: Global, text: &[u8]) -> Result<Selector, Refusal>
        ensures answers { Answers (first_of (intern_rules self.old.names text.now)) result (λ s. slice_get self.new.names s.0 ≡ Some text.now) }
        ensures names { OnOk result (self.new ≡ record self.old { names = interned self.old.names text.now }) }
        ensures unchanged { OnErr result (self.new ≡ self.old) }
        ensures world { world self.new ≡ world self.old }
        ensures memory { IfErr result (λ e. e ≡ NoMemory → (first_of (intern_rules self.old.names text.now) ≡ None) × (is_name self.old.names text.now ≡ false)) }
    {
        self.names.intern(alloc, text)
    }

    /// How a turn of an actor ended. Turns are numbered like the actor's messages: from 1 those that were pending when the image was
    /// loaded or had its last checkpoint, then those accepted since. Turn 0 is the one that the actor was in, or had ended, at that time.
    ///
    /// Refusals, in this order: `UnknownActor`; `Expired` for turn 0 if the actor began with none, and for a turn whose result is no
    /// longer among the newest 64; `Pending` if the turn has not ended, or there is none.
    pub fn outcome(&self, actor: ActorId, turn: u64) -> Result<Outcome, Refusal>
        ensures { result ≡ image_outcome self.now actor turn }
    {
        match self.actors.get(actor) {
            Some(found) => found.outcome(self.base.first_turn(actor), turn),
            None => Err(Refusal::UnknownActor),
        }
    }

    /// The first ready actor without a claim out, in cyclic order of numbers after the actor that was checked out last. An actor is ready
    /// if it is in a turn or has a message pending.
    pub fn next_ready(&self) -> Option<ActorId>
        ensures some { IfSome result (λ a. IsNextReady self.now a.0) }
        ensures none { IfNone result ((a : ℕ) → is_free_at self.now a ≡ false) }
    {
        let Some(actor) = self.actors.next(self.next_from) else {
            return None;
        };
        Some(ActorId(actor))
    }

    /// The class of an actor.
    pub fn class(&self, actor: ActorId) -> Option<ClassId>
        ensures { result ≡ option_map (λ b. b.class) (slice_get (world self.now).actors actor.0) }
    {
        Some(self.actor(actor)?.class())
    }

    /// The body of an actor.
    pub fn body(&self, actor: ActorId) -> Option<&Body>
        ensures { option_copied result ≡ option_map (λ b. b.body) (slice_get (world self.now).actors actor.0) }
    {
        Some(self.actor(actor)?.body())
    }

    /// The mailbox of an actor: the messages that it accepted and the actor has not begun, in order.
    pub fn mailbox(&self, actor: ActorId) -> Option<&M>
        ensures { option_map (λ b. M.shown b) (option_copied result) ≡ option_map mailbox_of (slice_get (world self.now).actors actor.0) }
    {
        Some(self.actor(actor)?.mailbox())
    }

    /// The number of the last message of an actor that a mailbox accepted; 0 if there is none.
    pub fn last_sent(&self, actor: ActorId) -> Option<u64>
        ensures { result ≡ option_map (λ b. b.last) (slice_get (world self.now).actors actor.0) }
    {
        Some(self.actor(actor)?.last())
    }

    /// How many messages the mailbox of an actor has accepted since the base; those that were pending there count too.
    pub fn accepted(&self, actor: ActorId) -> Option<u64>
        ensures { result ≡ option_map (λ b. length b.accepted) (slice_get (world self.now).actors actor.0) }
    {
        Some(self.actor(actor)?.accepted())
    }

    /// The actor with this number, if there is one.
    fn actor(&self, actor: ActorId) -> Option<&Actor<M>>
        ensures { option_copied result ≡ option_map actor_view (slice_get (world self.now).actors actor.0) }
    {
        self.actors.get(actor)
    }

    /// The last number of a sender, if it exists; that of a client is 0 at first.
    fn sender_last(&self, sender: Sender) -> Option<u64>
        ensures { result ≡ last_of_sender (world self.now) sender }
    {
        match sender {
            Sender::Client(client) => Some(self.clients.last(client)),
            Sender::Actor(actor) => self.last_sent(actor),
        }
    }

    /// Why the history has no room for this many more items, if it has none.
    fn room_refusal(&self, items: u32) -> Option<Refusal>
        requires { items < 3 }
        ensures { result ≡ first_of (no_room self.now items ∷ []) }
    {
        if (self.settings.history as usize) < self.history.len() + items as usize {
            Some(Refusal::HistoryFull)
        } else {
            None
        }
    }

    /// Why a new actor is refused, if it is.
    fn create_refusal(&self, class: ClassId) -> Option<Refusal>
        ensures { result ≡ first_of (create_rules self.now class) }
    {
        if u32::from(class.0) >= self.version().classes() {
            return Some(Refusal::UnknownClass);
        }
        if is_value_class(class) {
            return Some(Refusal::KernelClass);
        }
        if self.actors.len() >= ACTORS {
            return Some(Refusal::TooMany {
                what: Limited::Actors,
            });
        }
        self.room_refusal(1)
    }

    /// A new actor of a class, with the capacity that is set. Actors are numbered from 0.
    ///
    /// Refusals, in this order: `UnknownClass`; `KernelClass` for classes 1 to 7; `TooMany` if there are 65,536 actors; `HistoryFull`.
    /// Memory can run out only if none of these applies. A refused call changes nothing.
    pub fn create(&mut self, alloc: Global, class: ClassId) -> Result<ActorId, Refusal>
        ensures { Creates self.old class result self.new }
    {
        if let Some(refusal) = self.create_refusal(class) {
            return Err(refusal);
        }
        self.history.reserve(1)?;
        let slots = self.token.shown().slots(class).len();
        let body = Body::fresh(alloc, class, slots)?;
        let capacity = self.settings.capacity;
        let number = self.actors.len() as u32;
        let actor = Actor::new(alloc, class, capacity, body)?;
        self.actors.push(actor)?;
        self.history.push(Item::Created(class)).unwrap();
        Ok(ActorId(number))
    }
}
