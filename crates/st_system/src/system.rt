//! A system: one image and its workers. The events of the image alone are in system/image_events.rt, those of workers in
//! system/worker_events.rt.
ghost use Rattle.std.specs.Prelude.{◌≡◌, All, IfOk, length};
ghost use Rattle.std.specs.List.{AllZip};
ghost use Rattle.st_image.specs.Delivery.{HasDelivered};
ghost use Rattle.st_image.specs.Images.{world};
ghost use Rattle.st_image.specs.RanTargets.{EachStepRan};
ghost use Rattle.st_image.specs.WorldInvariant.{IsLawful};
ghost use Rattle.st_system.specs.Acts.{Acts, Leads};
ghost use Rattle.st_system.specs.Forgetting.{HasForgotten};
ghost use Rattle.st_system.specs.Happening.{Happen};
ghost use Rattle.st_system.specs.Others.{LeavesOthers};
ghost use Rattle.st_system.specs.Schedules.{schedule};
ghost use Rattle.st_system.specs.SystemWorkers.{AreValidWhereKept, JoinsSystem};
ghost use Rattle.st_system.specs.Segments.{HasSegments, IsSegment};
ghost use Rattle.st_system.specs.WorkerEvents.{TellsWork};

mod image_events;
mod worker_events;

use crate::events::{Answer, Event};
use crate::system_worker::SystemWorker;
use st_classes::refusals::Refusal;
use st_classes::version::Version;
use st_guard::guard::Guard;
use st_image::image::Image;
use st_mailbox::mailboxes::Mailbox;
use st_turn::worker::Worker;
use std::alloc::{AllocError, Global};
use std::marker::Model;

/// One image and many workers, each with at most one claim. Contracts see the image, and each worker's caches and claim.
#[derive(Drop)]
pub struct System<M: Mailbox, G: Guard> {
    image: Image<M>,
    workers: Vec<SystemWorker<G>>,
}

impl<M: Mailbox, G: Guard> Model for System<M, G> {
    ghost use Rattle.std.specs.Prelude.{All};
    ghost use Rattle.st_system.specs.SystemWorkers.{FitsWorker, SystemView};

    ghost Value = { SystemView G };

    ghost view = { λ s. record { image = s.image; workers = s.workers.items } };

    ghost invariant = { λ s. All (FitsWorker s.image) s.workers.items };
}

/// Each worker as it joins a system with this class table.
fn joined_workers<G: Guard>(
    alloc: Global,
    workers: Vec<Worker<G>>,
    version: &Version,
) -> Result<Vec<SystemWorker<G>>, AllocError>
    ensures { IfOk result (λ joined. AllZip (JoinsSystem version.now) workers.items joined.items) }
{
    let mut joined = Vec::with_capacity(alloc, workers.len())?;
    for worker in workers {
        joined.push(SystemWorker::new(worker, version))?;
    }
    Ok(joined)
}

impl<M: Mailbox, G: Guard> System<M, G> {
    /// An image, and workers without claims. A worker's caches are emptied if they keep a list of edits that is not a prefix of the
    /// image's; all others stay as they are.
    pub fn new(
        alloc: Global,
        image: Image<M>,
        workers: Vec<Worker<G>>,
    ) -> Result<System<M, G>, AllocError>
        ensures image { IfOk result (λ s. s.image ≡ image) }
        ensures workers { IfOk result (λ s. AllZip (JoinsSystem (world image).edits) workers.items s.workers) }
    {
        let joined = joined_workers(alloc, workers, image.version())?;
        Ok(System {
            image,
            workers: joined,
        })
    }

    /// The image.
    pub fn image(&self) -> &Image<M>
        ensures { result.now ≡ self.now.image }
    {
        &self.image
    }

    /// How many workers there are.
    pub fn workers(&self) -> usize
        ensures { result ≡ length self.now.workers }
    {
        self.workers.len()
    }

    /// If a worker's caches keep a list of edits, they are valid at it.
    fn known_caches(&self)
        ensures { All (λ s. AreValidWhereKept G.count G.floor s.caches) self.now.workers }
    {
        for worker in &self.workers {
            worker.known_caches();
        }
    }

    /// What holds of every system: its image is the replay of its history and has delivered; each step in that history that sent a
    /// message has run what the walk finds at the class table of its place; and if a worker's caches keep a list of edits, they are
    /// valid at it.
    pub fn known(&self)
        ensures replay { IsLawful self.now.image }
        ensures delivered { HasDelivered self.now.image }
        ensures sent { EachStepRan self.now.image }
        ensures caches { All (λ s. AreValidWhereKept G.count G.floor s.caches) self.now.workers }
    {
        self.image.known();
        self.image.delivered();
        self.image.sends_ran();
        self.known_caches();
    }

    /// Lets one event happen.
    ///
    /// An event of a worker is refused with `BadArguments` if there is no such worker, and so is a checkout by a worker that has a claim. A
    /// step, a commit and a release are refused with `NothingToDo` if the worker has no claim. Then come the refusals of the image's call.
    ///
    /// A commit that is refused with `Stale` or `Changed` takes the claim from the worker; after any other refused commit the worker keeps
    /// it. Otherwise a refused event changes nothing but names, empty rows of tallies and, if it is a step, the worker's caches. A worker
    /// that forgets has empty caches. An event of a worker leaves the caches and the claims of all others as they were, and an event of the
    /// image leaves those of all workers.
    ///
    /// A step moves the worker's caches to its claim's edits, and takes the step with them. A commit commits the worker's whole claim,
    /// with its sends and its stamp.
    pub fn apply(&mut self, alloc: Global, event: &Event) -> Result<Answer, Refusal>
        ensures acts { Acts (schedule self.old) event.now result (schedule self.new) }
        ensures forgotten { HasForgotten event.now self.new.workers }
        ensures others { LeavesOthers event.now self.old.workers self.new.workers }
        ensures work { TellsWork G.count G.floor G.raises self.old event.now result self.new }
    {
        match event {
            Event::Call(call) => self.call(alloc, call),
            Event::Checkout { worker, actor } => self.check_out(alloc, *worker, *actor),
            Event::Local(worker) => self.step(alloc, *worker),
            Event::Commit(worker) => self.commit(alloc, *worker),
            Event::Release(worker) => self.release(*worker),
            Event::Forget(worker) => self.forget(*worker),
        }
    }

    /// What holds of the image of every system, as the end of a segment.
    fn known_segment(&self)
        ensures { IsSegment self.now.image }
    {
        self.image.known();
        self.image.delivered();
        self.image.sends_ran();
    }

    /// Lets events happen in order. It goes on after a refused one. Each does what `apply` says.
    ///
    /// A checkpoint ends a segment, and the next one begins with the world where it ended. For every segment, also for the one that the
    /// system is in, the image at its end is the replay of the history since its beginning, its messages were delivered, and its sends ran
    /// what the walk finds. The settings are the same in all of them, and the names of each begin those of all later ones.
    pub fn run(&mut self, alloc: Global, events: &[Event])
        ensures led { Leads (schedule self.old) events.now (schedule self.new) }
        ensures happened { Happen G.count G.floor G.raises self.old events.now self.new }
        ensures segments { HasSegments self.old.image self.new.image }
        ensures replay { IsLawful self.new.image }
        ensures delivered { HasDelivered self.new.image }
        ensures sent { EachStepRan self.new.image }
        ensures caches { All (λ s. AreValidWhereKept G.count G.floor s.caches) self.new.workers }
    {
        self.known_segment();
        for event in events {
            let _answer: Result<_, _> = self.apply(alloc, event);
            self.known_segment();
        }
        self.known();
    }
}
