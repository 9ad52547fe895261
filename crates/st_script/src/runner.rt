//! An image, with the worker that takes the steps of its actors.
ghost use Rattle.std.specs.Prelude.{◌≡◌, ◌≤◌, false, Ok, Err, IfOk, IfErr, IfSome, MatchOption, MatchResult};
ghost use Rattle.st_classes.specs.EditLists.{Begins};
ghost use Rattle.st_turn.specs.Idle.{is_idle};
ghost use Rattle.st_image.specs.GoingOn.{FitsClaim};
ghost use Rattle.st_script.specs.CommandReplies.{AsksImage};
ghost use Rattle.st_script.specs.Runners.{AreNew, NextAdvances, NoneReady, TakesQuantum, Works, quantum_answer};

use crate::asking::ask;
use crate::images::{Guard, Image, Worker};
use crate::quantum::Quantum;
use st_calls::claims;
use st_classes::refusals::Refusal;
use st_classes::values::ActorId;
use st_guard::caches::Caches;
use st_image::recycled::Recycled;
use st_queries::hosts::Host;
use st_turn::body::Stop;
use st_turn::claim::Claim;
use st_wire::commands::Command;
use st_wire::replies::Reply;
use std::alloc::{AllocError, Global};
use std::marker::Model;

/// An image and a worker. The edits that the worker's caches hold, if any, are a prefix of the image's. Contracts see the image and
/// the caches.
#[derive(Drop)]
pub struct Runner {
    image: Image,
    worker: Worker,
    /// What the last commit left, for the next checkout.
    recycled: Recycled,
    /// What is known of the program.
    host: Host,
}

impl Model for Runner {
    ghost use Rattle.st_script.specs.Runners.{RunnerView, KeepsFirst};

    ghost Value = { RunnerView };

    ghost view = { λ r. record { image = r.image; caches = r.worker } };

    ghost invariant = { λ r. KeepsFirst r.image r.worker };
}

/// A worker with new caches.
pub fn new_worker(alloc: Global) -> Result<Worker, AllocError>
    ensures { IfOk result AreNew }
{
    let caches = Caches::new(alloc, Guard::new(alloc))?;
    Ok(Worker::new(caches))
}

/// The answer of a quantum, from the results of its steps and of its commit.
fn answer(ran: Result<Stop, AllocError>, settled: Result<u32, Refusal>) -> Result<u32, Refusal>
    ensures { result ≡ quantum_answer ran settled }
{
    match (ran, settled) {
        (Ok(_), settled) => settled,
        (Err(_), Ok(_)) => Err(Refusal::NoMemory),
        (Err(_), Err(refusal)) => Err(refusal),
    }
}

/// Takes the steps of a quantum on a claim and commits them. There are fewer if no step is next or memory runs out.
fn work(
    alloc: Global,
    image: &mut Image,
    worker: &mut Worker,
    mut claim: Claim,
    quantum: Quantum,
    recycled: &mut Recycled,
) -> Result<u32, Refusal>
    requires follows { IfSome worker.old.kept (λ k. Begins k claim.edits) }
    requires fits { FitsClaim image.old claim }
    ensures works { Works quantum (record { image = image.old; caches = worker.old }) claim result (record { image = image.new; caches = worker.new }) }
    ensures kept { IfSome worker.new.kept (λ k. k ≡ claim.edits) }
    ensures some { is_idle claim.before.phase ≡ false → IfOk result (λ n. 1 ≤ n) }
{
    let ran = worker.run_unchecked(alloc, &mut claim, quantum.steps());
    claim.known();
    let settled = claims::settle(alloc, image, claim, true, recycled);
    answer(ran, settled)
}

/// What is known of the program behind a reply. A checkpoint that was made is one more.
fn behind(host: Host, reply: &Reply) -> Host {
    match reply {
        Reply::Counted { .. } => host.at(host.checkpoints.wrapping_add(1)),
        _ => host,
    }
}

impl Runner {
    /// Makes a runner of an image and a worker with new caches, in a program that began at `start`, in nanoseconds since 1970. If memory
    /// runs out, the image is given back.
    pub fn new(alloc: Global, start: u64, image: Image) -> Result<Runner, Image>
        ensures ok { IfOk result (λ r. (r.image ≡ image) × AreNew r.caches) }
        ensures err { IfErr result (λ i. i ≡ image) }
    {
        match new_worker(alloc) {
            Ok(worker) => Ok(Runner {
                image,
                worker,
                recycled: Recycled::none(),
                host: Host {
                    start,
                    checkpoints: 0,
                    sessions: 1,
                    workers: 1,
                },
            }),
            Err(_) => Err(image),
        }
    }

    pub fn into_image(self) -> Image
        ensures { result ≡ self.image }
    {
        self.image
    }

    pub(crate) fn image(&self) -> &Image
        ensures { result.now ≡ self.now.image }
    {
        &self.image
    }

    /// The reply to a command that needs the image alone.
    pub(crate) fn ask(&mut self, alloc: Global, command: Command) -> Reply
        ensures asks { AsksImage self.old.image command result self.new.image }
        ensures caches { self.new.caches ≡ self.old.caches }
    {
        self.image.known();
        let reply = ask(alloc, &mut self.image, &mut (), self.host, command);
        self.host = behind(self.host, &reply);
        self.image.known();
        reply
    }

    /// Checks an actor out, takes the steps of a quantum on its claim, and commits them. There are fewer if no step is next or
    /// memory runs out.
    fn advance(&mut self, alloc: Global, actor: ActorId, quantum: Quantum) -> Result<u32, Refusal>
        ensures takes { TakesQuantum quantum self.old actor result self.new }
        ensures some { IfOk result (λ n. 1 ≤ n) }
    {
        self.image.known();
        let claim = claims::check_out(alloc, &mut self.image, actor, &mut self.recycled)?;
        self.recycled.let_go();
        self.image.known();
        let result = work(
            alloc,
            &mut self.image,
            &mut self.worker,
            claim,
            quantum,
            &mut self.recycled,
        );
        self.image.known();
        result
    }

    /// Lets the next ready actor take a quantum. The answer is the number of steps, or `None` if no actor is ready. If the step
    /// after the quantum's own is one that the image takes, it is taken too and counted.
    ///
    /// If memory runs out among the steps, the steps before it are committed, and the answer is `NoMemory`. A claim whose commit is
    /// refused is released.
    pub(crate) fn take_quantum(
        &mut self,
        alloc: Global,
        quantum: Quantum,
    ) -> Result<Option<u32>, Refusal>
        ensures { MatchResult result
            (λ taken. MatchOption taken
            (NoneReady self.old × (self.new ≡ self.old))
            (λ n. NextAdvances quantum self.old (Ok n) self.new))
            (λ e. NextAdvances quantum self.old (Err e) self.new) }
    {
        let Some(actor) = self.image.next_ready() else {
            return Ok(None);
        };
        match self.advance(alloc, actor, quantum) {
            Ok(steps) => Ok(Some(steps)),
            Err(refusal) => Err(refusal),
        }
    }
}
