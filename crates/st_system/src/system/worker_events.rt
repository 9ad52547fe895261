//! Events of a worker.
use crate::events::Answer;
use crate::system::System;
use st_classes::refusals::Refusal;
use st_classes::values::ActorId;
use st_guard::guard::Guard;
use st_mailbox::mailboxes::Mailbox;
use std::alloc::Global;

impl<M: Mailbox, G: Guard> System<M, G> {
    ghost use Rattle.st_system.specs.declared.events.Event.TheVariants.{Checkout as CheckoutOf, Local as LocalOf, Commit as CommitOf, Release as ReleaseOf, Forget as ForgetOf};
    ghost use Rattle.std.specs.Prelude.{IfSome, slice_get};
    ghost use Rattle.st_system.specs.Acts.{Acts};
    ghost use Rattle.st_system.specs.Others.{LeavesOthers};
    ghost use Rattle.st_system.specs.SystemWorkers.{HaveNothing};
    ghost use Rattle.st_system.specs.WorkerEvents.{TellsWork};
    ghost use Rattle.st_system.specs.Schedules.{schedule};

    pub(super) fn check_out(
        &mut self,
        alloc: Global,
        worker: u32,
        actor: ActorId,
    ) -> Result<Answer, Refusal>
        ensures acts { Acts (schedule self.old) (CheckoutOf worker actor) result (schedule self.new) }
        ensures others { LeavesOthers (CheckoutOf worker actor) self.old.workers self.new.workers }
        ensures work { TellsWork G.count G.floor G.raises self.old (CheckoutOf worker actor) result self.new }
    {
        let place = worker as usize;
        if place >= self.workers.len() {
            return Err(Refusal::BadArguments);
        }
        let system_worker = &mut self.workers[place];
        system_worker.check_out(alloc, &mut self.image, actor)
    }

    pub(super) fn step(&mut self, alloc: Global, worker: u32) -> Result<Answer, Refusal>
        ensures acts { Acts (schedule self.old) (LocalOf worker) result (schedule self.new) }
        ensures others { LeavesOthers (LocalOf worker) self.old.workers self.new.workers }
        ensures work { TellsWork G.count G.floor G.raises self.old (LocalOf worker) result self.new }
    {
        let place = worker as usize;
        if place >= self.workers.len() {
            return Err(Refusal::BadArguments);
        }
        let system_worker = &mut self.workers[place];
        system_worker.step(alloc)
    }

    pub(super) fn commit(&mut self, alloc: Global, worker: u32) -> Result<Answer, Refusal>
        ensures acts { Acts (schedule self.old) (CommitOf worker) result (schedule self.new) }
        ensures others { LeavesOthers (CommitOf worker) self.old.workers self.new.workers }
        ensures work { TellsWork G.count G.floor G.raises self.old (CommitOf worker) result self.new }
    {
        let place = worker as usize;
        if place >= self.workers.len() {
            return Err(Refusal::BadArguments);
        }
        let system_worker = &mut self.workers[place];
        system_worker.commit(alloc, &mut self.image)
    }

    pub(super) fn release(&mut self, worker: u32) -> Result<Answer, Refusal>
        ensures acts { Acts (schedule self.old) (ReleaseOf worker) result (schedule self.new) }
        ensures others { LeavesOthers (ReleaseOf worker) self.old.workers self.new.workers }
        ensures work { TellsWork G.count G.floor G.raises self.old (ReleaseOf worker) result self.new }
    {
        let place = worker as usize;
        if place >= self.workers.len() {
            return Err(Refusal::BadArguments);
        }
        let system_worker = &mut self.workers[place];
        system_worker.release(&mut self.image)
    }

    pub(super) fn forget(&mut self, worker: u32) -> Result<Answer, Refusal>
        ensures acts { Acts (schedule self.old) (ForgetOf worker) result (schedule self.new) }
        ensures others { LeavesOthers (ForgetOf worker) self.old.workers self.new.workers }
        ensures work { TellsWork G.count G.floor G.raises self.old (ForgetOf worker) result self.new }
        ensures forgotten { IfSome (slice_get self.new.workers worker) (λ s. HaveNothing s.caches) }
    {
        let place = worker as usize;
        if place >= self.workers.len() {
            return Err(Refusal::BadArguments);
        }
        let system_worker = &mut self.workers[place];
        system_worker.forget();
        Ok(Answer::Done)
    }
}
