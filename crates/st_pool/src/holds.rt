//! What is done in one hold of the lock.
ghost use Rattle.std.specs.Prelude.{◌≡◌};
ghost use Rattle.st_pool.specs.Done.{Done, PoolView};

use crate::naming::Naming;
use crate::pool_state::PoolState;
use crate::shares::CallerShare;
use st_calls::calls::{Answer, Call};
use st_classes::refusals::Refusal;
use st_classes::values::Selector;
use st_mailbox::mailboxes::Mailbox;
use std::alloc::Global;

/// What is done in one hold of the lock: it may read the image, and make calls of it.
pub trait Job<K: Naming, M: Mailbox> {
    /// What comes of it.
    type Out;

    ghost done: { Self → PoolView → Done → Self.Out → PoolView → Done → Type 0 };

    fn run(self, alloc: Global, pool: &mut PoolState<K, M>, mine: &mut CallerShare<K>) -> Self::Out
        ensures { done self pool.old mine.old result pool.new mine.new };
}

/// What is read in one hold of the lock, by one who makes no call.
pub trait Reading<K: Naming, M: Mailbox> {
    /// What comes of it.
    type Out;

    fn read(self, alloc: Global, pool: &mut PoolState<K, M>) -> Self::Out
        ensures { pool.new ≡ pool.old };
}

/// What a hold of the lock waits for. It is looked at after each commit that has ended a turn, and after each checkpoint.
pub trait Condition<K: Naming, M: Mailbox> {
    fn holds(&self, pool: &PoolState<K, M>) -> bool;
}

/// One call.
#[derive(Drop)]
pub(crate) struct Calling {
    pub(crate) call: Call,
}

impl<K: Naming, M: Mailbox> Job<K, M> for Calling {
    ghost use Rattle.st_pool.specs.Calling.{PoolCalls};

    type Out = Result<Answer, Refusal>;

    ghost done = { λ c o d r p e. PoolCalls o d c.call r p e };

    fn run(
        self,
        alloc: Global,
        pool: &mut PoolState<K, M>,
        mine: &mut CallerShare<K>,
    ) -> Result<Answer, Refusal> {
        pool.apply(alloc, mine, self.call)
    }
}

/// A text is interned.
#[derive(Drop)]
pub(crate) struct Interning<'a> {
    pub(crate) text: &'a [u8],
}

impl<'a, K: Naming, M: Mailbox> Job<K, M> for Interning<'a> {
    ghost use Rattle.st_calls.specs.declared.calls.Answer.TheVariants as answers;
    ghost use Rattle.st_calls.specs.declared.calls.Call.TheVariants as calls;
    ghost use Rattle.st_calls.specs.Does.{told};
    ghost use Rattle.st_pool.specs.Calling.{PoolCalls};

    type Out = Result<Selector, Refusal>;

    ghost done = { λ j o d r p e. PoolCalls o d (calls.Intern j.text.now) (told answers.Interned r) p e };

    fn run(
        self,
        alloc: Global,
        pool: &mut PoolState<K, M>,
        mine: &mut CallerShare<K>,
    ) -> Result<Selector, Refusal> {
        pool.intern(alloc, mine, self.text)
    }
}
