//! What can be done with a system, and what is answered.
use st_calls::calls::{Answer as CallAnswer, Call};
use st_classes::values::ActorId;
use st_turn::body::Stop;

/// One call of the image, or one thing that a worker does. Workers are named by their places, from 0.
#[derive(Drop)]
pub enum Event {
    /// A call that changes the image.
    Call(Call),
    /// A worker is given a claim of an actor.
    Checkout { worker: u32, actor: ActorId },
    /// A worker takes one step of its claim.
    Local(u32),
    /// A worker commits its claim.
    Commit(u32),
    /// A worker gives its claim back.
    Release(u32),
    /// A worker empties its caches.
    Forget(u32),
}

/// What an event that was not refused answers.
#[derive(Clone, Copy, PartialEq, Eq, Debug)]
pub enum Answer {
    /// What a call of the image answered.
    Called(CallAnswer),
    /// It is done.
    Done,
    /// Whether a step was taken, and if not, why.
    Stopped(Stop),
    /// The number of steps that were committed.
    Steps(u32),
}
