//! What a call has answered, by the kind of the call. The answer to a call of another kind, which there is none of, is read as
//! `BadCommand`.
ghost use Rattle.std.specs.Prelude.{◌≡◌};
ghost use Rattle.st_pool.specs.Calling.{closed_in, counts_in, created_in, position_in, version_in};

use st_calls::calls::Answer;
use st_classes::refusals::Refusal;
use st_classes::values::ActorId;
use st_image::counts::Counts;

/// The version that a call answered.
pub(crate) fn version(answer: Result<Answer, Refusal>) -> Result<u32, Refusal>
    ensures { result ≡ version_in answer }
{
    match answer {
        Ok(Answer::Version(edits)) => Ok(edits),
        Ok(_) => Err(Refusal::BadCommand),
        Err(refusal) => Err(refusal),
    }
}

/// The number of a turn that a call answered.
pub(crate) fn position(answer: Result<Answer, Refusal>) -> Result<u64, Refusal>
    ensures { result ≡ position_in answer }
{
    match answer {
        Ok(Answer::Position(turn)) => Ok(turn),
        Ok(_) => Err(Refusal::BadCommand),
        Err(refusal) => Err(refusal),
    }
}

/// The actor that a call answered.
pub(crate) fn created(answer: Result<Answer, Refusal>) -> Result<ActorId, Refusal>
    ensures { result ≡ created_in answer }
{
    match answer {
        Ok(Answer::Created(actor)) => Ok(actor),
        Ok(_) => Err(Refusal::BadCommand),
        Err(refusal) => Err(refusal),
    }
}

/// That a call has closed a mailbox.
pub(crate) fn closed(answer: Result<Answer, Refusal>) -> Result<(), Refusal>
    ensures { result ≡ closed_in answer }
{
    match answer {
        Ok(Answer::Closed) => Ok(()),
        Ok(_) => Err(Refusal::BadCommand),
        Err(refusal) => Err(refusal),
    }
}

/// What a call answered that the image has counted.
pub(crate) fn counts(answer: Result<Answer, Refusal>) -> Result<Counts, Refusal>
    ensures { result ≡ counts_in answer }
{
    match answer {
        Ok(Answer::Counted(counts)) => Ok(counts),
        Ok(_) => Err(Refusal::BadCommand),
        Err(refusal) => Err(refusal),
    }
}
