//! What an image is held by: a script, or a server.
ghost use Rattle.std.specs.Prelude.{◌≡◌, IfOk, string_bytes};
ghost use Rattle.st_queries.specs.Hosts.{epoch as epoch_of};

use std::alloc::{AllocError, Global};

/// What is known of a program that holds an image.
#[derive(Clone, Copy, PartialEq, Eq, Debug)]
pub struct Host {
    /// When it began, in nanoseconds since 1970.
    pub start: u64,
    /// How many checkpoints there have been since.
    pub checkpoints: u64,
    /// How many sessions are open.
    pub sessions: u64,
    /// How many workers take steps.
    pub workers: u64,
}

impl Host {
    /// The same, after this many checkpoints.
    pub fn at(self, checkpoints: u64) -> Host
        ensures { result ≡ record self { checkpoints = checkpoints } }
    {
        Host {
            checkpoints,
            ..self
        }
    }
}

/// The text of the present epoch, which ends with a checkpoint and with the program: the start, a hyphen, and the number of checkpoints.
pub fn epoch(alloc: Global, host: Host) -> Result<String, AllocError>
    ensures { IfOk result (λ text. string_bytes text ≡ epoch_of host) }
{
    let mut text = host.start.to_string(alloc)?;
    text.push_str("-")?;
    text.push_str(host.checkpoints.to_string(alloc)?.as_str())?;
    Ok(text)
}
