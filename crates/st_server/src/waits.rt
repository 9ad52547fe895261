//! What a session waits for.
use st_classes::refusals::Refusal;
use st_classes::values::ActorId;
use st_pool::holds::Condition;
use st_pool::naming::Naming;
use st_pool::pool_state::PoolState;
use st_queries::hosts::{Host, epoch};
use st_script::images::Mailbox;
use st_wire::commands::Command;
use std::alloc::Global;
use std::time::Duration;

/// The end of a turn, or of the epoch in which it is numbered.
#[derive(Clone, Copy)]
pub(crate) struct TurnEnd {
    actor: ActorId,
    turn: u64,
    /// How many checkpoints there had been in that epoch.
    checkpoints: u64,
}

/// How many checkpoints there had been in an epoch of a program, by its text.
fn checkpoints_in(alloc: Global, host: Host, text: &[u8]) -> Option<u64> {
    let text = str::from_utf8(text).ok()?;
    let (_, count) = text.split_once('-')?;
    let count = count.parse::<u64>().ok()?;
    let same = epoch(alloc, host.at(count)).ok()?;
    (same.as_str() == text).then_some(count)
}

impl TurnEnd {
    /// What a command waits for, and how long at most. An epoch of another program is over.
    pub(crate) fn of(alloc: Global, host: Host, command: &Command) -> Option<(TurnEnd, Duration)> {
        let Command::Wait {
            actor,
            epoch,
            ms,
            turn,
        } = command
        else {
            return None;
        };
        let end = TurnEnd {
            actor: *actor,
            turn: *turn,
            checkpoints: checkpoints_in(alloc, host, epoch.as_slice())?,
        };
        Some((end, Duration::from_millis(u64::from(*ms))))
    }
}

impl<K: Naming> Condition<K, Mailbox> for TurnEnd {
    fn holds(&self, pool: &PoolState<K, Mailbox>) -> bool {
        pool.checkpoints() != self.checkpoints
            || !matches!(
                pool.image().outcome(self.actor, self.turn),
                Err(Refusal::Pending)
            )
    }
}
