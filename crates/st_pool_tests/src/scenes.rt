//! The scenes, and what each is played with.
ghost use Rattle.std.specs.Prelude.{◌≤◌};

use st_image::settings::Settings;

/// What callers do while workers run.
#[derive(Clone, Copy, PartialEq, Eq, Debug)]
pub enum Scene {
    /// Two actors are asked, whose quanta overlap.
    Overlap,
    /// Four actors are asked, whose quanta all overlap.
    OverlapOfFour,
    /// Two actors take short quanta, each of which overlaps with one of the other's.
    Pace,
    /// A message that is not understood, is understood, and is not.
    NotUnderstood,
    /// A mailbox is closed in which two messages wait.
    Closing,
    /// Numbers of a sender, of which one comes twice.
    Numbers,
    /// A method is replaced that a claim has used.
    UsedSelector,
    /// A method is installed that no claim has used.
    UnusedSelector,
    /// A class gets another superclass between two messages.
    Reparented,
    /// No item is left in the history to begin a message.
    FullAtCheckout,
    /// No item is left in the history for the steps of a quantum.
    FullAtCommit,
    /// The same, and a caller calls before the worker waits.
    LateWait,
    /// The same, and a checkpoint makes room.
    RoomAgain,
    /// Nobody asks anything.
    Rest,
    /// The workers are told to stop while one has a claim.
    Stopping,
    /// The same, and its turn has no end.
    Endless,
    /// A turn of more steps than the longest quantum has.
    LongTurn,
    /// Turns of unlike length, while a caller looks all the time, so that the worker finds the lock held.
    Hurried,
    /// Callers are given out, and never hand their shares back.
    ManyCallers,
    /// A worker that waits is asked.
    Waking,
    /// A commit makes two actors ready, and both workers are needed.
    WakingByCommit,
    /// Two actors take thousands of short turns, and both workers are at it.
    Rally,
    /// Four callers post to one actor.
    Crowd,
    /// The same, and a fifth makes checkpoints meanwhile.
    Checkpoints,
    /// Four callers post to one actor, and one of them is that of a session whose output fails.
    FailingSession,
    /// Calls of a caller alone, each of which may find no memory.
    Refused,
}

/// When a worker may take the steps of its claim.
#[derive(Clone, Copy, PartialEq, Eq, Debug)]
pub enum Way {
    /// At once.
    Free,
    /// Once the caller has said so.
    Told,
    /// Once the other worker has a claim too.
    Met,
    /// Once there were four claims.
    AllMet,
    /// Once the other worker got as many claims.
    Paced,
    /// Once there were three claims, but for the first.
    Third,
    /// At once, and it does not go on after its commit before the caller has said so.
    Held,
}

impl Scene {
    pub fn workers(self) -> u32 {
        match self {
            Scene::Overlap | Scene::Pace | Scene::Rest | Scene::WakingByCommit | Scene::Rally => 2,
            Scene::OverlapOfFour => 4,
            Scene::Refused => 0,
            _ => 1,
        }
    }

    pub fn way(self) -> Way {
        match self {
            Scene::Overlap => Way::Met,
            Scene::OverlapOfFour => Way::AllMet,
            Scene::Pace => Way::Paced,
            Scene::Closing
            | Scene::UsedSelector
            | Scene::UnusedSelector
            | Scene::Stopping
            | Scene::Endless => Way::Told,
            Scene::LateWait => Way::Held,
            Scene::WakingByCommit => Way::Third,
            _ => Way::Free,
        }
    }

    /// The most steps of a quantum.
    pub fn quantum(self) -> u32
        ensures { (1 ≤ result) × (result ≤ 1024) }
    {
        match self {
            Scene::Numbers | Scene::Pace => 3,
            Scene::LongTurn | Scene::Hurried => 1024,
            _ => 256,
        }
    }

    pub fn settings(self) -> Settings {
        let capacity = match self {
            Scene::Crowd | Scene::Checkpoints | Scene::FailingSession => 1024,
            _ => 64,
        };
        let history = match self {
            Scene::FullAtCheckout => 4,
            Scene::FullAtCommit | Scene::LateWait | Scene::RoomAgain => 5,
            _ => 1_000_000,
        };
        Settings { capacity, history }
    }
}
