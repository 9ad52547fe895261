//! The settings of a run.
ghost use Rattle.std.specs.Prelude.{◌≡◌};
ghost use Rattle.st_classes.specs.Refusals.{first_of};
ghost use Rattle.st_image.specs.Images.{settings_rules};

use st_classes::refusals::Refusal;

/// The capacity of new actors' mailboxes, and the most items of the history.
#[derive(Clone, Copy, PartialEq, Eq, Debug)]
pub struct Settings {
    /// From 1 to 1,024.
    pub capacity: u32,
    /// From 1 to 1,000,000.
    pub history: u32,
}

impl Settings {
    pub const DEFAULT: Settings = Settings {
        capacity: 64,
        history: 1_000_000,
    };

    /// Why the settings are refused, if a number is out of its range.
    pub(crate) fn refusal(&self) -> Option<Refusal>
        ensures { result ≡ first_of (settings_rules self.now) }
    {
        let are_fine = 1 <= self.capacity
            && self.capacity <= 1024
            && 1 <= self.history
            && self.history <= 1_000_000;
        if are_fine {
            None
        } else {
            Some(Refusal::BadArguments)
        }
    }
}
