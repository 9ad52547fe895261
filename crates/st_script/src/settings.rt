//! The settings of a script.
ghost use Rattle.std.specs.Prelude.{◌≡◌};

use st_image::settings::Settings;

/// The steps of a quantum, the capacity of new actors' mailboxes, the most items that the history holds, and when the program began.
#[derive(Clone, Copy, PartialEq, Eq, Debug)]
pub struct ScriptSettings {
    /// From 1 to 1,024.
    pub quantum: u32,
    /// From 1 to 1,024.
    pub capacity: u32,
    /// From 1 to 1,000,000.
    pub history: u32,
    /// In nanoseconds since 1970.
    pub start: u64,
}

impl ScriptSettings {
    pub const DEFAULT: ScriptSettings = ScriptSettings {
        quantum: 256,
        capacity: Settings::DEFAULT.capacity,
        history: Settings::DEFAULT.history,
        start: 0,
    };

    /// The settings that belong to the image.
    pub fn of_image(self) -> Settings
        ensures { result ≡ record { capacity = self.capacity; history = self.history } }
    {
        Settings {
            capacity: self.capacity,
            history: self.history,
        }
    }
}
