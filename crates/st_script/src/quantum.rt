//! The steps of a quantum.
ghost use Rattle.std.specs.Prelude.{◌≡◌, ◌≤◌, true, false, MatchOption};
ghost use Rattle.st_script.specs.Scripts.{is_quantum};

use std::marker::Model;

/// The most steps that an actor takes before the next actor runs: from 1 to 1,024. Contracts see this number.
#[derive(Clone, Copy)]
pub struct Quantum {
    steps: u32,
}

impl Model for Quantum {
    ghost use Rattle.std.specs.Prelude.{ℕ, ◌≤◌};

    ghost Value = { ℕ };

    ghost view = { λ q. q.steps };

    ghost invariant = { λ q. (1 ≤ q.steps) × (q.steps ≤ 1024) };

    ghost inverse = { λ n. record { steps = n } };
}

impl Quantum {
    /// A quantum of this many steps, if it is in the range.
    pub fn new(steps: u32) -> Option<Quantum>
        ensures { MatchOption result (is_quantum steps ≡ false) (λ q. (is_quantum steps ≡ true) × (q ≡ steps)) }
    {
        if 1 <= steps && steps <= 1024 {
            Some(Quantum { steps })
        } else {
            None
        }
    }

    pub(crate) fn steps(self) -> u32
        ensures same { result ≡ self }
        ensures some { 1 ≤ result }
        ensures few { result ≤ 1024 }
    {
        self.steps
    }
}
