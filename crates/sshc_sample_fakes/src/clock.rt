//! Clocks that need no system.

use sshc_wire::Clock;

/// Always returns the same moment.
#[derive(Clone, Copy, PartialEq, Eq)]
pub struct StillClock(pub u64);

impl Clock for StillClock {
    ghost use Rattle.std.specs.Prelude.{None};

    ghost told = { λ c. None };

    fn now(&mut self) -> u64 {
        self.0
    }
}

/// Returns a moment that is later by its step each time.
#[derive(Clone, Copy, PartialEq, Eq)]
pub struct TickingClock {
    pub now: u64,
    pub step: u64,
}

impl Clock for TickingClock {
    ghost use Rattle.std.specs.Prelude.{None};

    ghost told = { λ c. None };

    fn now(&mut self) -> u64 {
        self.now = self.now.saturating_add(self.step);
        self.now
    }
}
