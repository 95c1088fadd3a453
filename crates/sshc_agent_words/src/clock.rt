//! The system's clock.

ghost use Rattle.std.specs.Prelude.{None};

use sshc_wire::Clock;
use std::alloc::AllocError;
use std::time::Clock as SystemTime;

/// Milliseconds since an arbitrary start. If the system returns no time, the moment is 0, which the agent treats as its
/// latest moment.
#[derive(Drop)]
pub struct SystemClock<'a, R> {
    system: &'a R,
}

impl<'a, R> SystemClock<'a, R> {
    pub fn new(system: &'a R) -> SystemClock<'a, R> {
        SystemClock { system }
    }
}

impl<'a, R> Clone for SystemClock<'a, R> {
    fn clone(&self) -> Result<SystemClock<'a, R>, AllocError> {
        Ok(SystemClock {
            system: self.system,
        })
    }
}

impl<'a, R: SystemTime> Clock for SystemClock<'a, R> {
    ghost told = { λ s. None };

    fn now(&mut self) -> u64 {
        match self.system.monotonic() {
            Ok(since) => u64::try_from(since.as_millis()).unwrap_or(u64::MAX),
            Err(_) => 0,
        }
    }
}
