//! Why an event is refused.

use sshc_wire::NoMemory;
use std::alloc::{AllocError, AllocFailed};
use thiserror::Error;

/// Why an event is refused. The core is then unchanged.
#[derive(Clone, Copy, Debug, PartialEq, Eq, Error)]
pub enum FwdRefused {
    /// The event names a stream or a channel that has a pair already.
    #[error("Taken")]
    Taken,
    /// Out of memory.
    #[error("NoMemory")]
    NoMemory,
}

impl From<NoMemory> for FwdRefused {
    ghost use Rattle.std.specs.Prelude.{◌≡◌};
    ghost use Rattle.sshc_forward_core.specs.declared.refused.FwdRefused.TheVariants as Refusals;

    ghost from_gives = { λ e r. r ≡ Refusals.NoMemory };

    fn from(_error: NoMemory) -> FwdRefused {
        FwdRefused::NoMemory
    }
}
