//! Why a run ends before the end of its source, and why no event can be taken from it.

ghost use Rattle.std.specs.Prelude.{◌≡◌};
ghost use Rattle.sshc_forward_core.specs.declared.error.EventFault.TheVariants as faults;

use sshc_wire::{Failed, NoMemory, WireError};
use thiserror::Error;

/// Why a run ended before the end of its source.
#[derive(Clone, Copy, Debug, PartialEq, Eq, Error)]
pub enum FwdError {
    /// Memory ran out.
    #[error("NoMemory")]
    NoMemory,
    /// A read of the source failed.
    #[error("ReadFault")]
    ReadFault,
    /// A write to the sink failed.
    #[error("WriteFault")]
    WriteFault,
    /// The bytes at this place begin no event.
    #[error("BadEvent")]
    BadEvent { at: u64 },
    /// The event at this place names a stream or a channel that is in use.
    #[error("Taken")]
    Taken { at: u64 },
}

/// Why an event's bytes can't be read.
#[derive(Clone, Copy, PartialEq, Eq)]
pub(crate) enum EventFault {
    /// Memory ran out.
    NoMemory,
    /// They are outside the grammar.
    Bad,
}

/// Why no event was taken from the source.
#[derive(Clone, Copy, PartialEq, Eq)]
pub(crate) enum NextFault {
    /// Memory ran out.
    NoMemory,
    /// A read of the source failed.
    ReadFault,
    /// The next bytes begin no event.
    Bad,
}

impl From<NoMemory> for EventFault {
    ghost from_gives = { λ _ e. e ≡ faults.NoMemory };

    fn from(_error: NoMemory) -> EventFault {
        EventFault::NoMemory
    }
}

impl From<WireError> for EventFault {
    ghost from_gives = { λ _ e. e ≡ faults.Bad };

    fn from(_error: WireError) -> EventFault {
        EventFault::Bad
    }
}

/// The error for a failed read.
pub(crate) fn read_failed(failed: Failed) -> NextFault
    ensures { result ≡ (elim failed [ Failed.Fault ↦ NextFault.ReadFault | Failed.NoMemory ↦ NextFault.NoMemory ]) }
{
    match failed {
        Failed::Fault => NextFault::ReadFault,
        Failed::NoMemory => NextFault::NoMemory,
    }
}

/// The error for an event that can't be read.
pub(crate) fn not_read(e: EventFault) -> NextFault
    ensures { result ≡ (elim e [ EventFault.NoMemory ↦ NextFault.NoMemory | EventFault.Bad ↦ NextFault.Bad ]) }
{
    match e {
        EventFault::NoMemory => NextFault::NoMemory,
        EventFault::Bad => NextFault::Bad,
    }
}

/// The error of a run at this place if no event was read.
pub(crate) fn not_taken(e: NextFault, at: u64) -> FwdError
    ensures { result ≡ (elim e [
      | NextFault.NoMemory ↦ FwdError.NoMemory
      | NextFault.ReadFault ↦ FwdError.ReadFault
      | NextFault.Bad ↦ FwdError.BadEvent at
    ]) }
{
    match e {
        NextFault::NoMemory => FwdError::NoMemory,
        NextFault::ReadFault => FwdError::ReadFault,
        NextFault::Bad => FwdError::BadEvent { at },
    }
}
