//! Why no event can be taken.

ghost use Rattle.std.specs.Prelude.{◌≡◌};
ghost use Rattle.sshc_run_reader.specs.declared.error.EventError.TheVariants as reads;

use sshc_wire::{Failed, NoMemory, WireError};
use std::alloc::{AllocError, AllocFailed};
use thiserror::Error;

/// Why an event's bytes can't be read.
#[derive(Clone, Copy, Debug, PartialEq, Eq, Error)]
pub enum EventError {
    /// Memory ran out.
    #[error("NoMemory")]
    NoMemory,
    /// They are outside the grammar.
    #[error("Bad")]
    Bad,
}

/// Why no event was taken from the source.
#[derive(Clone, Copy, Debug, PartialEq, Eq, Error)]
pub enum NextError {
    /// Memory ran out.
    #[error("NoMemory")]
    NoMemory,
    /// A read of the source failed.
    #[error("ReadFault")]
    ReadFault,
    /// The next bytes begin no event.
    #[error("Bad")]
    Bad,
}

impl From<NoMemory> for EventError {
    ghost from_gives = { λ _ e. e ≡ reads.NoMemory };

    fn from(_error: NoMemory) -> EventError {
        EventError::NoMemory
    }
}

impl From<AllocError> for EventError {
    ghost from_gives = { λ _ e. e ≡ reads.NoMemory };

    fn from(_error: AllocError) -> EventError {
        EventError::NoMemory
    }
}

impl<T: Drop> From<AllocFailed<T>> for EventError {
    ghost from_gives = { λ _ e. e ≡ reads.NoMemory };

    fn from(_error: AllocFailed<T>) -> EventError {
        EventError::NoMemory
    }
}

impl From<WireError> for EventError {
    ghost from_gives = { λ _ e. e ≡ reads.Bad };

    fn from(_error: WireError) -> EventError {
        EventError::Bad
    }
}

/// The error for a failed read.
pub(crate) fn read_failed(failed: Failed) -> NextError
    ensures { result ≡ (elim failed [ Failed.Fault ↦ NextError.ReadFault | Failed.NoMemory ↦ NextError.NoMemory ]) }
{
    match failed {
        Failed::Fault => NextError::ReadFault,
        Failed::NoMemory => NextError::NoMemory,
    }
}

/// The error for an event that can't be read.
pub(crate) fn not_read(e: EventError) -> NextError
    ensures { result ≡ (elim e [ EventError.NoMemory ↦ NextError.NoMemory | EventError.Bad ↦ NextError.Bad ]) }
{
    match e {
        EventError::NoMemory => NextError::NoMemory,
        EventError::Bad => NextError::Bad,
    }
}
