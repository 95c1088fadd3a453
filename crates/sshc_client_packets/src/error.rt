//! Why a packet can't be read.

ghost use Rattle.std.specs.Prelude.{◌≡◌};
ghost use Rattle.sshc_client_packets.specs.declared.error.PacketError.TheVariants as errors;

use sshc_wire::{NoMemory, WireError};
use std::alloc::{AllocError, AllocFailed};
use thiserror::Error;

/// Why a packet can't be read.
#[derive(Clone, Copy, Debug, PartialEq, Eq, Error)]
pub enum PacketError {
    /// Memory ran out.
    #[error("NoMemory")]
    NoMemory,
    /// A part is short, isn't text or has bytes left over.
    #[error("SshEncoding")]
    SshEncoding,
}

impl From<NoMemory> for PacketError {
    ghost from_gives = { λ _ e. e ≡ errors.NoMemory };

    fn from(_error: NoMemory) -> PacketError {
        PacketError::NoMemory
    }
}

impl From<AllocError> for PacketError {
    ghost from_gives = { λ _ e. e ≡ errors.NoMemory };

    fn from(_error: AllocError) -> PacketError {
        PacketError::NoMemory
    }
}

impl<T: Drop> From<AllocFailed<T>> for PacketError {
    ghost from_gives = { λ _ e. e ≡ errors.NoMemory };

    fn from(_error: AllocFailed<T>) -> PacketError {
        PacketError::NoMemory
    }
}

impl From<WireError> for PacketError {
    ghost from_gives = { λ _ e. e ≡ errors.SshEncoding };

    fn from(_error: WireError) -> PacketError {
        PacketError::SshEncoding
    }
}
