//! What can go wrong with keys, key files, known hosts and agents.

ghost use Rattle.std.specs.Prelude.{◌≡◌};
ghost use Rattle.sshc_key.specs.declared.error.Error.TheVariants.{SshEncoding, NoMemory as OutOfMemory};

use sshc_wire::{NoMemory, WireError};
use std::alloc::{AllocError, AllocFailed};
use thiserror::Error;

/// Why a key, a key file, a known hosts file or an agent could not be used.
#[derive(Clone, Copy, Debug, PartialEq, Eq, Error)]
pub enum Error {
    /// The key file was not opened or holds no key, or the certificate file has too few fields.
    #[error("CouldNotReadKey")]
    CouldNotReadKey,
    /// No home directory was handed in.
    #[error("NoHomeDir")]
    NoHomeDir,
    /// The known hosts have another key of this algorithm at this line, counted from 1.
    #[error("KeyChanged")]
    KeyChanged { line: u64 },
    /// The agent's answer isn't one that its protocol allows there.
    #[error("AgentProtocolError")]
    AgentProtocolError,
    /// The agent refused.
    #[error("AgentFailure")]
    AgentFailure,
    /// The text is not padded base64.
    #[error("Decode")]
    Decode,
    /// The bytes are outside the grammar of keys.
    #[error("SshKey")]
    SshKey,
    /// A part is short, isn't text, or has bytes behind its value.
    #[error("SshEncoding")]
    SshEncoding,
    /// The environment names no agent.
    #[error("EnvVar")]
    EnvVar,
    /// The agent's socket was not found.
    #[error("BadAuthSock")]
    BadAuthSock,
    /// The file is not UTF-8.
    #[error("Utf8")]
    Utf8,
    /// Reading failed.
    #[error("ReadFault")]
    ReadFault,
    /// Writing failed.
    #[error("WriteFault")]
    WriteFault,
    /// The agent's answer ended too soon.
    #[error("UnexpectedEnd")]
    UnexpectedEnd,
    /// Out of memory.
    #[error("NoMemory")]
    NoMemory,
    /// The known hosts mark this key as revoked at this line, counted from 1.
    #[error("Revoked")]
    Revoked { line: u64 },
}

impl From<NoMemory> for Error {
    ghost from_gives = { λ _ e. e ≡ OutOfMemory };

    fn from(_error: NoMemory) -> Error {
        Error::NoMemory
    }
}

impl From<AllocError> for Error {
    ghost from_gives = { λ _ e. e ≡ OutOfMemory };

    fn from(_error: AllocError) -> Error {
        Error::NoMemory
    }
}

impl<T: Drop> From<AllocFailed<T>> for Error {
    ghost from_gives = { λ _ e. e ≡ OutOfMemory };

    fn from(_error: AllocFailed<T>) -> Error {
        Error::NoMemory
    }
}

impl From<WireError> for Error {
    ghost from_gives = { λ _ e. e ≡ SshEncoding };

    fn from(_error: WireError) -> Error {
        Error::SshEncoding
    }
}
