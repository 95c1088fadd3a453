//! Why a session is refused.

ghost use Rattle.std.specs.Prelude.{◌≡◌};
ghost use Rattle.sshc_auth.specs.declared.error.Error.TheVariants as errors;

use sshc_wire::{ChannelOpenFailure, NoMemory, WireError};
use std::alloc::{AllocError, AllocFailed};
use thiserror::Error as StdError;

/// Why a session is refused. The last five variants are returned only by the handle.
#[derive(Clone, Copy, Debug, PartialEq, Eq, StdError)]
pub enum Error {
    /// Memory ran out.
    #[error("NoMemory")]
    NoMemory,
    /// The local signer refused.
    #[error("SignerFault")]
    SignerFault,
    /// The event may not come now.
    #[error("OutOfTurn")]
    OutOfTurn,
    /// The transport failed.
    #[error("TransportFailed")]
    TransportFailed,
    /// The host key is missing, or it wasn't accepted.
    #[error("UnknownKey")]
    UnknownKey,
    /// The peer sent a packet that its state doesn't allow.
    #[error("Inconsistent")]
    Inconsistent,
    /// Too many bytes came while an exchange runs.
    #[error("Pending")]
    Pending,
    /// The server names no known method.
    #[error("NoAuthMethod")]
    NoAuthMethod,
    /// A channel was asked for before the session is open.
    #[error("NotAuthenticated")]
    NotAuthenticated,
    /// A part of a packet is short, isn't text or has bytes left over.
    #[error("SshEncoding")]
    SshEncoding,
    /// The peer's disconnection has a reason outside 1 to 15.
    #[error("InvalidDisconnect")]
    InvalidDisconnect,
    /// The user is gone while an answer is awaited.
    #[error("RecvError")]
    RecvError,
    /// The peer answers no keepalive.
    #[error("KeepaliveTimeout")]
    KeepaliveTimeout,
    /// Nothing came for too long.
    #[error("InactivityTimeout")]
    InactivityTimeout,
    /// A later exchange has another host key than the first.
    #[error("RekeyKey")]
    RekeyKey,
    /// A proof of a host key doesn't verify.
    #[error("WrongServerSig")]
    WrongServerSig,
    /// The server refused a request.
    #[error("RequestDenied")]
    RequestDenied,
    /// The server refused a channel.
    #[error("ChannelOpenFailure")]
    ChannelOpenFailure(ChannelOpenFailure),
    /// The session has ended.
    #[error("SendError")]
    SendError,
    /// The session ended before the answer.
    #[error("Disconnect")]
    Disconnect,
}

impl From<NoMemory> for Error {
    ghost from_gives = { λ _ e. e ≡ errors.NoMemory };

    fn from(_error: NoMemory) -> Error {
        Error::NoMemory
    }
}

impl From<AllocError> for Error {
    ghost from_gives = { λ _ e. e ≡ errors.NoMemory };

    fn from(_error: AllocError) -> Error {
        Error::NoMemory
    }
}

impl<T: Drop> From<AllocFailed<T>> for Error {
    ghost from_gives = { λ _ e. e ≡ errors.NoMemory };

    fn from(_error: AllocFailed<T>) -> Error {
        Error::NoMemory
    }
}

impl From<WireError> for Error {
    ghost from_gives = { λ _ e. e ≡ errors.SshEncoding };

    fn from(_error: WireError) -> Error {
        Error::SshEncoding
    }
}
