//! How a run fails.

use thiserror::Error;

/// Why a run ends before its script does. A place is the offset of an event's length field in the script, in bytes.
#[derive(Clone, Copy, Debug, PartialEq, Eq, Error)]
pub enum RunError {
    /// Memory ran out.
    #[error("NoMemory")]
    NoMemory,
    /// A read of the source failed.
    #[error("ReadFault")]
    ReadFault,
    /// A write to the sink failed.
    #[error("WriteFault")]
    WriteFault,
    /// The local signer refused.
    #[error("SignerFault")]
    SignerFault,
    /// The bytes at the place don't begin an event.
    #[error("BadEvent")]
    BadEvent { at: u64 },
    /// The event at the place may not come now.
    #[error("OutOfTurn")]
    OutOfTurn { at: u64 },
    /// The script continues after the last event that is allowed.
    #[error("ScriptTooLong")]
    ScriptTooLong,
    /// The transport failed.
    #[error("TransportFailed")]
    TransportFailed,
    /// The host key is missing, or the known hosts text doesn't have it.
    #[error("UnknownKey")]
    UnknownKey,
    /// A line of the known hosts text has another key of the same algorithm.
    #[error("KeyChanged")]
    KeyChanged { line: u64 },
    /// The key of a matching line isn't base64.
    #[error("Decode")]
    Decode,
    /// The key of a matching line isn't a valid key.
    #[error("SshKey")]
    SshKey,
    /// The peer sent a packet that its state doesn't allow.
    #[error("Inconsistent")]
    Inconsistent,
    /// Too many bytes came while an exchange ran.
    #[error("Pending")]
    Pending,
    /// The server names no known method.
    #[error("NoAuthMethod")]
    NoAuthMethod,
    /// A channel was asked for before the session is open.
    #[error("NotAuthenticated")]
    NotAuthenticated,
    /// A part of a packet is short, isn't text or has bytes after its end.
    #[error("SshEncoding")]
    SshEncoding,
    /// The reason of the peer's disconnection isn't a number from 1 to 15.
    #[error("InvalidDisconnect")]
    InvalidDisconnect,
    /// The user is gone while an answer is awaited.
    #[error("RecvError")]
    RecvError,
    /// The peer answers no keepalive.
    #[error("KeepaliveTimeout")]
    KeepaliveTimeout,
    /// Nothing came for too long.
    #[error("InactivityTimeout")]
    InactivityTimeout,
    /// A line of the known hosts text revokes the host key.
    #[error("Revoked")]
    Revoked { line: u64 },
    /// A later exchange has another host key than the first.
    #[error("RekeyKey")]
    RekeyKey,
}
