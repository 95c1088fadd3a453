//! The statuses of the C interface: numbers below 20 are its own, those from 20 are the program's statuses for errors.

/// The call did what it was asked.
pub const OK: u32 = 0;

/// No line of the known hosts text has the key.
pub const UNKNOWN: u32 = 1;

/// The struct holds nothing, or holds something already.
pub const MISUSE: u32 = 2;

/// A text isn't UTF-8.
pub const NOT_TEXT: u32 = 3;

/// An input of an agent has no such kind, or its frame is too long.
pub const BAD_INPUT: u32 = 4;

/// The bytes aren't one whole key.
pub const BAD_KEY: u32 = 5;

/// There is no record left.
pub const NOTHING: u32 = 6;

/// The caller's memory is too small.
pub const NO_ROOM: u32 = 7;

/// An earlier call ended the session, or it was refused.
pub const OVER: u32 = 8;

/// The server ended the session.
pub const REMOTE_DISCONNECT: u32 = 9;

/// The user ended the session.
pub const DISCONNECTED: u32 = 10;

/// The session ended since no user is left.
pub const CLOSED: u32 = 11;

/// The agent wants a signature before it takes the input.
pub const ASKS_SIGNATURE: u32 = 12;

/// The agent asks whether the request is allowed.
pub const ASKS_REQUEST: u32 = 13;

/// The agent asks whether the key may sign.
pub const ASKS_KEY: u32 = 14;

/// The agent closed the connection: a frame is too long.
pub const CLOSED_TOO_LONG: u32 = 15;

/// The agent closed the connection: a sign request can't be read.
pub const CLOSED_UNREADABLE: u32 = 16;

/// The agent closed the connection: the signature was refused.
pub const CLOSED_REFUSED: u32 = 17;

/// Memory ran out.
pub const NO_MEMORY: u32 = 20;

/// A line of the known hosts text has another key of the key's algorithm.
pub const KEY_CHANGED: u32 = 29;

/// The key of a matching line isn't base64.
pub const DECODE: u32 = 30;

/// The key of a matching line isn't a valid key.
pub const SSH_KEY: u32 = 31;

/// A line of the known hosts text revokes the key.
pub const REVOKED: u32 = 42;
