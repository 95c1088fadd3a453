//! Why a call is refused, and why a shared agent isn't closed.

use crate::call::Call;

/// Why a seat isn't made or a call isn't taken.
#[derive(Clone, Copy, PartialEq, Eq)]
pub enum CallRefused {
    /// With it the journal would weigh more than its limit.
    JournalFull,
    NoMemory,
    /// The seat's number of calls, and the number of entries that the journal has for its connection, which differ.
    Miscounted { seat: u32, kept: u32 },
}

/// Why an agent that lasts doesn't take a call or a connection.
#[derive(Clone, Copy, PartialEq, Eq)]
pub enum LastingRefused {
    /// No connection that goes on has this number.
    NotConnected,
    Call(CallRefused),
}

/// Why a shared agent isn't closed.
#[derive(Drop)]
pub enum CloseError {
    NoMemory,
    /// The number of seats that were made, and the number passed to `close`, which differ.
    SeatsOut {
        made: u32,
        given: u32,
    },
    /// The seat's call at an index, and the journal's, which differ; `None` if that list has already ended.
    Torn {
        conn: u32,
        at: u32,
        got: Option<Call>,
        kept: Option<Call>,
    },
}
