//! Frames that can't be read whole.

/// Why a frame can't be read whole.
#[derive(Clone, Copy, PartialEq, Eq)]
pub enum Broken {
    /// Out of memory.
    NoMemory,
    /// A read failed.
    Fault,
    /// The frame's length is above the limit.
    TooLong,
    /// The stream ended inside the frame.
    UnexpectedEnd,
}
