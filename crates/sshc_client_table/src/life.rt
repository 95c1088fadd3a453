//! The states of a session's life.

/// The states of a session's life.
#[derive(Clone, Copy, PartialEq, Eq)]
pub enum Life {
    /// The session runs.
    Runs,
    /// The user has disconnected, and no step has reported it yet.
    Left,
    /// A step has ended or refused it.
    Over,
}
