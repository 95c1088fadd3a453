//! How a session under a handle ends, and what a turn of its runner does.

use sshc_auth::Ended;

/// How the session has ended.
#[derive(Drop)]
pub enum End {
    /// By the server, by its user, or because the transport is at its end.
    Ended(Ended),
    /// It was refused.
    Refused,
}

/// What a turn of the runner did.
#[derive(Drop)]
pub enum Turn<E> {
    /// It took an event, and the session continues.
    Took,
    /// There was nothing to take.
    Idle,
    /// The session has ended.
    Ended(Ended),
    /// The session is refused.
    Refused(E),
}
