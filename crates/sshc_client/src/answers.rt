//! What a handler is passed at the end of a session.

use sshc_auth::RemoteDisconnectInfo;

/// Why a session has ended.
#[derive(Drop)]
pub enum DisconnectReason<E> {
    /// The server disconnected.
    ReceivedDisconnect(RemoteDisconnectInfo),
    /// The session was refused, or ended by its user.
    Error(E),
}
