//! What a step asks the gate, what the gate returned, and what the step returns.

ghost use Rattle.std.specs.Prelude.{◌≡◌};

use crate::ended::Ended;
use crate::ending::Ending;
use sshc_key::PublicKeyOrCertificate;
use sshc_wire::Text;

/// What an event's row asks of the gate.
#[derive(Drop)]
pub enum Asks {
    /// No call.
    Nothing,
    /// `check_server_key` and, after true, `kex_done`.
    HostKey(PublicKeyOrCertificate),
    /// `kex_done` alone.
    Exchange,
    /// `auth_banner`.
    Banner(Text),
}

/// What the gate returned.
#[derive(Clone, Copy, PartialEq, Eq)]
pub enum Told {
    /// It wasn't asked.
    NotAsked,
    /// It doesn't accept the host key.
    No,
    /// It was asked, and let the row continue.
    Went,
}

/// The result of a step.
#[derive(Drop)]
pub enum Step<E> {
    /// The session continues.
    Went,
    /// The user is authenticated.
    Opened,
    /// The session has ended.
    Ended(Ended),
    /// The session is refused.
    Refused(E),
    /// An earlier step ended, refused or opened the session. Nothing changed.
    Closed,
}

/// The result of a row that isn't refused.
#[derive(Drop)]
pub enum Flow {
    Went,
    Opened,
    Ended(Ending),
}
