//! Moves and rows of an open session.

use sshc_auth::Error;
use sshc_client_rows::{RowFlow, keepalive_timer};
use sshc_client_state::{Ask, Connection};
use sshc_wire::Ticket;

/// Sends a ping whose reply resolves the ticket, and then does what a session does when its keepalive timer runs out.
pub fn ping_and_time(session: &mut Connection, ticket: Ticket) -> Result<RowFlow, Error> {
    session.ask(&Ask::Ping { ticket })?;
    keepalive_timer(session)
}
