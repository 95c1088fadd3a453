//! Events of a session.

use sshc_auth_event::{Event, Method, SharedMethod};
use sshc_wire::{NoMemory, Text, Ticket};
use std::alloc::Global;

/// The event by which a user asks for a login by a password. Its answer has ticket 1.
pub fn password_login(alloc: Global, user: &str, password: &str) -> Result<Event, NoMemory> {
    let user = Text::from_str(alloc, user)?;
    let password = Text::from_str(alloc, password)?;
    Ok(Event::Authenticate {
        ticket: Ticket(1),
        user,
        method: SharedMethod::new(alloc, Method::Password { password })?,
    })
}
