//! The state of a session between two events, and each of its moves as one call.
#![tactic(auto)]

mod ask;
mod connection;
mod ring;

pub use ask::{Ask, asked_ticket, ticket_or_none};
pub use connection::Connection;
