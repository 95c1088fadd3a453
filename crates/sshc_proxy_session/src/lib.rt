//! An agent's proxy that ties each signature to its session: a connection forwards a request to sign only for a login of
//! the session that was bound to it last, which a written policy permits.
#![tactic(auto)]

mod bound;
mod connection;
mod event;
mod refusal;
mod session_policy;
#[cfg(test)]
mod tests;
mod userauth;

pub use bound::Bound;
pub use connection::SessionConnection;
pub use event::{SessionInput, SessionOutput};
pub use refusal::Refusal;
pub use session_policy::{SessionPolicy, SessionRule};
