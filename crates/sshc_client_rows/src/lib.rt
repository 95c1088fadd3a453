//! The rows of an open session that call no handler: what the user asks, timers, the replies to our requests, and our
//! replies to the peer's.
#![tactic(auto)]

mod answers;
mod asked_of_channel;
mod disconnection;
mod exchanges;
mod flow;
mod replies;
mod timers;
mod users;

pub use answers::{answered, answered_on};
pub use disconnection::disconnect;
pub use exchanges::{peer_kexinit, rekey_limit};
pub use flow::{RowFlow, refusal_of};
pub use replies::{request_failure, request_success};
pub use timers::{inactivity_timer, keepalive_timer};
pub use users::user;
