//! What happens to a session: the transport's results, the peer's packets, timers, and what the user asks.
#![tactic(auto)]

mod channel_msg;
mod event;
mod host_key;
mod method;
mod shared_method;

pub use channel_msg::ChannelMsg;
pub use event::Event;
pub use host_key::{copied_host_key, host_key_of, is_same_key};
pub use method::Method;
pub use shared_method::SharedMethod;
