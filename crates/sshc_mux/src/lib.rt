//! Channels and windows of the connection protocol, over an outbox of records, with no IO.
#![tactic(auto)]

mod channel;
mod chunk;
mod error;
mod law;
mod packets;
mod table;
mod waiting;

pub use channel::{Opener, Stage};
pub use chunk::Stream;
pub use error::MuxError;
pub use law::account;
pub use sshc_wire::ChannelId;
pub use table::ChannelTable;
