//! A session: its opening and what follows, one event in and records out, with no IO; and the handler that the session
//! is lent to.
#![tactic(auto)]

mod answers;
mod config;
mod handler;
mod message;
mod session;
mod signal;
mod stop;
mod verdict;

pub use answers::DisconnectReason;
pub use config::Config;
pub use handler::Handler;
pub use message::Msg;
pub use session::Session;
pub use signal::signal_copied;
pub use sshc_auth::{
    ChannelMsg, Ended, Error, Event, KeyboardInteractiveAuthResponse, Method, RemoteDisconnectInfo,
    Settings, Step,
};
pub use sshc_client_table::{OpenAnswer, ReplyEntry, ReplyKind, SessionSettings};
pub use sshc_wire::{Outbox, Prompt, Record, Resolution, Ticket};
