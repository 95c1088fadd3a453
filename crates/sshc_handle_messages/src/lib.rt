//! The messages that the calls of a handle submit, and how a session's reports reach its user: only values, with no
//! lock.
#![tactic(auto)]

mod channel_opens;
mod channel_requests;
mod happened;
mod logins;
mod requests;

pub use channel_opens::{direct_streamlocal, direct_tcpip, x11};
pub use channel_requests::{
    bytes_sent, command, environment, extended_bytes, signal_sent, subsystem, terminal,
    x11_forwarding,
};
pub use happened::channel_msg;
pub use logins::{asked, certificate_login, key_login, login};
pub use requests::{
    cancel_forward, cancel_streamlocal, disconnection, forward, global_request, prove_keys,
    streamlocal,
};
