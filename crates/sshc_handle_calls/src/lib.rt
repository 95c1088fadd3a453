//! The calls of a handle over any line to a session: which message each submits, whose records it reads, and what its
//! signer or authenticator is asked. No lock, no thread.
#![tactic(auto)]

mod channel;
mod gssapi;
mod line;
mod logins;
mod opens;
mod reader;
mod requests;
mod signing;
mod with_error;

pub use channel::{
    agent_forward, close, data, eof, exec, extended_data, request_pty, request_shell,
    request_subsystem, request_x11, set_env, signal, window_change,
};
pub use gssapi::{LoggedAuthenticator, authenticate_gssapi_with_mic};
pub use line::Line;
pub use logins::{
    authenticate_none, authenticate_openssh_cert, authenticate_password, authenticate_publickey,
    respond, start_prompts,
};
pub use opens::{
    channel_open_direct_streamlocal, channel_open_direct_tcpip, channel_open_session,
    channel_open_x11,
};
pub use requests::{
    best_supported_rsa_hash, cancel_streamlocal_forward, cancel_tcpip_forward, disconnect,
    hostkeys_prove, no_more_sessions, rekey_soon, send_global_request, send_keepalive, send_ping,
    streamlocal_forward, tcpip_forward,
};
pub use signing::{LoggedSigner, authenticate_certificate_with, authenticate_publickey_with};
pub use with_error::WithError;
