//! A session for programs with threads: calls that submit and wait, and the runner that takes turns.
#![tactic(auto)]

mod beside;
mod channel;
mod channel_calls;
mod connecting;
mod handle;
mod handle_calls;
mod line;
mod places;
mod runner;
mod shared;
mod short;
mod stopping;

pub use beside::at_once;
pub use channel::Channel;
pub use channel_calls::ChannelCalls;
pub use connecting::{Maker, connect, connect_stream};
pub use handle::Handle;
pub use handle_calls::HandleCalls;
pub use line::{HandleLine, HasLine};
pub use runner::{Runner, Waker};
pub use short::is_short;
pub use sshc_handle_calls::{Line, LoggedAuthenticator, LoggedSigner, WithError};
pub use sshc_handle_state::{End, HandleState, Timers, Turn};
pub use sshc_handle_tickets::{
    AuthResult, KeyboardInteractiveAuthResponse, algs_answer, auth_answer, done_answer,
    open_answer, port_answer, prompt_answer, reply_answer,
};
pub use sshc_wire::Clock;
pub use stopping::{Stoppable, Stopper, with_stopper};
