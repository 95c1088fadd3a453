//! Streams paired with channels of a session: one pair served over a handle; and, from the crate below it, the core
//! of port forwards and its runs over bytes.
#![tactic(auto)]

mod deeds;
mod ends;
mod events;
mod serving;
mod shared;
mod socket;

pub use ends::StreamEnd;
pub use serving::serve_pair;
pub use socket::{SharedSocket, Socket, SocketReader, SocketWriter, split_socket};
pub use sshc_forward_core::{
    ForwardCore, FwdError, FwdEvent, FwdOutput, FwdRefused, Given, PairEvent, Reading, ServedPair,
    account, forward_words, run_forward,
};
