//! A session for programs with threads: its tickets, the records held for them, and how an answer is read.
#![tactic(auto)]

mod answers;
mod indexed;
mod line;
mod marks;
mod numbers;
mod places;
mod tickets;

pub use answers::{
    algs_answer, auth_answer, done_answer, open_answer, port_answer, prompt_answer, reply_answer,
};
pub use numbers::{channel_of, ticket_of};
pub use sshc_auth::{AuthResult, KeyboardInteractiveAuthResponse};
pub use tickets::Tickets;
