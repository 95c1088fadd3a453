//! Runs of scripts by command-line arguments, the report of a run, and large scripts made from a number; and, from the
//! crates behind it, the run itself and the arguments of an agent.
#![tactic(auto)]

mod blocks;
mod draws;
mod gen_words;
mod generated;
mod kinds;
mod login;
mod script_words;
mod summary;
mod told;
mod words;

pub use blocks::{BlockKind, generate};
pub use draws::Draws;
pub use generated::Generated;
pub use login::{HOST, KNOWN, PORT};
pub use sshc_agent_words::serve_words;
pub use sshc_run_script::{
    Config, HandlerError, KnownHostsHandler, RunError, ToySigner, ToyVerifier, run_script,
};
pub use words::run_words;
