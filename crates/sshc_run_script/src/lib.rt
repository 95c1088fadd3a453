//! Scripts: bytes in, records out.
#![tactic(auto)]

mod error;
mod kept_records;
mod known_hosts_handler;
mod laws;
mod lent;
mod paused_run;
mod point;
mod record_lines;
mod record_sink;
mod run;
mod run_step;
mod serving;
mod stepping;
mod turn;
mod turns;

pub use error::RunError;
pub use kept_records::KeptRecords;
pub use known_hosts_handler::{HandlerError, KnownHostsHandler};
pub use paused_run::PausedRun;
pub use run::run_script;
pub use run_step::RunStep;
pub use sshc_client::Config;
pub use sshc_toy::{RefusingSigner, RefusingVerifier, ToySigner, ToyVerifier};
