//! Streams paired with channels: the core of port forwards, one step for each event, with no IO; and its program, which
//! runs the events of a source through the core and writes the lines of what is to be done.
#![tactic(auto)]

mod error;
mod event;
mod event_reader;
mod forward_core;
mod given;
mod law;
mod output;
mod output_lines;
mod pair;
mod refused;
mod room;
mod run;
mod served;
mod telling;
mod words;

pub use error::FwdError;
pub use event::FwdEvent;
pub use forward_core::ForwardCore;
pub use given::Given;
pub use law::account;
pub use output::FwdOutput;
pub use pair::Reading;
pub use refused::FwdRefused;
pub use run::run_forward;
pub use served::{PairEvent, ServedPair};
pub use words::forward_words;
