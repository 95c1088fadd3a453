//! One agent that many connections share: a single history of all their calls, behind a mutex.
#![tactic(auto)]

mod agent_lasting;
mod apart;
mod bytes;
mod call;
mod closing;
mod counts;
mod error;
mod form;
mod generation;
mod groups;
mod kept;
mod lasting;
mod lasting_apart;
mod past;
mod question;
mod ready;
mod renewing;
mod room;
mod seat;
mod settings;
mod shared;
mod state;
mod taking;
mod tear;

pub use agent_lasting::{AgentLasting, Keeper};
pub use apart::Begun;
pub use call::Call;
pub use error::{CallRefused, CloseError, LastingRefused};
pub use kept::KeptCall;
pub use lasting::LastingState;
pub use lasting_apart::LastingBegun;
pub use past::Past;
pub use question::{KeptQuestion, SignedQuestion};
pub use seat::Seat;
pub use settings::Settings;
pub use shared::AgentShared;
pub use state::AgentState;
