//! What a handle's threads share, as a value without a lock: the events that are submitted, the records that are held
//! for those who wait, and the runner's turns.
#![tactic(auto)]

mod dealing;
mod end;
mod ending;
mod picking;
mod state;
mod submission;
mod submitted;
mod timers;
mod turn;

pub use end::{End, Turn};
pub use state::HandleState;
pub use timers::Timers;
