//! Scripts: events one after another, read from a source one at a time (docs/FORMATS.md).
#![tactic(auto)]

mod channel_sort;
mod error;
mod event_kind;
mod fields;
mod keys;
mod laws;
mod method_sort;
mod parts;
mod script;

pub use channel_sort::ChannelSort;
pub use error::{EventError, NextError};
pub use event_kind::EventKind;
pub use fields::read_event;
pub use laws::script_laws;
pub use method_sort::MethodSort;
pub use script::{LONGEST_EVENT, RawEvent, SHORTEST_EVENT, next_event};
