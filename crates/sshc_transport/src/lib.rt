//! The interface of the transport layer: the results of its key exchanges, the events that it reports to a session, and
//! the packets that it takes (RFC 4253, section 7).
#![tactic(auto)]

mod exchange;
mod pending;
mod transport;

pub use exchange::{ExchangeFlag, ExchangeKey, ExchangeNames, ExchangeResult, NamesChosen};
pub use pending::PendingCount;
pub use transport::{Transport, TransportEvent};
