//! Why the table refuses a packet of the peer's.

use thiserror::Error;

/// Why the table refuses.
#[derive(Clone, Copy, Debug, PartialEq, Eq, Error)]
pub enum MuxError {
    /// No open of ours with this number waits for its confirmation.
    #[error("Inconsistent")]
    Inconsistent,
}
