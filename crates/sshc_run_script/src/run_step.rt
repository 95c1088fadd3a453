//! What became of the events that a run was handed.

use crate::error::RunError;
use sshc_auth::Ended;

/// What became of the events that a run was handed.
#[derive(Drop)]
pub enum RunStep {
    /// It took them, and continues.
    Went,
    /// One of them ended it.
    Ended(Ended),
    /// One of them was refused, or the bytes are no whole events.
    Refused(RunError),
    /// An earlier call ended or refused it. Nothing changed.
    Closed,
}
