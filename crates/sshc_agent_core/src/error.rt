//! Errors of a server that runs an agent.

use sshc_key::Error;

/// An error of the caller's own type, or one of this library's `Error`.
#[derive(Drop)]
pub enum ServerError<E> {
    E(E),
    Error(Error),
}
