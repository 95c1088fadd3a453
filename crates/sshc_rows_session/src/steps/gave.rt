//! What a method of a session returned.

use sshc_client::Error;
use std::alloc::{AllocError, Global};

/// The value that a method returned, if it didn't fail.
#[derive(Clone, Copy, PartialEq, Eq)]
pub enum Gave {
    Nothing,
    /// A channel's number, or bytes.
    Number(u64),
    Flag(bool),
    /// There is no method of this name.
    NoSuchMethod,
}

/// The line of what a method returned.
pub fn gave_line(alloc: Global, gave: Result<Gave, Error>) -> Result<String, AllocError> {
    match gave {
        Ok(Gave::Nothing) => String::from_str(alloc, "gave ok"),
        Ok(Gave::Number(n)) => format!(in alloc; "gave {n}"),
        Ok(Gave::Flag(flag)) => format!(in alloc; "gave {flag}"),
        Ok(Gave::NoSuchMethod) => String::from_str(alloc, "gave no-such-method"),
        Err(error) => format!(in alloc; "gave {error}"),
    }
}
