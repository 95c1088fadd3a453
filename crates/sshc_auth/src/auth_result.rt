//! The result of a request to log in.

use sshc_wire::MethodSet;

/// The result of a request to log in (RFC 4252, section 5.1).
#[derive(PartialEq, Eq, Drop)]
pub enum AuthResult {
    Success,
    /// Refused, with the methods that can continue; with partial success the request itself was right and more is
    /// wanted.
    Failure {
        remaining_methods: MethodSet,
        partial_success: bool,
    },
}
