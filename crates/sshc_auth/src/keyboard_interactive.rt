//! The result of a login by prompts.

use sshc_wire::{List, MethodSet, Prompt, Text};

/// The result of a request to log in by prompts (RFC 4256, section 3).
#[derive(PartialEq, Eq, Drop)]
pub enum KeyboardInteractiveAuthResponse {
    Success,
    /// The request failed, with the methods that can continue; with partial success it succeeded, but another is
    /// required.
    Failure {
        remaining_methods: MethodSet,
        partial_success: bool,
    },
    /// The server asks, and expects one answer for each prompt.
    InfoRequest {
        name: Text,
        instructions: Text,
        prompts: List<Prompt>,
    },
}
