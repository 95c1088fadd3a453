//! What can go wrong with a policy, and with a run.

ghost use Rattle.std.specs.Prelude.{◌≡◌};
ghost use Rattle.sshc_proxy.specs.declared.error.PolicyError.TheVariants.{NoMemory as OutOfMemory};

use sshc_wire::NoMemory;
use thiserror::Error;

/// Why a text is no policy.
#[derive(Clone, Copy, Debug, PartialEq, Eq, Error)]
pub enum PolicyError {
    /// Out of memory.
    #[error("NoMemory")]
    NoMemory,
    /// The first line, counted from 1, that is neither empty nor a comment nor a rule.
    #[error("BadLine")]
    BadLine { line: u64 },
}

impl From<NoMemory> for PolicyError {
    ghost from_gives = { λ _ e. e ≡ OutOfMemory };

    fn from(_error: NoMemory) -> PolicyError {
        PolicyError::NoMemory
    }
}

/// Why a client is served no further.
#[derive(Clone, Copy, Debug, PartialEq, Eq, Error)]
pub enum ProxyError {
    /// Out of memory.
    #[error("NoMemory")]
    NoMemory,
    /// The client's stream failed.
    #[error("ClientFault")]
    ClientFault,
    /// The agent's stream failed.
    #[error("AgentFault")]
    AgentFault,
    /// A frame has a length above 262144.
    #[error("TooLong")]
    TooLong,
    /// A stream ended inside a frame, or the agent's before its answer.
    #[error("UnexpectedEnd")]
    UnexpectedEnd,
}
