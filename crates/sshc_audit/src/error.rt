//! Why names can't be hashed.

ghost use Rattle.std.specs.Prelude.{◌≡◌};
ghost use Rattle.sshc_audit.specs.declared.error.AuditError.TheVariants.{NoMemory as OutOfMemory};

use sshc_wire::{Failed, NoMemory};
use std::alloc::{AllocError, AllocFailed};
use thiserror::Error;

/// Why names can't be hashed.
#[derive(Clone, Copy, Debug, PartialEq, Eq, Error)]
pub enum AuditError {
    /// Out of memory.
    #[error("NoMemory")]
    NoMemory,
    /// There was no salt for a name, and the salts' count of faults rose.
    #[error("SaltFault")]
    SaltFault,
}

impl From<NoMemory> for AuditError {
    ghost from_gives = { λ _ e. e ≡ OutOfMemory };

    fn from(_error: NoMemory) -> AuditError {
        AuditError::NoMemory
    }
}

impl From<AllocError> for AuditError {
    ghost from_gives = { λ _ e. e ≡ OutOfMemory };

    fn from(_error: AllocError) -> AuditError {
        AuditError::NoMemory
    }
}
