//! Why the auditor has no new text for its arguments.

ghost use Rattle.std.specs.Prelude.{◌≡◌};
ghost use Rattle.sshc_audit.specs.declared.refusal.Refusal.TheVariants.{NoMemory as OutOfMemory};

use sshc_wire::NoMemory;

/// Why there is no new text.
#[derive(Clone, Copy, PartialEq, Eq)]
pub enum Refusal {
    /// A file isn't UTF-8 text, or reading it failed.
    KnownFile,
    /// The file of the salts has too few.
    SaltFault,
    /// Out of memory.
    NoMemory,
}

impl From<NoMemory> for Refusal {
    ghost from_gives = { λ _ e. e ≡ OutOfMemory };

    fn from(_error: NoMemory) -> Refusal {
        Refusal::NoMemory
    }
}
