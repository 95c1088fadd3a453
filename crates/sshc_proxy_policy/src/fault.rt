//! What can be wrong with a line of a policy.

ghost use Rattle.std.specs.Prelude.{◌≡◌};
ghost use Rattle.sshc_proxy_policy.specs.declared.fault.LineError.TheVariants.{Faulty, NoMemory as OutOfMemory};

use sshc_wire::NoMemory;

/// What is wrong with a line.
#[derive(Clone, Copy, Debug, PartialEq, Eq)]
pub enum Fault {
    /// The line isn't `allow KEY [USER@]HOST [via HOST..]`.
    NotARule,
    /// No key has this name or fingerprint.
    UnknownKey,
    /// More than one key has this name.
    AmbiguousKey,
    /// The known hosts text has no key for a host, or each is revoked there or a certificate.
    UnknownHost,
    /// The known hosts text has a line for a host whose key can't be read.
    UnreadableHost,
    /// More than fifteen hosts after `via`, which no connection reaches.
    TooManyHops,
}

impl Fault {
    /// Its name, for a line that reports it.
    pub fn name(self) -> &'static str {
        match self {
            Fault::NotARule => "not-a-rule",
            Fault::UnknownKey => "unknown-key",
            Fault::AmbiguousKey => "ambiguous-key",
            Fault::UnknownHost => "unknown-host",
            Fault::UnreadableHost => "unreadable-host",
            Fault::TooManyHops => "too-many-hops",
        }
    }
}

/// Why a text is no policy.
#[derive(Clone, Copy, Debug, PartialEq, Eq)]
pub enum WrittenError {
    /// Out of memory.
    NoMemory,
    /// The first line with a fault, counted from 1.
    BadLine { line: u64, fault: Fault },
}

/// Why a part of a line isn't read.
#[derive(Clone, Copy, Debug, PartialEq, Eq)]
pub(crate) enum LineError {
    NoMemory,
    Faulty(Fault),
}

impl From<NoMemory> for LineError {
    ghost from_gives = { λ _ e. e ≡ OutOfMemory };

    fn from(_error: NoMemory) -> LineError {
        LineError::NoMemory
    }
}

impl From<Fault> for LineError {
    ghost from_gives = { λ fault e. e ≡ Faulty fault };

    fn from(fault: Fault) -> LineError {
        LineError::Faulty(fault)
    }
}
