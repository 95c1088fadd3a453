//! Files.

use sshc_proxy::{Policy, PolicyError, parse_policy};
use sshc_wire::{Files, Found, StdFiles, Text};

/// The text of a file; empty if it can't be read.
pub fn text_of(rt: &HostRuntime, path: &str) -> Text {
    match StdFiles::new(rt).read_text(path) {
        Ok(Found::Text(text)) => text,
        _ => Text::new(rt.alloc()),
    }
}

/// The policy in a file.
pub fn policy_of(rt: &HostRuntime, path: &str) -> Result<Policy, PolicyError> {
    parse_policy(rt.alloc(), text_of(rt, path).as_str())
}

/// Drops a value. A value of many variants is dropped here, where its type is any, and before a result of its own is
/// judged: a check takes it apart at each place where it might end.
pub fn let_go<T: Drop>(_value: T) {}
