//! Known hosts as OpenSSH reads them: the status of a host key by a known hosts text.
#![tactic(auto)]

mod certificate;
mod cutting;
mod entry;
mod hashed;
mod hosts_field;
mod judgement;
mod learnable;
mod line_key;
mod pattern;
#[cfg(test)]
mod tests;

pub use hosts_field::names_host;
pub use judgement::{HostStatus, judge_openssh_certificate, judge_openssh_text};
pub use learnable::is_learnable;
pub use pattern::matches_pattern;
