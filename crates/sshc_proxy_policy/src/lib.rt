//! A proxy's policy as a person writes it: keys by fingerprint or name, hosts by a known hosts text.
#![tactic(auto)]

mod fault;
mod files;
mod named_key;
mod recorded;
mod rule_line;
#[cfg(test)]
mod tests;
mod written;

pub use fault::{Fault, WrittenError};
pub use files::key_files;
pub use named_key::NamedKey;
pub use written::read_policy;
