//! Known hosts: which keys a text records and revokes for a host, and whether a key is accepted.
#![tactic(auto)]

mod cutting;
mod entry;
mod file;
mod hmac;
mod home;
mod host;
mod judgement;
mod learning;
mod lines;
mod marks;

pub use cutting::cut;
pub use entry::is_host;
pub use file::{check_known_hosts_path, known_host_keys_path, learn_known_hosts_path};
pub use hmac::hmac_sha1;
pub use home::{check_known_hosts, known_host_keys, learn_known_hosts};
pub use host::host_text;
pub use judgement::{judge_text, known_host_keys_text, revoked_keys_text};
pub use learning::learn_text;
pub use lines::{has_host, is_comment};
pub use marks::{Mark, cut_mark};
