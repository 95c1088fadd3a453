//! Rewriting known hosts texts: hashing names, dropping doubled lines, removing a host.
#![tactic(auto)]

mod asked;
mod doubled;
mod error;
mod hashing;
mod joining;
mod line;
mod refusal;
mod removing;
mod salt_list;
mod salts;
mod words;

pub use doubled::drop_doubled;
pub use error::AuditError;
pub use hashing::hash_names;
pub use removing::remove_host;
pub use salt_list::SaltList;
pub use salts::Salts;
pub use words::audit_words;
