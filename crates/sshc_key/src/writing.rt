//! Writes keys, certificates and signatures at the end of what is there.

mod certificate;
mod fields;
mod names;
mod pair;
mod signature;
mod sizes;

pub(crate) use certificate::key_bytes;
pub use certificate::{append_certificate, append_key, put_certificate, put_key};
pub use pair::write_key_pair;
