//! Reads keys, certificates and signatures from the front of a cursor's remaining bytes.

mod certificate;
mod fields;
mod names;
mod pair;
mod parts;
mod signature;
mod statement;

pub(crate) use certificate::key_of;
pub(crate) use names::parts_of;
pub use pair::read_key_pair;
pub use signature::read_signature;
pub(crate) use signature::whole_signature;
