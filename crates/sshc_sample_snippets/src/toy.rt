//! The toy pair.

use sshc_key::{Asker, LocalSigner, PrivateKey, SignRefused};
use sshc_toy::ToySigner;
use std::alloc::Global;

/// The toy signature of these bytes by this pair, as a session asks a local signer for one.
pub fn toy_signature(
    alloc: Global,
    pair: &PrivateKey,
    bytes: &[u8],
) -> Result<Vec<u8>, SignRefused> {
    let mut signer = ToySigner::new(alloc);
    signer.sign(Asker::Session, pair, None, bytes)
}
