//! A signer that counts its signatures.

use sshc_key::{Asker, HashAlg, LocalSigner, PrivateKey, SignRefused};
use sshc_toy::ToySigner;
use std::alloc::Global;

/// The signer of the toy pair, with a count of the signatures that it has made.
#[derive(Drop)]
pub(crate) struct CountingSigner {
    toy: ToySigner,
    made: usize,
}

impl CountingSigner {
    pub(crate) fn new(alloc: Global) -> CountingSigner {
        CountingSigner {
            toy: ToySigner::new(alloc),
            made: 0,
        }
    }

    /// How many signatures it has made.
    pub(crate) fn made(&self) -> usize {
        self.made
    }
}

impl LocalSigner for CountingSigner {
    ghost calls = { λ s. s.toy.calls };

    ghost refusals = { λ s. s.toy.refusals };

    fn sign(
        &mut self,
        by: Asker,
        key: &PrivateKey,
        hash: Option<HashAlg>,
        bytes: &[u8],
    ) -> Result<Vec<u8>, SignRefused> {
        let answer = self.toy.sign(by, key, hash, bytes);
        if answer.is_ok() {
            self.made = self.made.saturating_add(1);
        }
        answer
    }
}
