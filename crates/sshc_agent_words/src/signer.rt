//! A signer of which each connection has a new copy.

ghost use Rattle.std.specs.Prelude.{◌≡◌, []};

use sshc_key::{Asker, HashAlg, LocalSigner, PrivateKey, SignRefused};
use sshc_toy::ToySigner;
use std::alloc::{AllocError, Global};

/// The signer of the toy pair. A copy of it has no recorded calls.
#[derive(Drop)]
pub struct FreshSigner {
    alloc: Global,
    toy: ToySigner,
}

impl FreshSigner {
    pub fn new(alloc: Global) -> FreshSigner {
        FreshSigner {
            alloc,
            toy: ToySigner::new(alloc),
        }
    }
}

impl Clone for FreshSigner {
    fn clone(&self) -> Result<FreshSigner, AllocError> {
        Ok(FreshSigner::new(self.alloc))
    }
}

impl LocalSigner for FreshSigner {
    ghost calls = { λ s. s.toy.calls };

    ghost refusals = { λ s. s.toy.refusals };

    fn sign(
        &mut self,
        by: Asker,
        key: &PrivateKey,
        hash: Option<HashAlg>,
        bytes: &[u8],
    ) -> Result<Vec<u8>, SignRefused> {
        self.toy.sign(by, key, hash, bytes)
    }
}
