//! A signer that signs nothing and a verifier that accepts nothing.

ghost use Rattle.std.specs.Prelude.{◌≡◌, [], false};

use crate::keeping::Calls;
use sshc_key::{
    Asker, HashAlg, KeyData, LocalSigner, PrivateKey, SignRefused, Signature, Verifier,
};
use sshc_wire::NoMemory;
use std::alloc::Global;
use std::marker::Model;

/// Refuses each signature, and records the calls, which contracts see as calls without an answer.
#[derive(Drop)]
pub struct RefusingSigner {
    calls: Calls,
}

impl Model for RefusingSigner {
    ghost use Rattle.std.specs.Coded.{codes};
    ghost use Rattle.sshc_key.specs.PairCode.{key_pair_code};
    ghost use Rattle.sshc_toy.specs.Keeping.{KeptCalls};

    ghost Value = { KeptCalls };

    ghost coded = { Prim.hlevel (codes, key_pair_code) };

    ghost view = { λ s. s.calls };
}

impl RefusingSigner {
    /// A signer that has had no calls yet.
    pub fn new(alloc: Global) -> RefusingSigner
        ensures { result ≡ record { calls = []; refusals = 0 } }
    {
        RefusingSigner {
            calls: Calls::new(alloc),
        }
    }
}

impl LocalSigner for RefusingSigner {
    ghost calls = { λ s. s.calls };

    ghost refusals = { λ s. s.refusals };

    fn sign(
        &mut self,
        by: Asker,
        key: &PrivateKey,
        hash: Option<HashAlg>,
        bytes: &[u8],
    ) -> Result<Vec<u8>, SignRefused> {
        match self.calls.keep_refusal(by, key, hash, bytes) {
            Ok(()) => Err(SignRefused::Refused),
            Err(NoMemory) => Err(SignRefused::NoMemory),
        }
    }
}

/// Accepts no signature.
#[derive(Drop)]
pub struct RefusingVerifier;

impl Verifier for RefusingVerifier {
    ghost accepts = { λ _ _ _ _. false };

    fn verifies(&self, _key: &KeyData, _bytes: &[u8], _sig: &Signature) -> Result<bool, NoMemory> {
        Ok(false)
    }
}
