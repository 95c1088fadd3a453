//! The verifier of the toy pair.

ghost use Rattle.std.specs.Prelude.{◌≡◌, IfOk};
ghost use Rattle.sshc_toy.specs.ToyPair.{is_own_name, toy_accepts};
ghost use Rattle.sshc_key.specs.View.{view};

use sshc_hosts::hmac_sha1;
use sshc_key::{KeyData, PublicKey, PublicKeyBase64, Signature, Verifier};
use sshc_wire::{NoMemory, Text};
use std::alloc::Global;

/// Accepts what the toy signer returns: for a plain key, a signature with one of its names, without a counter, whose
/// body is the HMAC.
#[derive(Drop)]
pub struct ToyVerifier {
    alloc: Global,
}

/// Whether signatures of the key have this name.
#[tactic(auto, unfolding(sshc_key::specs::RequestNames::request_name))]
fn is_own_name(alloc: Global, key: &KeyData, name: &str) -> Result<bool, NoMemory>
    ensures { IfOk result (λ yes. yes ≡ is_own_name (view key.now) name.now) }
{
    match key {
        KeyData::Rsa { .. } => {
            Ok(name == "ssh-rsa" || name == "rsa-sha2-256" || name == "rsa-sha2-512")
        }
        KeyData::Certificate(certificate) => {
            let _ = certificate.is_certificate();
            Ok(false)
        }
        _ => {
            let own = key.request_algorithm(alloc, None)?;
            Ok(name == own.as_str())
        }
    }
}

impl ToyVerifier {
    pub fn new(alloc: Global) -> ToyVerifier {
        ToyVerifier { alloc }
    }
}

impl Verifier for ToyVerifier {
    ghost accepts = { λ _. toy_accepts };

    fn verifies(&self, key: &KeyData, bytes: &[u8], sig: &Signature) -> Result<bool, NoMemory> {
        if sig.sk.is_some() || !is_own_name(self.alloc, key, sig.name.as_str())? {
            return Ok(false);
        }
        let own = PublicKey {
            key: key.copy()?,
            comment: Text::new(self.alloc),
        };
        let blob = own.public_key_bytes()?;
        Ok(sig.body.as_slice() == hmac_sha1(&blob, bytes).as_slice())
    }
}
