//! What one authenticates with: a public key with its hash, a certificate, or a key pair with its hash.

ghost use Rattle.std.specs.Prelude.{◌≡◌};
ghost use Rattle.sshc_key.specs.View.{view};
ghost use Rattle.sshc_key.specs.Algorithms.{kept_hash, pair_algorithm};

use crate::algorithm::Algorithm;
use crate::key_data::{Certificate, KeyData};
use crate::pair::PrivateKey;
use crate::public_key::PublicKey;
use sshc_wire::{HashAlg, Text};
use std::marker::Model;

/// A public key and the hash with which it signs, or a certificate.
#[derive(Drop, PartialEq, Eq)]
pub enum PublicKeyOrCertificate {
    PublicKey {
        key: PublicKey,
        hash_alg: Option<HashAlg>,
    },
    Certificate(Certificate),
}

/// A key pair and the hash with which an RSA key signs, which contracts see as these two.
#[derive(Drop)]
pub struct PrivateKeyWithHashAlg {
    key: PrivateKey,
    hash_alg: Option<HashAlg>,
}

impl Model for PrivateKeyWithHashAlg {
    ghost use Rattle.std.specs.Prelude.{Option};
    ghost use Rattle.std.specs.Coded.{codes};
    ghost use Rattle.sshc_key.specs.PairCode.{KeyPair, key_pair_code};
    ghost use Rattle.sshc_wire.specs.declared.hash_alg.HashAlg.{HashAlg as Hash};

    ghost Value = { KeyPair × Option Hash };

    ghost coded = { Prim.hlevel (codes, key_pair_code) };

    ghost view = { λ k. (k.key, k.hash_alg) };
}

impl PrivateKeyWithHashAlg {
    /// The pair with this hash; a key that isn't RSA has no hash.
    pub fn new(key: PrivateKey, hash_alg: Option<HashAlg>) -> PrivateKeyWithHashAlg
        ensures { result ≡ (key, kept_hash key.public.0 hash_alg) }
    {
        let hash_alg = hash_for(&key.public.key, hash_alg);
        PrivateKeyWithHashAlg { key, hash_alg }
    }

    /// The pair with a hash that it may have.
    pub(crate) fn with_kept(key: PrivateKey, hash_alg: Option<HashAlg>) -> PrivateKeyWithHashAlg
        ensures { result ≡ (key, hash_alg) }
    {
        PrivateKeyWithHashAlg { key, hash_alg }
    }

    /// The algorithm, for RSA with its hash.
    pub fn algorithm(&self) -> Algorithm
        ensures { result ≡ pair_algorithm self.now.0.public.0 self.now.1 }
    {
        match &self.key.public.key {
            KeyData::Dsa { .. } => Algorithm::Dsa,
            KeyData::Ecdsa { curve, .. } => Algorithm::Ecdsa { curve: *curve },
            KeyData::Ed25519 { .. } => Algorithm::Ed25519,
            KeyData::Rsa { .. } => Algorithm::Rsa {
                hash: self.hash_alg,
            },
            KeyData::SkEcdsaSha2NistP256 { .. } => Algorithm::SkEcdsaSha2NistP256,
            KeyData::SkEd25519 { .. } => Algorithm::SkEd25519,
            // Such keys have no pair in the grammar.
            KeyData::Other { .. } => Algorithm::Other(Text::new(
                self.key.public.comment.allocator(),
            )),
            KeyData::Certificate(certificate) => {
                let _ = certificate.is_certificate();
                Algorithm::Other(Text::new(self.key.public.comment.allocator()))
            }
        }
    }

    pub fn hash_alg(&self) -> Option<HashAlg>
        ensures { result ≡ self.now.1 }
    {
        self.hash_alg
    }

    pub fn key(&self) -> &PrivateKey
        ensures { result.now ≡ self.now.0 }
    {
        &self.key
    }
}

fn hash_for(key: &KeyData, hash: Option<HashAlg>) -> Option<HashAlg>
    ensures { result ≡ kept_hash (view key.now) hash }
{
    match key {
        KeyData::Rsa { .. } => hash,
        KeyData::Certificate(certificate) => {
            let _ = certificate.is_certificate();
            None
        }
        _ => None,
    }
}
