//! Key pairs: a public key and the private numbers that go with it.

ghost use Rattle.std.specs.Prelude.{◌≡◌};

use crate::public_key::PublicKey;
use sshc_wire::Octets;
use std::marker::Model;

/// The private part of a key pair. Numbers are kept as the bytes of their mpints.
#[derive(Drop, PartialEq, Eq)]
pub enum PairData {
    Dsa {
        x: Octets,
    },
    Ecdsa {
        d: Octets,
    },
    /// 64 bytes, of which the last 32 are the public key.
    Ed25519 {
        private: Octets,
    },
    Rsa {
        d: Octets,
        iqmp: Octets,
        p: Octets,
        q: Octets,
    },
}

/// A key pair, which contracts see as the public key's value and the private part.
#[derive(Drop)]
pub struct PrivateKey {
    pub public: PublicKey,
    pub pair: PairData,
}

impl Model for PrivateKey {
    ghost use Rattle.sshc_key.specs.PairCode.{KeyPair, key_pair_code};

    ghost Value = { KeyPair };

    ghost coded = { key_pair_code };

    ghost use Rattle.sshc_key.specs.PairView.{paired};

    ghost view = { paired };
}

impl PrivateKey {
    pub fn public_key(&self) -> &PublicKey
        ensures { result.now ≡ self.now.public }
    {
        &self.public
    }
}
