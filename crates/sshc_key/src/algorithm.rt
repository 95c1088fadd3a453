//! The algorithms of keys (RFC 4253, section 6.6; RFC 5656; RFC 8332; RFC 8709) and their curves.

ghost use Rattle.std.specs.Prelude.{◌≡◌};
ghost use Rattle.sshc_key.specs.AlgorithmNames.{curve_name, point_length};

use sshc_wire::{HashAlg, Text};

/// A curve of ECDSA (RFC 5656, section 10.1).
#[derive(Clone, Copy, PartialEq, Eq)]
pub enum EcdsaCurve {
    NistP256,
    NistP384,
    NistP521,
}

impl EcdsaCurve {
    pub fn name(self) -> &'static str
        ensures { result.now ≡ curve_name self }
    {
        match self {
            EcdsaCurve::NistP256 => "nistp256",
            EcdsaCurve::NistP384 => "nistp384",
            EcdsaCurve::NistP521 => "nistp521",
        }
    }

    /// How many bytes an uncompressed point has.
    pub(crate) fn point_length(self) -> usize
        ensures { result ≡ point_length self }
    {
        match self {
            EcdsaCurve::NistP256 => 65,
            EcdsaCurve::NistP384 => 97,
            EcdsaCurve::NistP521 => 133,
        }
    }
}

/// An algorithm of a key, for RSA with the hash of its signatures.
#[derive(Drop, PartialEq, Eq)]
pub enum Algorithm {
    Dsa,
    Ecdsa { curve: EcdsaCurve },
    Ed25519,
    Rsa { hash: Option<HashAlg> },
    SkEcdsaSha2NistP256,
    SkEd25519,
    Other(Text),
}

/// The algorithms of keys that have names of their own.
pub const ALL_KEY_TYPES: [Algorithm; 10] = [
    Algorithm::Dsa,
    Algorithm::Ecdsa {
        curve: EcdsaCurve::NistP256,
    },
    Algorithm::Ecdsa {
        curve: EcdsaCurve::NistP384,
    },
    Algorithm::Ecdsa {
        curve: EcdsaCurve::NistP521,
    },
    Algorithm::Ed25519,
    Algorithm::Rsa { hash: None },
    Algorithm::Rsa {
        hash: Some(HashAlg::Sha256),
    },
    Algorithm::Rsa {
        hash: Some(HashAlg::Sha512),
    },
    Algorithm::SkEcdsaSha2NistP256,
    Algorithm::SkEd25519,
];
