//! Public keys and certificates as values (RFC 4253, section 6.6; OpenSSH's PROTOCOL.certkeys).

ghost use Rattle.std.specs.Prelude.{IsTrue};
ghost use Rattle.sshc_key.specs.KeyGrammar.{IsCertificate};

use crate::algorithm::EcdsaCurve;
use crate::signature::Signature;
use sshc_wire::{List, Octets, Text};
use std::marker::Model;

/// What a public key is made of. Numbers are kept as the bytes of their mpints.
#[cycle(key)]
#[derive(Drop)]
pub enum KeyData {
    Dsa {
        p: Octets,
        q: Octets,
        g: Octets,
        y: Octets,
    },
    Ecdsa {
        curve: EcdsaCurve,
        point: Octets,
    },
    Ed25519 {
        public: Octets,
    },
    Rsa {
        e: Octets,
        n: Octets,
    },
    SkEcdsaSha2NistP256 {
        point: Octets,
        application: Text,
    },
    SkEd25519 {
        public: Octets,
        application: Text,
    },
    /// A key of an algorithm whose name has a domain, with its blob's one string.
    Other {
        name: Text,
        body: Octets,
    },
    Certificate(Box<Certificate>),
}

/// Whom a certificate speaks of.
#[derive(Clone, Copy, PartialEq, Eq)]
pub enum CertType {
    User,
    Host,
}

/// A certificate, which contracts see as the key of the grammar that it is.
#[cycle(key)]
#[derive(Drop)]
pub struct Certificate {
    pub nonce: Octets,
    /// The certified key, which is no certificate.
    pub public_key: KeyData,
    pub serial: u64,
    pub cert_type: CertType,
    pub key_id: Text,
    pub valid_principals: List<Text>,
    /// Seconds since 1970.
    pub valid_after: u64,
    /// Seconds since 1970.
    pub valid_before: u64,
    pub critical_options: List<(Text, Octets)>,
    pub extensions: List<(Text, Octets)>,
    pub reserved: Octets,
    pub signature_key: KeyData,
    pub signature: Signature,
}

impl Certificate {
    /// That this is a certificate and no plain key, which a contract knows only once it was asked.
    pub fn is_certificate(&self) -> bool
        ensures yes { IsTrue result }
        ensures parts { IsCertificate self.now }
    {
        let _nonce = &self.nonce;
        true
    }
}

impl Model for Certificate {
    ghost use Rattle.sshc_key.specs.KeyGrammar.{Key};
    ghost use Rattle.sshc_key.specs.KeyCode.{key_code, key_size};

    ghost Value = { Key };

    ghost coded = { key_code };

    ghost use Rattle.sshc_key.specs.View.{certified};

    ghost view = { certified };

    ghost size = { key_size };

    ghost use Rattle.sshc_key.specs.FallsLaws.{certificate_falls};

    ghost size_decreases = { λ a h. certificate_falls a };
}
