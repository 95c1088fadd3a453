//! The name with which a key's blob begins.

ghost use Rattle.std.specs.Prelude.{◌≡◌, ◌++◌, false, IfOk, codes};
ghost use Rattle.sshc_key.specs.AlgorithmNames.{kind_name, certificate_name};
ghost use Rattle.sshc_key.specs.KeyGrammar.{kind_of, key_name};
ghost use Rattle.sshc_key.specs.LentNames.{kind_lent, spelled};
ghost use Rattle.sshc_key.specs.RequestNames.{certified_name, is_plain_rsa, request_name, rsa_name};
ghost use Rattle.sshc_key.specs.View.{view};

use crate::algorithm_name::AlgorithmName;
use crate::key_data::{Certificate, KeyData};
use crate::kind::Known;
use sshc_wire::{HashAlg, NoMemory, Text};
use std::alloc::Global;

/// The kind of a plain key, which borrows a name that isn't in the table.
#[derive(Clone, Copy)]
enum KindRef<'a> {
    Known(Known),
    Opaque(&'a str),
}

impl<'a> KindRef<'a> {
    fn name(self) -> AlgorithmName<'a>
        ensures { spelled result ≡ kind_name (kind_lent self.entry) }
    {
        match self {
            KindRef::Known(known) => AlgorithmName::Known(known.name()),
            KindRef::Opaque(name) => AlgorithmName::Own(name),
        }
    }

    fn certificate_name(self) -> AlgorithmName<'a>
        ensures { spelled result ≡ certificate_name (kind_lent self.entry) }
    {
        match self {
            KindRef::Known(known) => AlgorithmName::Known(known.certificate_name()),
            KindRef::Opaque(name) => AlgorithmName::Certified(name),
        }
    }
}

impl KeyData {
    /// The kind of the key, or of the key that a certificate speaks of.
    fn kind(&self) -> KindRef<'_>
        ensures { kind_lent result ≡ kind_of (view self.now) }
    {
        match self {
            KeyData::Dsa { .. } => KindRef::Known(Known::Dsa),
            KeyData::Ecdsa { curve, .. } => KindRef::Known(Known::Ecdsa(*curve)),
            KeyData::Ed25519 { .. } => KindRef::Known(Known::Ed25519),
            KeyData::Rsa { .. } => KindRef::Known(Known::Rsa),
            KeyData::SkEcdsaSha2NistP256 { .. } => KindRef::Known(Known::SkEcdsaSha2NistP256),
            KeyData::SkEd25519 { .. } => KindRef::Known(Known::SkEd25519),
            KeyData::Other { name, .. } => KindRef::Opaque(name.as_str()),
            KeyData::Certificate(certificate) => certificate.public_key.kind(),
        }
    }

    /// The name with which the key's blob begins.
    pub(crate) fn name(&self) -> AlgorithmName<'_>
        ensures { spelled result ≡ key_name (view self.now) }
    {
        match self {
            KeyData::Certificate(certificate) => certificate.name(),
            _ => self.kind().name(),
        }
    }
}

/// The name under which an RSA key signs with this hash (RFC 8332, section 3).
fn rsa_name(hash_alg: Option<HashAlg>) -> &'static str
    ensures { result.now ≡ rsa_name hash_alg }
{
    match hash_alg {
        None => "ssh-rsa",
        Some(HashAlg::Sha256) => "rsa-sha2-256",
        Some(HashAlg::Sha512) => "rsa-sha2-512",
    }
}

/// The name under which the key of an RSA certificate signs with this hash (OpenSSH's PROTOCOL.certkeys).
fn rsa_certificate_name(hash_alg: Option<HashAlg>) -> &'static str
    ensures { result.now ≡ rsa_name hash_alg ++ codes "-cert-v01@openssh.com" }
{
    match hash_alg {
        None => "ssh-rsa-cert-v01@openssh.com",
        Some(HashAlg::Sha256) => "rsa-sha2-256-cert-v01@openssh.com",
        Some(HashAlg::Sha512) => "rsa-sha2-512-cert-v01@openssh.com",
    }
}

impl Certificate {
    /// The name with which the certificate's blob begins.
    pub(super) fn name(&self) -> AlgorithmName<'_>
        ensures { spelled result ≡ key_name self.now }
    {
        self.public_key.kind().certificate_name()
    }
}

impl KeyData {
    fn is_plain_rsa(&self) -> bool
        ensures { result ≡ is_plain_rsa (view self.now) }
    {
        match self {
            KeyData::Rsa { .. } => true,
            KeyData::Certificate(certificate) => {
                let _ = certificate.is_certificate();
                false
            }
            _ => false,
        }
    }

    /// The algorithm that a request names for a certificate for this key.
    fn certified_name(&self, hash_alg: Option<HashAlg>) -> AlgorithmName<'_>
        ensures { spelled result ≡ certified_name (view self.now) hash_alg }
    {
        let name = self.kind().certificate_name();
        if self.is_plain_rsa() {
            AlgorithmName::Known(rsa_certificate_name(hash_alg))
        } else {
            name
        }
    }

    /// The algorithm that a request names for the key, unless it is an RSA key.
    #[tactic(auto, unfolding(crate::specs::RequestNames::request_name))]
    fn fixed_name(&self, hash_alg: Option<HashAlg>) -> AlgorithmName<'_>
        ensures { is_plain_rsa (view self.now) ≡ false → spelled result ≡ request_name (view self.now) hash_alg }
    {
        match self {
            KeyData::Certificate(certificate) => certificate.request_name(hash_alg),
            _ => self.name(),
        }
    }

    /// The algorithm that a request names for the key or certificate; of an RSA key it depends on the hash.
    #[tactic(auto, unfolding(crate::specs::RequestNames::request_name))]
    pub fn request_name(&self, hash_alg: Option<HashAlg>) -> AlgorithmName<'_>
        ensures { spelled result ≡ request_name (view self.now) hash_alg }
    {
        let name = self.fixed_name(hash_alg);
        if self.is_plain_rsa() {
            AlgorithmName::Known(rsa_name(hash_alg))
        } else {
            name
        }
    }

    /// The same as a text of its own.
    pub fn request_algorithm(
        &self,
        alloc: Global,
        hash_alg: Option<HashAlg>,
    ) -> Result<Text, NoMemory>
        ensures { IfOk result (λ t. t ≡ request_name (view self.now) hash_alg) }
    {
        self.request_name(hash_alg).to_text(alloc)
    }
}

impl Certificate {
    /// The algorithm that a request names for the certificate; of one for an RSA key it depends on the hash.
    #[tactic(auto, unfolding(crate::specs::RequestNames::request_name))]
    pub fn request_name(&self, hash_alg: Option<HashAlg>) -> AlgorithmName<'_>
        ensures { spelled result ≡ request_name self.now hash_alg }
    {
        self.public_key.certified_name(hash_alg)
    }
}
