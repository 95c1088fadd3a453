//! The kinds of blobs, by their names.

ghost use Rattle.std.specs.Prelude.{◌≡◌};
ghost use Rattle.sshc_key.specs.AlgorithmNames.{known_name, known_stem, known_certificate_name, known_stemmed};
ghost use Rattle.sshc_key.specs.AlgorithmNames.{known_named, known_certified};

use crate::algorithm::EcdsaCurve;
use sshc_wire::Text;

/// A kind of plain key that has a name of its own.
#[derive(Clone, Copy, PartialEq, Eq)]
pub enum Known {
    Dsa,
    Ecdsa(EcdsaCurve),
    Ed25519,
    Rsa,
    SkEcdsaSha2NistP256,
    SkEd25519,
}

/// A kind of plain key, which is an algorithm without a hash.
#[derive(Drop, PartialEq, Eq)]
pub enum Kind {
    Known(Known),
    /// An algorithm that isn't in the table, by its name, which has a domain.
    Opaque(Text),
}

/// What a blob's name says: a plain key or a certificate of a kind.
#[derive(Drop, PartialEq, Eq)]
pub enum Tag {
    Plain(Kind),
    Certified(Kind),
}

const KNOWN: [Known; 8] = [
    Known::Dsa,
    Known::Ecdsa(EcdsaCurve::NistP256),
    Known::Ecdsa(EcdsaCurve::NistP384),
    Known::Ecdsa(EcdsaCurve::NistP521),
    Known::Ed25519,
    Known::Rsa,
    Known::SkEcdsaSha2NistP256,
    Known::SkEd25519,
];

impl Known {
    pub fn name(self) -> &'static str
        ensures { result.now ≡ known_name self }
    {
        match self {
            Known::Dsa => "ssh-dss",
            Known::Ecdsa(EcdsaCurve::NistP256) => "ecdsa-sha2-nistp256",
            Known::Ecdsa(EcdsaCurve::NistP384) => "ecdsa-sha2-nistp384",
            Known::Ecdsa(EcdsaCurve::NistP521) => "ecdsa-sha2-nistp521",
            Known::Ed25519 => "ssh-ed25519",
            Known::Rsa => "ssh-rsa",
            Known::SkEcdsaSha2NistP256 => "sk-ecdsa-sha2-nistp256@openssh.com",
            Known::SkEd25519 => "sk-ssh-ed25519@openssh.com",
        }
    }

    /// The name of a certificate for such a key.
    pub fn certificate_name(self) -> &'static str
        ensures { result.now ≡ known_certificate_name self }
    {
        match self {
            Known::Dsa => "ssh-dss-cert-v01@openssh.com",
            Known::Ecdsa(EcdsaCurve::NistP256) => "ecdsa-sha2-nistp256-cert-v01@openssh.com",
            Known::Ecdsa(EcdsaCurve::NistP384) => "ecdsa-sha2-nistp384-cert-v01@openssh.com",
            Known::Ecdsa(EcdsaCurve::NistP521) => "ecdsa-sha2-nistp521-cert-v01@openssh.com",
            Known::Ed25519 => "ssh-ed25519-cert-v01@openssh.com",
            Known::Rsa => "ssh-rsa-cert-v01@openssh.com",
            Known::SkEcdsaSha2NistP256 => "sk-ecdsa-sha2-nistp256-cert-v01@openssh.com",
            Known::SkEd25519 => "sk-ssh-ed25519-cert-v01@openssh.com",
        }
    }

    /// The name before its domain, if it has one.
    fn stem(self) -> &'static str
        ensures { result.now ≡ known_stem self }
    {
        match self {
            Known::Dsa => "ssh-dss",
            Known::Ecdsa(EcdsaCurve::NistP256) => "ecdsa-sha2-nistp256",
            Known::Ecdsa(EcdsaCurve::NistP384) => "ecdsa-sha2-nistp384",
            Known::Ecdsa(EcdsaCurve::NistP521) => "ecdsa-sha2-nistp521",
            Known::Ed25519 => "ssh-ed25519",
            Known::Rsa => "ssh-rsa",
            Known::SkEcdsaSha2NistP256 => "sk-ecdsa-sha2-nistp256",
            Known::SkEd25519 => "sk-ssh-ed25519",
        }
    }

    #[tactic(auto, unfolding(crate::specs::AlgorithmNames::known_stemmed))]
    pub fn stemmed(stem: &[u8]) -> Option<Known>
        ensures { result ≡ known_stemmed stem.now }
    {
        KNOWN
            .iter()
            .copied()
            .find(|known| known.stem().as_bytes() == stem)
    }

    #[tactic(auto, unfolding(crate::specs::AlgorithmNames::known_named))]
    pub fn named(name: &[u8]) -> Option<Known>
        ensures { result ≡ known_named name.now }
    {
        KNOWN
            .iter()
            .copied()
            .find(|known| known.name().as_bytes() == name)
    }

    #[tactic(auto, unfolding(crate::specs::AlgorithmNames::known_certified))]
    pub fn certified(name: &[u8]) -> Option<Known>
        ensures { result ≡ known_certified name.now }
    {
        KNOWN
            .iter()
            .copied()
            .find(|known| known.certificate_name().as_bytes() == name)
    }
}
