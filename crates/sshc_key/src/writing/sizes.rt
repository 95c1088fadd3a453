//! How many bytes keys, certificates and signatures take. No clause says so: a size that is too small costs memory, and
//! no byte.

use crate::algorithm::EcdsaCurve;
use crate::key_data::{Certificate, KeyData};
use crate::signature::Signature;
use sshc_wire::{Octets, Text, string_size};

/// How many bytes a certificate has beside its strings: two numbers of times, the serial and the type.
const NUMBERS: usize = 28;

/// How many bytes the two fields of a security key's signature have.
const SK_FIELDS: usize = 5;

fn octets_size(bytes: &Octets) -> usize {
    string_size(bytes.as_slice().len())
}

fn text_size(text: &Text) -> usize {
    string_size(text.as_str().len())
}

fn texts_size(texts: &[Text]) -> usize {
    let mut size = 0usize;
    for text in texts {
        size = size.saturating_add(text_size(text));
    }
    string_size(size)
}

fn options_size(options: &[(Text, Octets)]) -> usize {
    let mut size = 0usize;
    for option in options {
        let both = text_size(&option.0).saturating_add(octets_size(&option.1));
        size = size.saturating_add(both);
    }
    string_size(size)
}

fn dsa_size(p: &Octets, q: &Octets, g: &Octets, y: &Octets) -> usize {
    let group = octets_size(p).saturating_add(octets_size(q));
    let rest = octets_size(g).saturating_add(octets_size(y));
    group.saturating_add(rest)
}

impl Signature {
    fn size(&self) -> usize {
        let size = text_size(&self.name).saturating_add(octets_size(&self.body));
        match self.sk {
            None => size,
            Some(_) => size.saturating_add(SK_FIELDS),
        }
    }
}

impl KeyData {
    #[cycle(sizes)]
    fn fields_size(&self) -> usize {
        match self {
            KeyData::Dsa { p, q, g, y } => dsa_size(p, q, g, y),
            KeyData::Ecdsa { curve, point } => {
                string_size(curve.name().len()).saturating_add(octets_size(point))
            }
            KeyData::Ed25519 { public } => octets_size(public),
            KeyData::Rsa { e, n } => octets_size(e).saturating_add(octets_size(n)),
            KeyData::SkEcdsaSha2NistP256 { point, application } => {
                let key = octets_size(point).saturating_add(text_size(application));
                string_size(EcdsaCurve::NistP256.name().len()).saturating_add(key)
            }
            KeyData::SkEd25519 {
                public,
                application,
            } => octets_size(public).saturating_add(text_size(application)),
            KeyData::Other { body, .. } => octets_size(body),
            KeyData::Certificate(certificate) => certificate.body_size(),
        }
    }

    /// How many bytes the key's blob takes.
    #[cycle(sizes)]
    pub fn size(&self) -> usize {
        self.name().size().saturating_add(self.fields_size())
    }
}

impl Certificate {
    fn says_size(&self) -> usize {
        let named = text_size(&self.key_id).saturating_add(texts_size(
            self.valid_principals.as_slice(),
        ));
        let options = options_size(self.critical_options.as_slice()).saturating_add(options_size(
            self.extensions.as_slice(),
        ));
        let strings = named.saturating_add(options);
        strings.saturating_add(octets_size(&self.reserved).saturating_add(NUMBERS))
    }

    #[cycle(sizes)]
    fn body_size(&self) -> usize {
        let key = octets_size(&self.nonce).saturating_add(self.public_key.fields_size());
        let signer = string_size(self.signature_key.size());
        let signed = signer.saturating_add(string_size(self.signature.size()));
        key.saturating_add(self.says_size()).saturating_add(signed)
    }

    /// How many bytes the certificate's blob takes.
    pub fn size(&self) -> usize {
        self.name().size().saturating_add(self.body_size())
    }
}
