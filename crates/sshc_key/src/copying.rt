//! Copies of keys and of what holds them, each of the same value.

ghost use Rattle.std.specs.Prelude.{◌≡◌, IfOk, Ok, Some};
ghost use Rattle.sshc_key.specs.KeyGrammar.{statement_in, dsa, rsa, sk_ecdsa, sk_ed25519, opaque, plain};
ghost use Rattle.sshc_key.specs.View.{view};

use crate::algorithm::Algorithm;
use crate::identity::{PrivateKeyWithHashAlg, PublicKeyOrCertificate};
use crate::key_data::{Certificate, KeyData};
use crate::pair::{PairData, PrivateKey};
use crate::public_key::PublicKey;
use crate::statement::Statement;
use sshc_wire::{List, NoMemory, Octets, Text};

/// Both values, or neither. A caller holds no key where a step can fail.
fn both<A: Drop, B: Drop>(
    first: Result<A, NoMemory>,
    second: Result<B, NoMemory>,
) -> Result<(A, B), NoMemory>
    ensures { IfOk result (λ x. (first ≡ Ok x.0) × (second ≡ Ok x.1)) }
{
    match first {
        Ok(one) => match second {
            Ok(other) => Ok((one, other)),
            Err(refused) => {
                drop(one);
                Err(refused)
            }
        },
        Err(refused) => Err(refused),
    }
}

fn copied_texts(texts: &List<Text>) -> Result<List<Text>, NoMemory>
    ensures { IfOk result (λ l. l ≡ texts.now) }
{
    let mut copies = List::new(texts.allocator());
    for text in texts.as_slice() {
        copies.push(text.copy()?)?;
    }
    Ok(copies)
}

fn copied_options(options: &List<(Text, Octets)>) -> Result<List<(Text, Octets)>, NoMemory>
    ensures { IfOk result (λ l. l ≡ options.now) }
{
    let mut copies = List::new(options.allocator());
    for option in options.as_slice() {
        copies.push((option.0.copy()?, option.1.copy()?))?;
    }
    Ok(copies)
}

impl Algorithm {
    pub fn copy(&self) -> Result<Algorithm, NoMemory>
        ensures { IfOk result (λ a. a ≡ self.now) }
    {
        match self {
            Algorithm::Dsa => Ok(Algorithm::Dsa),
            Algorithm::Ecdsa { curve } => Ok(Algorithm::Ecdsa { curve: *curve }),
            Algorithm::Ed25519 => Ok(Algorithm::Ed25519),
            Algorithm::Rsa { hash } => Ok(Algorithm::Rsa { hash: *hash }),
            Algorithm::SkEcdsaSha2NistP256 => Ok(Algorithm::SkEcdsaSha2NistP256),
            Algorithm::SkEd25519 => Ok(Algorithm::SkEd25519),
            Algorithm::Other(name) => Ok(Algorithm::Other(name.copy()?)),
        }
    }
}

fn copied_dsa(p: &Octets, q: &Octets, g: &Octets, y: &Octets) -> Result<KeyData, NoMemory>
    ensures { IfOk result (λ k. view k ≡ plain (dsa p.now q.now g.now y.now)) }
{
    let p = p.copy()?;
    let q = q.copy()?;
    let g = g.copy()?;
    let y = y.copy()?;
    Ok(KeyData::Dsa { p, q, g, y })
}

fn copied_rsa(e: &Octets, n: &Octets) -> Result<KeyData, NoMemory>
    ensures { IfOk result (λ k. view k ≡ plain (rsa e.now n.now)) }
{
    let e = e.copy()?;
    let n = n.copy()?;
    Ok(KeyData::Rsa { e, n })
}

fn copied_sk_ecdsa(point: &Octets, application: &Text) -> Result<KeyData, NoMemory>
    ensures { IfOk result (λ k. view k ≡ plain (sk_ecdsa point.now application.now)) }
{
    let point = point.copy()?;
    let application = application.copy()?;
    Ok(KeyData::SkEcdsaSha2NistP256 { point, application })
}

fn copied_sk_ed25519(public: &Octets, application: &Text) -> Result<KeyData, NoMemory>
    ensures { IfOk result (λ k. view k ≡ plain (sk_ed25519 public.now application.now)) }
{
    let public = public.copy()?;
    let application = application.copy()?;
    Ok(KeyData::SkEd25519 {
        public,
        application,
    })
}

fn copied_opaque(name: &Text, body: &Octets) -> Result<KeyData, NoMemory>
    ensures { IfOk result (λ k. view k ≡ plain (opaque name.now body.now)) }
{
    let name = name.copy()?;
    let body = body.copy()?;
    Ok(KeyData::Other { name, body })
}

impl KeyData {
    #[cycle(copies)]
    pub fn copy(&self) -> Result<KeyData, NoMemory>
        ensures { IfOk result (λ k. view k ≡ view self.now) }
    {
        match self {
            KeyData::Dsa { p, q, g, y } => copied_dsa(p, q, g, y),
            KeyData::Ecdsa { curve, point } => Ok(KeyData::Ecdsa {
                curve: *curve,
                point: point.copy()?,
            }),
            KeyData::Ed25519 { public } => Ok(KeyData::Ed25519 {
                public: public.copy()?,
            }),
            KeyData::Rsa { e, n } => copied_rsa(e, n),
            KeyData::SkEcdsaSha2NistP256 { point, application } => {
                copied_sk_ecdsa(point, application)
            }
            KeyData::SkEd25519 {
                public,
                application,
            } => copied_sk_ed25519(public, application),
            KeyData::Other { name, body } => copied_opaque(name, body),
            KeyData::Certificate(certificate) => {
                let copied = certificate.copy()?;
                let alloc = certificate.valid_principals.allocator();
                Ok(KeyData::Certificate(Box::new(alloc, copied)?))
            }
        }
    }
}

impl Certificate {
    #[cycle(copies)]
    pub fn copy(&self) -> Result<Certificate, NoMemory>
        ensures { IfOk result (λ c. c ≡ self.now) }
    {
        let nonce = self.nonce.copy()?;
        let says = self.copied_statement()?;
        let signature = self.signature.copy()?;
        let keys = both(self.public_key.copy(), self.signature_key.copy())?;
        Ok(Certificate {
            nonce,
            public_key: keys.0,
            serial: says.serial,
            cert_type: says.cert_type,
            key_id: says.key_id,
            valid_principals: says.valid_principals,
            valid_after: says.valid_after,
            valid_before: says.valid_before,
            critical_options: says.critical_options,
            extensions: says.extensions,
            reserved: says.reserved,
            signature_key: keys.1,
            signature,
        })
    }

    fn copied_statement(&self) -> Result<Statement, NoMemory>
        ensures { IfOk result (λ s. statement_in self.now ≡ Some s) }
    {
        let key_id = self.key_id.copy()?;
        let valid_principals = copied_texts(&self.valid_principals)?;
        let critical_options = copied_options(&self.critical_options)?;
        let extensions = copied_options(&self.extensions)?;
        let reserved = self.reserved.copy()?;
        Ok(Statement {
            serial: self.serial,
            cert_type: self.cert_type,
            key_id,
            valid_principals,
            valid_after: self.valid_after,
            valid_before: self.valid_before,
            critical_options,
            extensions,
            reserved,
        })
    }
}

impl PublicKey {
    pub fn copy(&self) -> Result<PublicKey, NoMemory>
        ensures { IfOk result (λ k. k ≡ self.now) }
    {
        let comment = self.comment.copy()?;
        let key = self.key.copy()?;
        Ok(PublicKey { key, comment })
    }
}

impl PairData {
    pub fn copy(&self) -> Result<PairData, NoMemory>
        ensures { IfOk result (λ p. p ≡ self.now) }
    {
        match self {
            PairData::Dsa { x } => Ok(PairData::Dsa { x: x.copy()? }),
            PairData::Ecdsa { d } => Ok(PairData::Ecdsa { d: d.copy()? }),
            PairData::Ed25519 { private } => Ok(PairData::Ed25519 {
                private: private.copy()?,
            }),
            PairData::Rsa { d, iqmp, p, q } => Ok(PairData::Rsa {
                d: d.copy()?,
                iqmp: iqmp.copy()?,
                p: p.copy()?,
                q: q.copy()?,
            }),
        }
    }
}

impl PrivateKey {
    pub fn copy(&self) -> Result<PrivateKey, NoMemory>
        ensures { IfOk result (λ k. k ≡ self.now) }
    {
        let both = both(self.public.copy(), self.pair.copy())?;
        Ok(PrivateKey {
            public: both.0,
            pair: both.1,
        })
    }
}

impl PrivateKeyWithHashAlg {
    pub fn copy(&self) -> Result<PrivateKeyWithHashAlg, NoMemory>
        ensures { IfOk result (λ k. k ≡ self.now) }
    {
        let key = self.key().copy()?;
        Ok(PrivateKeyWithHashAlg::with_kept(key, self.hash_alg()))
    }
}

impl PublicKeyOrCertificate {
    pub fn copy(&self) -> Result<PublicKeyOrCertificate, NoMemory>
        ensures { IfOk result (λ k. k ≡ self.now) }
    {
        match self {
            PublicKeyOrCertificate::PublicKey { key, hash_alg } => {
                Ok(PublicKeyOrCertificate::PublicKey {
                    key: key.copy()?,
                    hash_alg: *hash_alg,
                })
            }
            PublicKeyOrCertificate::Certificate(certificate) => Ok(
                PublicKeyOrCertificate::Certificate(certificate.copy()?),
            ),
        }
    }
}
