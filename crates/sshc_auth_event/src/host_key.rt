//! The host key of an exchange.

ghost use Rattle.std.specs.Prelude.{◌≡◌, IfOk, Some, bytes_eq};
ghost use Rattle.sshc_wire.specs.Wire.{IsBytes};
ghost use Rattle.sshc_key.specs.Nesting.{whole_blob_key};
ghost use Rattle.sshc_auth_event.specs.HostKey.{host_key, bare, is_plain, is_same_key, plain_identity};
ghost use Rattle.sshc_auth_event.specs.HostKey.{certificate_identity, certificate_case, TellsKeysApart};
ghost use Rattle.sshc_key.specs.View.{view};

use sshc_key::{Error, KeyData, PublicKey, PublicKeyOrCertificate, parse_whole_public_key};
use sshc_transport::ExchangeKey;
use sshc_wire::{NoMemory, Octets};
use std::alloc::Global;

/// The key that the whole blob encodes, if it is a key.
fn whole_key(alloc: Global, blob: &[u8]) -> Result<Option<PublicKey>, NoMemory>
    ensures { IfOk result (λ o. o ≡ bare (whole_blob_key blob.now)) }
{
    match parse_whole_public_key(alloc, blob) {
        Ok(key) => Ok(Some(key)),
        Err(error) => {
            if error == Error::NoMemory {
                Err(NoMemory)
            } else {
                Ok(None)
            }
        }
    }
}

fn is_plain_key(key: &PublicKey) -> bool
    ensures { result ≡ is_plain key.now.0 }
{
    match &key.key {
        KeyData::Certificate(certificate) => {
            let _ = &certificate.nonce;
            false
        }
        KeyData::Dsa { .. }
        | KeyData::Ecdsa { .. }
        | KeyData::Ed25519 { .. }
        | KeyData::Rsa { .. }
        | KeyData::SkEcdsaSha2NistP256 { .. }
        | KeyData::SkEd25519 { .. }
        | KeyData::Other { .. } => true,
    }
}

fn plain_identity_of(key: PublicKey) -> Option<PublicKeyOrCertificate>
    ensures { result ≡ plain_identity (Some key) }
{
    if is_plain_key(&key) {
        Some(PublicKeyOrCertificate::PublicKey {
            key,
            hash_alg: None,
        })
    } else {
        drop(key);
        None
    }
}

fn certificate_identity_of(key: PublicKey) -> Option<PublicKeyOrCertificate>
    ensures { result ≡ certificate_identity (Some key) }
{
    let PublicKey {
        key,
        comment: _comment,
    } = key;
    certificate_of(key)
}

fn certificate_of(key: KeyData) -> Option<PublicKeyOrCertificate>
    ensures { result ≡ certificate_case (view key) }
{
    match key {
        KeyData::Certificate(certificate) => {
            let _ = &certificate.nonce;
            Some(PublicKeyOrCertificate::Certificate(Box::into_inner(certificate)))
        }
        _plain => None,
    }
}

/// The host key of an exchange; `None` if the key is missing or the whole blob isn't a key of its sort.
pub fn host_key_of(
    alloc: Global,
    key: &ExchangeKey,
) -> Result<Option<PublicKeyOrCertificate>, NoMemory>
    ensures { IfOk result (λ o. o ≡ host_key key.now) }
{
    match key {
        ExchangeKey::Missing => Ok(None),
        ExchangeKey::Key(blob) => match whole_key(alloc, blob.as_slice())? {
            Some(key) => Ok(plain_identity_of(key)),
            None => Ok(None),
        },
        ExchangeKey::Certificate(blob) => match whole_key(alloc, blob.as_slice())? {
            Some(key) => Ok(certificate_identity_of(key)),
            None => Ok(None),
        },
    }
}

/// Whether two blobs have the same bytes.
fn is_same_blob(kept: &Octets, blob: &Octets) -> bool
    ensures same { result ≡ bytes_eq kept.now blob.now }
    ensures kept { IsBytes kept.now }
    ensures other { IsBytes blob.now }
{
    let bytes = kept.as_slice();
    let others = blob.as_slice();
    bytes == others
}

/// Whether the host key of an exchange is the one that was kept: both are keys, or both are certificates, of the same
/// bytes. A missing key is never the one that was kept.
#[tactic(auto, using(crate::proofs::Hints::is_same_key))]
pub fn is_same_key(kept: &ExchangeKey, key: &ExchangeKey) -> bool
    ensures same { result ≡ is_same_key kept.now key.now }
    ensures keys { TellsKeysApart result kept.now key.now }
{
    match kept {
        ExchangeKey::Missing => false,
        ExchangeKey::Key(bytes) => match key {
            ExchangeKey::Key(blob) => is_same_blob(bytes, blob),
            ExchangeKey::Missing => false,
            ExchangeKey::Certificate(_) => false,
        },
        ExchangeKey::Certificate(bytes) => match key {
            ExchangeKey::Certificate(blob) => is_same_blob(bytes, blob),
            ExchangeKey::Missing => false,
            ExchangeKey::Key(_) => false,
        },
    }
}

/// A copy of the host key of an exchange.
pub fn copied_host_key(key: &ExchangeKey) -> Result<ExchangeKey, NoMemory>
    ensures { IfOk result (λ k. k ≡ key.now) }
{
    match key {
        ExchangeKey::Missing => Ok(ExchangeKey::Missing),
        ExchangeKey::Key(blob) => Ok(ExchangeKey::Key(blob.copy()?)),
        ExchangeKey::Certificate(blob) => Ok(ExchangeKey::Certificate(blob.copy()?)),
    }
}
