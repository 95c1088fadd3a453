//! Keys by the names that a person gives them.

ghost use Rattle.std.specs.Prelude.{◌≡◌, ◌++◌, codes, find, option_copied, string_bytes, IfErr, IfOk, Err, Ok};
ghost use Rattle.std.specs.List.{list_any};
ghost use Rattle.base64.specs.Engines.{standard_no_pad};
ghost use Rattle.base64.specs.GeneralPurpose.{encode_of};
ghost use Rattle.sha2.specs.Sha256.{sha256};
ghost use Rattle.sshc_proxy_policy.specs.PolicyNames.{blob_by, fingerprint, is_another, is_named, key_named};

use crate::fault::Fault;
use base64::engine::general_purpose::STANDARD_NO_PAD;
use sha2::{Digest, Sha256};
use sshc_wire::{NoMemory, Octets};
use std::alloc::Global;
use std::marker::Model;

/// A key that a policy may name, which contracts see as its blob and its name.
#[derive(Drop)]
pub struct NamedKey {
    blob: Octets,
    name: Octets,
    fingerprint: Octets,
}

impl Model for NamedKey {
    ghost use Rattle.std.specs.Prelude.{◌≡◌};
    ghost use Rattle.sshc_proxy_policy.specs.PolicyNames.{Named};
    ghost use Rattle.sshc_proxy_policy.specs.PolicyNames.{fingerprint as fingerprint_of};

    ghost Value = { Named };

    ghost view = { λ k. record { blob = k.blob; name = k.name } };

    ghost invariant = { λ k. k.fingerprint ≡ fingerprint_of k.blob };
}

impl NamedKey {
    /// The key with this blob, under the comment with which an agent lists it or the path of its file.
    pub fn new(alloc: Global, blob: Octets, name: Octets) -> Result<NamedKey, NoMemory>
        ensures { IfOk result (λ key. key ≡ record { blob = blob; name = name }) }
    {
        let fingerprint = fingerprint(alloc, blob.as_slice())?;
        Ok(NamedKey {
            blob,
            name,
            fingerprint,
        })
    }

    pub fn blob(&self) -> &[u8]
        ensures { result.now ≡ self.now.blob }
    {
        self.blob.as_slice()
    }

    /// Whether this is its name or its fingerprint.
    fn is_named(&self, text: &str) -> bool
        ensures { result ≡ is_named text.now self.now }
    {
        self.name.as_slice() == text.as_bytes() || self.fingerprint.as_slice() == text.as_bytes()
    }
}

/// The fingerprint of a blob, as `ssh-keygen -l` prints it.
fn fingerprint(alloc: Global, blob: &[u8]) -> Result<Octets, NoMemory>
    ensures { IfOk result (λ text. text ≡ fingerprint blob.now) }
{
    let digest = Sha256::digest(blob);
    let encoded = STANDARD_NO_PAD.encode(alloc, digest.as_slice())?;
    let text = format!(in alloc; "SHA256:{encoded}")?;
    Octets::from_slice(alloc, text.as_bytes())
}

/// Whether a key of this name has another blob.
fn is_another(text: &str, blob: &[u8], key: &NamedKey) -> bool
    ensures { result ≡ is_another text.now blob.now key.now }
{
    key.is_named(text) && key.blob.as_slice() != blob
}

/// The first key of this name.
fn first_named<'a>(keys: &'a [NamedKey], text: &str) -> Option<&'a NamedKey>
    ensures { option_copied result ≡ find (is_named text.now) keys.now }
{
    for key in keys {
        if key.is_named(text) {
            return Some(key);
        }
    }
    None
}

/// Whether the name is also that of a key with another blob.
fn is_ambiguous(keys: &[NamedKey], text: &str, blob: &[u8]) -> bool
    ensures { result ≡ list_any (is_another text.now blob.now) keys.now }
{
    keys.iter().any(|other| is_another(text, blob, other))
}

/// The key that has this name or fingerprint. Several of one name have to be one key.
#[tactic(auto, unfolding(crate::specs::PolicyNames::key_named))]
pub(crate) fn key_named<'a>(keys: &'a [NamedKey], text: &str) -> Result<&'a NamedKey, Fault>
    ensures ok { IfOk result (λ key. key_named keys.now text.now ≡ Ok key.now.blob) }
    ensures err { IfErr result (λ fault. key_named keys.now text.now ≡ Err fault) }
{
    match first_named(keys, text) {
        None => Err(Fault::UnknownKey),
        Some(key) => {
            if is_ambiguous(keys, text, key.blob()) {
                Err(Fault::AmbiguousKey)
            } else {
                Ok(key)
            }
        }
    }
}
