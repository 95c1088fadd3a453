//! The key of a line.

ghost use Rattle.std.specs.Prelude.{◌≡◌, filter, IfOk, option_map};
ghost use Rattle.base64.specs.Engines.{standard};
ghost use Rattle.base64.specs.GeneralPurpose.{decoded_of};
ghost use Rattle.sshc_key.specs.Nesting.{whole_blob_key};
ghost use Rattle.sshc_key.specs.View.{view};
ghost use Rattle.sshc_hosts_openssh.specs.Cuts.{key_seen};
ghost use Rattle.sshc_hosts_openssh.specs.LineKeys.{bare, is_known_type, is_named, is_no_space, is_type_of, key_in};
ghost use Rattle.sshc_hosts_openssh.specs.LineKeys.{key_on};

use crate::hashed::decoded;
use sshc_key::{Error, HashAlg, KeyData, PublicKey, parse_whole_public_key};
use sshc_wire::{NoMemory, Octets};
use std::alloc::Global;

/// The key that a certificate certifies; of a plain key the key itself.
pub fn bare(key: &KeyData) -> &KeyData
    ensures { view result.now ≡ bare (view key.now) }
{
    match key {
        KeyData::Certificate(certificate) => {
            let _ = certificate.is_certificate();
            &certificate.public_key
        }
        _ => key,
    }
}

/// Whether the type of the key, which is no certificate, has a name of OpenSSH's.
fn is_known_type(key: &KeyData) -> bool
    ensures { result ≡ is_known_type (view key.now) }
{
    match key {
        KeyData::Other { .. } => false,
        KeyData::Certificate(certificate) => {
            let _ = certificate.is_certificate();
            false
        }
        _ => true,
    }
}

/// Whether the word is the name of the key's type, or of its signatures by the hash.
fn is_named(
    alloc: Global,
    word: &[u8],
    key: &KeyData,
    hash: Option<HashAlg>,
) -> Result<bool, NoMemory>
    ensures { IfOk result (λ b. b ≡ is_named word.now (view key.now) hash) }
{
    let name = key.request_algorithm(alloc, hash)?;
    Ok(word == name.as_str().as_bytes())
}

/// Whether the word is the name of the key's type. An RSA key's type may also be named as its signatures are.
fn is_type_of(alloc: Global, word: &[u8], key: &KeyData) -> Result<bool, NoMemory>
    ensures { IfOk result (λ b. b ≡ is_type_of word.now (view key.now)) }
{
    if !is_known_type(bare(key)) {
        return Ok(false);
    }
    Ok(
        is_named(alloc, word, key, None)?
            || is_named(alloc, word, key, Some(HashAlg::Sha256))?
            || is_named(alloc, word, key, Some(HashAlg::Sha512))?,
    )
}

/// The base64 in a word, without the white space in it.
fn blob_in(alloc: Global, word: &[u8]) -> Result<Option<Octets>, NoMemory>
    ensures { IfOk result (λ blob. blob ≡ decoded_of standard (filter is_no_space word.now)) }
{
    let base64: Vec<u8> = word
        .iter()
        .copied()
        .filter(|b| !(9 <= *b && *b <= 13 || *b == b' '))
        .collect(alloc)?;
    decoded(alloc, &base64)
}

/// The key that is the whole blob, if there is one.
fn key_of_blob(alloc: Global, blob: &[u8]) -> Result<Option<PublicKey>, NoMemory>
    ensures { IfOk result (λ key. option_map key_seen key ≡ whole_blob_key blob.now) }
{
    match parse_whole_public_key(alloc, blob) {
        Ok(key) => Ok(Some(key)),
        Err(Error::NoMemory) => Err(NoMemory),
        Err(_) => Ok(None),
    }
}

/// The key whose blob the word is in base64, if there is one.
fn key_in(alloc: Global, word: &[u8]) -> Result<Option<PublicKey>, NoMemory>
    ensures { IfOk result (λ key. option_map key_seen key ≡ key_in word.now) }
{
    match blob_in(alloc, word)? {
        Some(blob) => key_of_blob(alloc, blob.as_slice()),
        None => Ok(None),
    }
}

/// The key of a line with these words for its type and its blob, if there is one of this type.
pub fn key_on(alloc: Global, key_type: &[u8], word: &[u8]) -> Result<Option<PublicKey>, NoMemory>
    ensures { IfOk result (λ key. option_map key_seen key ≡ key_on key_type.now word.now) }
{
    let Some(key) = key_in(alloc, word)? else {
        return Ok(None);
    };
    if is_type_of(alloc, key_type, &key.key)? {
        Ok(Some(key))
    } else {
        Ok(None)
    }
}
