//! Entries of a host field, plain and hashed.

ghost use Rattle.std.specs.Prelude.{◌≡◌, IfOk, IsFalse, filter};
ghost use Rattle.base64.specs.Engines.{standard};
ghost use Rattle.base64.specs.GeneralPurpose.{decoded_of};
ghost use Rattle.sshc_key.specs.KeyText.{is_no_line_end};
ghost use Rattle.sshc_hosts.specs.MatchingLines.{base64_bytes, hash_matches, hashed_matches, entry_matches, parts_at};

use crate::cutting::cut;
use crate::hmac::hmac_sha1;
use base64::DecodeAllocError;
use base64::engine::general_purpose::STANDARD;
use memchr::memchr2;
use sshc_key::without_line_ends;
use sshc_wire::{NoMemory, Octets};
use std::alloc::Global;

/// Whether the text has a carriage return or a line feed.
#[tactic(auto, using(crate::proofs::Places::no_line_ends))]
fn has_line_ends(text: &str) -> bool
    ensures { IsFalse result → filter is_no_line_end text.now ≡ text.now }
{
    memchr2(b'\r', b'\n', text.as_bytes()).is_some()
}

/// The bytes of a padded base64 text without line ends.
#[tactic(auto, unfolding(base64::specs::GeneralPurpose::decoded_of))]
fn decoded_whole(alloc: Global, text: &[u8]) -> Result<Option<Octets>, NoMemory>
    ensures { IfOk result (λ bytes. bytes ≡ decoded_of standard text.now) }
{
    match STANDARD.decode(alloc, text) {
        Ok(bytes) => Ok(Some(Octets::from_vec(bytes)?)),
        Err(DecodeAllocError::DecodeError(_)) => Ok(None),
        Err(DecodeAllocError::OutOfMemory) => Err(NoMemory),
    }
}

/// The bytes of a padded base64 text, whose line ends are dropped.
fn decoded(alloc: Global, text: &str) -> Result<Option<Octets>, NoMemory>
    ensures { IfOk result (λ bytes. bytes ≡ base64_bytes text.now) }
{
    if has_line_ends(text) {
        let kept = without_line_ends(alloc, text.as_bytes())?;
        decoded_whole(alloc, kept.as_slice())
    } else {
        decoded_whole(alloc, text.as_bytes())
    }
}

/// Whether the HMAC of the host text under the salt is the hash, both of them in base64.
fn is_hash_of(alloc: Global, host: &str, salt: &str, hash: &str) -> Result<bool, NoMemory>
    ensures { IfOk result (λ b. b ≡ hash_matches host.now (base64_bytes salt.now) (base64_bytes hash.now)) }
{
    let Some(salt) = decoded(alloc, salt)? else {
        return Ok(false);
    };
    let Some(hash) = decoded(alloc, hash)? else {
        return Ok(false);
    };
    let digest = hmac_sha1(salt.as_slice(), host.as_bytes());
    Ok(digest.as_slice() == hash.as_slice())
}

/// Whether a hashed entry has the host's hash.
fn is_hashed_host(alloc: Global, host: &str, entry: &str) -> Result<bool, NoMemory>
    ensures { IfOk result (λ b. b ≡ hashed_matches host.now (parts_at 124 entry.now)) }
{
    let (_front, Some(rest)) = cut(entry, b'|') else {
        return Ok(false);
    };
    let (_version, Some(rest)) = cut(rest, b'|') else {
        return Ok(false);
    };
    let (salt, Some(rest)) = cut(rest, b'|') else {
        return Ok(false);
    };
    let (hash, _later) = cut(rest, b'|');
    is_hash_of(alloc, host, salt, hash)
}

/// Whether an entry of a host field is the host text: by its hash if it begins with `|1|`, and byte by byte otherwise.
pub fn is_host(alloc: Global, host: &str, entry: &str) -> Result<bool, NoMemory>
    ensures { IfOk result (λ b. b ≡ entry_matches host.now entry.now) }
{
    if entry.starts_with("|1|") {
        is_hashed_host(alloc, host, entry)
    } else {
        Ok(entry == host)
    }
}
