//! Hashed host names (OpenSSH's ssh_config(5), "HashKnownHosts").

ghost use Rattle.std.specs.Prelude.{◌≡◌, IfOk, string_bytes};
ghost use Rattle.base64.specs.Engines.{standard};
ghost use Rattle.base64.specs.GeneralPurpose.{decoded_of};
ghost use Rattle.sshc_hosts.specs.MatchingLines.{parts_at};
ghost use Rattle.sshc_hosts_openssh.specs.HostsField.{hashed_name, is_hashed_under, salt_in};

use crate::cutting::cut;
use base64::DecodeAllocError;
use base64::engine::general_purpose::STANDARD;
use sshc_hosts::hmac_sha1;
use sshc_wire::{NoMemory, Octets};
use std::alloc::Global;

/// How many bytes a salt has.
const SALT_LENGTH: usize = 20;

/// The bytes of a padded base64 text.
#[tactic(auto, unfolding(base64::specs::GeneralPurpose::decoded_of))]
pub fn decoded(alloc: Global, text: &[u8]) -> Result<Option<Octets>, NoMemory>
    ensures { IfOk result (λ bytes. bytes ≡ decoded_of standard text.now) }
{
    match STANDARD.decode(alloc, text) {
        Ok(bytes) => Ok(Some(Octets::from_vec(bytes)?)),
        Err(DecodeAllocError::DecodeError(_)) => Ok(None),
        Err(DecodeAllocError::OutOfMemory) => Err(NoMemory),
    }
}

/// The salt of a hashed field.
fn salt_in(alloc: Global, field: &[u8]) -> Result<Option<Octets>, NoMemory>
    ensures { IfOk result (λ salt. salt ≡ salt_in (parts_at 124 field.now)) }
{
    let (_front, Some(rest)) = cut(field, b'|') else {
        return Ok(None);
    };
    let (_version, Some(rest)) = cut(rest, b'|') else {
        return Ok(None);
    };
    let (salt, _hash) = cut(rest, b'|');
    decoded(alloc, salt)
}

/// The name, hashed under the salt.
fn hashed_name(alloc: Global, salt: &[u8], name: &[u8]) -> Result<String, NoMemory>
    ensures { IfOk result (λ t. string_bytes t ≡ hashed_name salt.now name.now) }
{
    let mut text = String::new(alloc);
    text.push_str("|1|")?;
    STANDARD.encode_string(salt, &mut text)?;
    text.push_str("|")?;
    STANDARD.encode_string(&hmac_sha1(salt, name), &mut text)?;
    Ok(text)
}

/// Whether the field, which begins with `|`, is the name, hashed under the field's salt.
pub fn is_hash_of(alloc: Global, name: &[u8], field: &[u8]) -> Result<bool, NoMemory>
    ensures { IfOk result (λ b. b ≡ is_hashed_under (salt_in (parts_at 124 field.now)) name.now field.now) }
{
    let Some(salt) = salt_in(alloc, field)? else {
        return Ok(false);
    };
    if salt.as_slice().len() != SALT_LENGTH {
        return Ok(false);
    }
    let hashed = hashed_name(alloc, salt.as_slice(), name)?;
    Ok(field == hashed.as_bytes())
}
