//! The keys that a known hosts text records for a host.

ghost use Rattle.std.specs.Prelude.{◌≡◌, ◌++◌, OnOk, map};
ghost use Rattle.std.specs.List.{list_any};
ghost use Rattle.sshc_hosts.specs.Judgement.{has_key, is_certificate};
ghost use Rattle.sshc_proxy_policy.specs.PolicyNames.{all_keys, host_keys, is_kept, kept, some_keys, unread};
ghost use Rattle.sshc_proxy_policy.specs.WrittenPolicy.{GivesPart, after};

use crate::fault::{Fault, LineError};
use sshc_hosts::{known_host_keys_text, revoked_keys_text};
use sshc_key::{Error, KeyData, PublicKey, PublicKeyBase64};
use sshc_wire::{List, NoMemory, Octets};
use std::alloc::Global;

/// The port whose hosts a known hosts text names without a port. A host at another is named as `[host]:port` there, and
/// so in a policy.
const NAMED_ALONE: u16 = 22;

/// A key with the number of its line.
type Line = (u64, PublicKey);

/// Whether the key is a certificate.
fn is_certificate(key: &PublicKey) -> bool
    ensures { result ≡ is_certificate key.now.0 }
{
    match &key.key {
        KeyData::Certificate(certificate) => certificate.is_certificate(),
        _ => false,
    }
}

/// Whether one of the lines has the key.
fn is_revoked(revoked: &[Line], key: &PublicKey) -> bool
    ensures { result ≡ list_any (has_key key.now.0) revoked.now }
{
    revoked.iter().any(|line| key.key == line.1.key)
}

/// Whether the line's key is one of its host.
fn is_kept(revoked: &[Line], line: &Line) -> bool
    ensures { result ≡ is_kept revoked.now line.now }
{
    !is_certificate(&line.1) && !is_revoked(revoked, &line.1)
}

/// Adds the blobs of the lines' keys that are neither certificates nor revoked.
fn add_kept(blobs: &mut List<Octets>, revoked: &[Line], known: &[Line]) -> Result<(), NoMemory>
    ensures { OnOk result (blobs.new ≡ blobs.old ++ kept revoked.now known.now) }
{
    for line in known {
        if is_kept(revoked, line) {
            blobs.push(Octets::from_vec(line.1.public_key_bytes()?)?)?;
        }
    }
    Ok(())
}

/// Why a known hosts text tells no keys.
fn unread(error: Error) -> LineError
    ensures { result ≡ unread error }
{
    match error {
        Error::NoMemory => LineError::NoMemory,
        _ => LineError::Faulty(Fault::UnreadableHost),
    }
}

/// The keys, of which there has to be one.
fn some_keys(keys: List<Octets>) -> Result<List<Octets>, Fault>
    ensures { result ≡ some_keys keys }
{
    if keys.as_slice().is_empty() {
        return Err(Fault::UnknownHost);
    }
    Ok(keys)
}

/// The blobs of the keys that the known hosts text records for the host, and doesn't revoke for it.
#[tactic(auto, unfolding(crate::specs::PolicyNames::host_keys), using(crate::proofs::LineLemmas::host_keys))]
pub(crate) fn host_keys(alloc: Global, hosts: &str, name: &str) -> Result<List<Octets>, LineError>
    ensures { GivesPart (λ keys. keys) result (host_keys hosts.now name.now) }
{
    let known = match known_host_keys_text(alloc, hosts, name, NAMED_ALONE) {
        Ok(known) => known,
        Err(error) => return Err(unread(error)),
    };
    let revoked = match revoked_keys_text(alloc, hosts, name, NAMED_ALONE) {
        Ok(revoked) => revoked,
        Err(error) => return Err(unread(error)),
    };
    let mut blobs = List::new(alloc);
    add_kept(&mut blobs, revoked.as_slice(), known.as_slice())?;
    Ok(some_keys(blobs)?)
}

/// Adds of each of the hosts the blobs of its keys.
#[tactic(auto, using(crate::proofs::LineLemmas::all_keys))]
fn add_keys(
    alloc: Global,
    hosts: &str,
    names: &[&str],
    all: &mut List<List<Octets>>,
) -> Result<(), LineError>
    ensures { GivesPart (λ _. all.new) result
        (after all.old (all_keys hosts.now (map (λ name. name.now) names.now))) }
{
    match names {
        [] => Ok(()),
        [name, names @ ..] => {
            all.push(host_keys(alloc, hosts, name)?)?;
            add_keys(alloc, hosts, names, all)
        }
    }
}

/// Of each of the hosts the blobs of its keys.
#[tactic(auto, using(crate::proofs::LineLemmas::after_none))]
pub(crate) fn all_keys(
    alloc: Global,
    hosts: &str,
    names: &[&str],
) -> Result<List<List<Octets>>, LineError>
    ensures { GivesPart (λ keys. keys) result (all_keys hosts.now (map (λ name. name.now) names.now)) }
{
    let mut all = List::new(alloc);
    add_keys(alloc, hosts, names, &mut all)?;
    Ok(all)
}
