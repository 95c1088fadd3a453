//! A policy: which keys may be used towards which hosts.

ghost use Rattle.std.specs.Prelude.{◌≡◌, IfOk, Some};
ghost use Rattle.std.specs.List.{list_all};
ghost use Rattle.sshc_key.specs.Nesting.{whole_blob_key};
ghost use Rattle.sshc_proxy.specs.Policy.{allowed, is_plain, is_rule, names};

use sshc_key::{Error, KeyData, PublicKey, parse_whole_public_key};
use sshc_wire::{List, NoMemory, Octets};
use std::alloc::Global;
use std::marker::Model;

/// Rules in order, which contracts see as a list: the blob of a key, and the blob of a host key towards which it may be
/// used.
#[derive(Drop)]
pub struct Policy {
    rules: List<(Octets, Octets)>,
}

impl Model for Policy {
    ghost use Rattle.std.specs.Prelude.{List as Items};
    ghost use Rattle.sshc_proxy.specs.Policy.{Rule};

    ghost Value = { Items Rule };

    ghost view = { λ p. p.rules };
}

impl Policy {
    /// The policy of these rules.
    pub(crate) fn of(rules: List<(Octets, Octets)>) -> Policy
        ensures { result ≡ rules }
    {
        Policy { rules }
    }

    /// The allocator of the rules.
    pub(crate) fn allocator(&self) -> Global {
        self.rules.allocator()
    }

    /// The rules in order.
    pub fn rules(&self) -> &[(Octets, Octets)]
        ensures { result.now ≡ self.now }
    {
        self.rules.as_slice()
    }

    /// Whether the key may be used where these hosts are bound: there is one, and the policy names the key for each.
    pub(crate) fn allows(&self, hosts: &[Octets], key: &[u8]) -> bool
        ensures { result ≡ allowed self.now hosts.now key.now }
    {
        allows(self.rules.as_slice(), hosts, key)
    }
}

/// Whether the rules name the key for the host.
fn names(rules: &[(Octets, Octets)], key: &[u8], host: &[u8]) -> bool
    ensures { result ≡ names rules.now key.now host.now }
{
    rules.iter().any(|rule| rule.0.as_slice() == key && rule.1.as_slice() == host)
}

fn names_for_all(rules: &[(Octets, Octets)], hosts: &[Octets], key: &[u8]) -> bool
    ensures { result ≡ list_all (names rules.now key.now) hosts.now }
{
    hosts.iter().all(|host| names(rules, key, host.as_slice()))
}

#[tactic(auto, unfolding(crate::specs::Policy::allowed))]
fn allows(rules: &[(Octets, Octets)], hosts: &[Octets], key: &[u8]) -> bool
    ensures { result ≡ allowed rules.now hosts.now key.now }
{
    match hosts {
        [] => false,
        [_first, ..] => names_for_all(rules, hosts, key),
    }
}

fn is_plain(key: &PublicKey) -> bool
    ensures { result ≡ is_plain (Some key.now.0) }
{
    match &key.key {
        KeyData::Certificate(certificate) => !certificate.is_certificate(),
        _ => true,
    }
}

/// Whether the blob is exactly one plain key.
pub(crate) fn is_plain_key(alloc: Global, blob: &[u8]) -> Result<bool, NoMemory>
    ensures { IfOk result (λ yes. yes ≡ is_plain (whole_blob_key blob.now)) }
{
    match parse_whole_public_key(alloc, blob) {
        Ok(key) => Ok(is_plain(&key)),
        Err(Error::NoMemory) => Err(NoMemory),
        Err(_) => Ok(false),
    }
}
