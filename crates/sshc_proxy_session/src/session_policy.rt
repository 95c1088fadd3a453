//! A policy by session: which keys may be used by whom, towards which hosts, and over which.

ghost use Rattle.std.specs.Prelude.{◌≡◌, option_map};
ghost use Rattle.sshc_proxy_session.specs.SessionTable.{has_key, is_towards, is_usable, is_user, is_way, names};
ghost use Rattle.sshc_proxy_session.specs.SessionTable.{parted, permits};

use crate::bound::{Bound, parted};
use sshc_wire::{List, Octets};
use std::alloc::Global;
use std::marker::Model;

/// A rule: the key may be used to log in to the host as this user, or as anybody, over exactly these hosts.
#[derive(Drop)]
pub struct SessionRule {
    /// The key's blob.
    pub key: Octets,
    pub user: Option<Octets>,
    /// The blobs of the host's keys, each of which is taken for it.
    pub host: List<Octets>,
    /// Of each host to which the agent is forwarded before, from the first, the blobs of its keys.
    pub via: List<List<Octets>>,
}

/// Rules in order, which contracts see as a list.
#[derive(Drop)]
pub struct SessionPolicy {
    rules: List<SessionRule>,
}

impl Model for SessionPolicy {
    ghost use Rattle.std.specs.Prelude.{List as Items};
    ghost use Rattle.sshc_proxy_session.specs.declared.session_policy.SessionRule.{SessionRule};

    ghost Value = { Items SessionRule };

    ghost view = { λ p. p.rules };
}

impl SessionPolicy {
    /// The policy of these rules.
    pub fn new(rules: List<SessionRule>) -> SessionPolicy
        ensures { result ≡ rules }
    {
        SessionPolicy { rules }
    }

    /// The allocator of the rules.
    pub fn allocator(&self) -> Global {
        self.rules.allocator()
    }

    /// The rules in order.
    pub fn rules(&self) -> &[SessionRule]
        ensures { result.now ≡ self.now }
    {
        self.rules.as_slice()
    }

    /// Whether a rule names the key for this user, host and way.
    pub(crate) fn permits(&self, hops: &[Bound], last: &Bound, key: &[u8], user: &[u8]) -> bool
        ensures { result ≡ permits self.now hops.now last.now key.now user.now }
    {
        self.rules.as_slice().iter().any(|rule| is_towards(hops, last, key, rule)
            && is_user(&rule.user, user))
    }

    /// Whether some user could log in with the key in the session that was bound last.
    pub(crate) fn is_usable(&self, bindings: &[Bound], key: &[u8]) -> bool
        ensures { result ≡ is_usable self.now (parted bindings.now) key.now }
    {
        match parted(bindings) {
            Some((hops, last)) => !last.is_forwarding && self.names(hops, last, key),
            None => false,
        }
    }

    fn names(&self, hops: &[Bound], last: &Bound, key: &[u8]) -> bool
        ensures { result ≡ names self.now hops.now last.now key.now }
    {
        self.rules
            .as_slice()
            .iter()
            .any(|rule| is_towards(hops, last, key, rule))
    }
}

/// Whether the key is one of a host's.
fn has_key(keys: &[Octets], key: &[u8]) -> bool
    ensures { result ≡ has_key keys.now key.now }
{
    keys.iter().any(|known| known.as_slice() == key)
}

/// Whether the hops are over hosts with these keys, in order.
fn is_way(via: &[List<Octets>], hops: &[Bound]) -> bool
    ensures { result ≡ is_way via.now hops.now }
{
    match via {
        [] => hops.is_empty(),
        [keys, via @ ..] => match hops {
            [] => false,
            [hop, hops @ ..] => {
                has_key(keys.as_slice(), hop.host_key.as_slice()) && is_way(via, hops)
            }
        },
    }
}

/// Whether the rule is one for the key, the last binding's host and the hops before it.
fn is_towards(hops: &[Bound], last: &Bound, key: &[u8], rule: &SessionRule) -> bool
    ensures { result ≡ is_towards hops.now last.now key.now rule.now }
{
    rule.key.as_slice() == key
        && has_key(rule.host.as_slice(), last.host_key.as_slice())
        && is_way(rule.via.as_slice(), hops)
}

/// Whether the rule's user is this one, or anybody.
fn is_user(named: &Option<Octets>, user: &[u8]) -> bool
    ensures { result ≡ is_user named.now user.now }
{
    match named {
        None => true,
        Some(name) => name.as_slice() == user,
    }
}
