//! A line of a policy.

ghost use Rattle.std.specs.Prelude.{◌≡◌, ◌∷◌, IfOk, Err, Ok, map, option_copied, option_map};
ghost use Rattle.sshc_hosts.specs.MatchingLines.{parts_at};
ghost use Rattle.sshc_proxy_policy.specs.WrittenPolicy.{GivesPart, Sees, fields, hops_of, line_rule, place_of, place_seen};
ghost use Rattle.sshc_proxy_policy.specs.WrittenPolicy.{is_dropped, rule_by, rule_of};

use crate::fault::{Fault, LineError};
use crate::named_key::{NamedKey, key_named};
use crate::recorded::{all_keys, host_keys};
use sshc_hosts::{cut, is_comment};
use sshc_proxy_session::SessionRule;
use sshc_wire::{NoMemory, Octets};
use std::alloc::Global;

/// The most hosts to which an agent is forwarded before the last session.
const MOST_HOPS: usize = 15;

/// A user, or anybody, and a host.
#[derive(Clone, Copy)]
pub struct Place<'a> {
    user: Option<&'a str>,
    host: &'a str,
}

/// What the names of a policy stand for.
#[derive(Clone, Copy)]
pub struct Names<'a> {
    pub keys: &'a [NamedKey],
    /// A known hosts text.
    pub hosts: &'a str,
}

/// The parts of a line between spaces.
pub(crate) fn fields(alloc: Global, line: &str) -> Result<Vec<&str>, NoMemory>
    ensures { IfOk result (λ parts. map (λ part. part.now) parts.items ≡ fields line.now) }
{
    let mut parts = Vec::new(alloc);
    let mut left = line;
    'parts: loop {
        let (part, rest) = cut(left, b' ');
        if !part.is_empty() {
            parts.push(part)?;
        }
        match rest {
            None => return Ok(parts),
            Some(others) => left = others,
        }
    }
}

/// A user and a host, which are the parts before and after an `@`. There is no other.
#[tactic(auto, using(crate::proofs::LineLemmas::third_part))]
fn user_at<'a>(user: &'a str, rest: &'a str) -> Result<Place<'a>, Fault>
    ensures { Sees place_seen result (place_of (user.now ∷ parts_at 64 rest.now)) }
{
    match cut(rest, b'@') {
        (_host, Some(_more)) => Err(Fault::NotARule),
        (host, None) => {
            if user.is_empty() {
                Err(Fault::NotARule)
            } else {
                Ok(Place {
                    user: Some(user),
                    host,
                })
            }
        }
    }
}

/// The user, if one is named, and the host of `[USER@]HOST`.
fn place_in(text: &str) -> Result<Place<'_>, Fault>
    ensures { Sees place_seen result (place_of (parts_at 64 text.now)) }
{
    match cut(text, b'@') {
        (host, None) => Ok(Place { user: None, host }),
        (user, Some(rest)) => user_at(user, rest),
    }
}

/// The hosts of `[via HOST..]`.
fn hops_in<'a, 'b>(more: &'b [&'a str]) -> Result<&'b [&'a str], Fault>
    ensures { Sees (λ hops. map (λ hop. hop.now) hops.now) result (hops_of (map (λ part. part.now) more.now)) }
{
    match more {
        [] => Ok(more),
        [_word] => Err(Fault::NotARule),
        [word, hops @ ..] => {
            if *word != "via" {
                Err(Fault::NotARule)
            } else if hops.len() > MOST_HOPS {
                Err(Fault::TooManyHops)
            } else {
                Ok(hops)
            }
        }
    }
}

/// A copy of the user, if there is one.
fn user_of(alloc: Global, user: Option<&str>) -> Result<Option<Octets>, NoMemory>
    ensures { IfOk result (λ name. name ≡ option_map (λ u. u.now) user.entry) }
{
    match user {
        None => Ok(None),
        Some(name) => Ok(Some(Octets::from_slice(alloc, name.as_bytes())?)),
    }
}

/// The rule whose key, place and hops are these.
fn rule_by(
    alloc: Global,
    names: &Names<'_>,
    key: &str,
    place: &str,
    more: &[&str],
) -> Result<SessionRule, LineError>
    ensures { GivesPart (λ rule. rule) result
        (rule_by names.now.keys.now names.now.hosts.now key.now place.now (map (λ part. part.now) more.now)) }
{
    let place = place_in(place)?;
    let hops = hops_in(more)?;
    let key = key_named(names.keys, key)?;
    let host = host_keys(alloc, names.hosts, place.host)?;
    let via = all_keys(alloc, names.hosts, hops)?;
    Ok(SessionRule {
        key: Octets::from_slice(alloc, key.blob())?,
        user: user_of(alloc, place.user)?,
        host,
        via,
    })
}

/// The rule with these fields.
#[tactic(auto, unfolding(crate::specs::WrittenPolicy::rule_of))]
fn rule_of(alloc: Global, names: &Names<'_>, parts: &[&str]) -> Result<SessionRule, LineError>
    ensures { GivesPart (λ rule. rule) result
        (rule_of names.now.keys.now names.now.hosts.now (map (λ part. part.now) parts.now)) }
{
    match parts {
        [word, key, place, more @ ..] => {
            if *word == "allow" {
                rule_by(alloc, names, key, place, more)
            } else {
                Err(LineError::Faulty(Fault::NotARule))
            }
        }
        _ => Err(LineError::Faulty(Fault::NotARule)),
    }
}

/// Whether a line with these fields has no rule: it has none, or the first begins with `#`.
fn is_dropped(parts: &[&str]) -> bool
    ensures { result ≡ is_dropped (map (λ part. part.now) parts.now) }
{
    match parts {
        [] => true,
        [first, ..] => is_comment(first),
    }
}

/// The rule of a line, if it has one.
#[tactic(auto, unfolding(crate::specs::WrittenPolicy::line_rule))]
pub(crate) fn line_rule(
    alloc: Global,
    names: &Names<'_>,
    line: &str,
) -> Result<Option<SessionRule>, LineError>
    ensures { GivesPart (λ rule. rule) result (line_rule names.now.keys.now names.now.hosts.now line.now) }
{
    let parts = fields(alloc, line)?;
    if is_dropped(parts.as_slice()) {
        return Ok(None);
    }
    Ok(Some(rule_of(alloc, names, parts.as_slice())?))
}
