//! Policies as texts.

ghost use Rattle.std.specs.Prelude.{◌≡◌, ◌++◌, IfOk, IfErr, OnOk, OnErr, Some, false, map, option_map};
ghost use Rattle.base64.specs.Engines.{standard};
ghost use Rattle.base64.specs.GeneralPurpose.{decoded_of};
ghost use Rattle.sshc_hosts.specs.MatchingLines.{parts_at};
ghost use Rattle.sshc_proxy.specs.Policy.{AddsLine, Reads, is_bad, is_dropped, key_blob, rule_in, rule_of};

use crate::error::PolicyError;
use crate::policy::{Policy, is_plain_key};
use base64::DecodeAllocError;
use base64::engine::general_purpose::STANDARD;
use sshc_hosts::{cut, is_comment};
use sshc_wire::{List, NoMemory, Octets};
use std::alloc::Global;

/// The bytes of a padded base64 text.
#[tactic(auto, unfolding(base64::specs::GeneralPurpose::decoded_of))]
fn decoded(alloc: Global, text: &str) -> Result<Option<Octets>, NoMemory>
    ensures { IfOk result (λ bytes. bytes ≡ decoded_of standard text.now) }
{
    match STANDARD.decode(alloc, text.as_bytes()) {
        Ok(bytes) => Ok(Some(Octets::from_vec(bytes)?)),
        Err(DecodeAllocError::DecodeError(_)) => Ok(None),
        Err(DecodeAllocError::OutOfMemory) => Err(NoMemory),
    }
}

/// The blob of which the text is the padded base64, if it is exactly one plain key.
pub fn key_blob(alloc: Global, text: &str) -> Result<Option<Octets>, NoMemory>
    ensures { IfOk result (λ blob. blob ≡ key_blob text.now) }
{
    let Some(blob) = decoded(alloc, text)? else {
        return Ok(None);
    };
    if is_plain_key(alloc, blob.as_slice())? {
        Ok(Some(blob))
    } else {
        Ok(None)
    }
}

/// The rule of a line that isn't dropped, if it has one.
#[tactic(auto, using(crate::proofs::PolicyLemmas::long_line))]
fn rule_in(alloc: Global, line: &str) -> Result<Option<(Octets, Octets)>, NoMemory>
    ensures { IfOk result (λ rule. rule ≡ rule_in (parts_at 32 line.now)) }
{
    let (word, Some(rest)) = cut(line, b' ') else {
        return Ok(None);
    };
    let (key, Some(rest)) = cut(rest, b' ') else {
        return Ok(None);
    };
    let (host, None) = cut(rest, b' ') else {
        return Ok(None);
    };
    if word != "allow" {
        return Ok(None);
    }
    let Some(key) = key_blob(alloc, key)? else {
        return Ok(None);
    };
    let Some(host) = key_blob(alloc, host)? else {
        return Ok(None);
    };
    Ok(Some((key, host)))
}

/// Whether the line is empty or a comment.
fn is_dropped(line: &str) -> bool
    ensures { result ≡ is_dropped line.now }
{
    line.is_empty() || is_comment(line)
}

/// Adds the rule of the line, whose number this is, unless the line is dropped.
#[tactic(auto, unfolding(crate::specs::Policy::is_bad, crate::specs::Policy::rule_of))]
fn add_line(
    alloc: Global,
    rules: &mut List<(Octets, Octets)>,
    line: &str,
    number: u64,
) -> Result<(), PolicyError>
    ensures { AddsLine line.now number rules.old rules.new result }
{
    if is_dropped(line) {
        return Ok(());
    }
    match rule_in(alloc, line)? {
        Some(rule) => Ok(rules.push(rule)?),
        None => Err(PolicyError::BadLine { line: number }),
    }
}

/// Reads a policy. Lines are separated by line feeds. Empty lines and lines that begin with `#` are dropped; each other
/// line is `allow`, the padded base64 of a key's blob and that of a host key's blob, with one space between each two.
/// Each blob is exactly one plain key.
#[tactic(auto, using(crate::proofs::Hints::parse_policy))]
pub fn parse_policy(alloc: Global, text: &str) -> Result<Policy, PolicyError>
    ensures policy { Reads text.now result }
{
    let mut rules = List::new(alloc);
    let mut number = 1u64;
    let mut left = text;
    'lines: loop {
        let (line, rest) = cut(left, b'\n');
        add_line(alloc, &mut rules, line, number)?;
        number += 1;
        match rest {
            None => return Ok(Policy::of(rules)),
            Some(others) => left = others,
        }
    }
}
