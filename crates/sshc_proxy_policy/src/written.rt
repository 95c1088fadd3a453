//! Policies as texts.

ghost use Rattle.std.specs.Prelude.{◌≡◌, ◌++◌, OnOk, []};
ghost use Rattle.std.specs.List.{cons_option};
ghost use Rattle.sshc_proxy_policy.specs.WrittenPolicy.{GivesRules, Reads, after, line_error, one_line};

use crate::fault::{LineError, WrittenError};
use crate::named_key::NamedKey;
use crate::rule_line::{Names, line_rule};
use sshc_hosts::cut;
use sshc_proxy_session::{SessionPolicy, SessionRule};
use sshc_wire::{List, NoMemory};
use std::alloc::Global;

/// Why the line of this number has no rule.
fn line_error(error: LineError, line: u64) -> WrittenError
    ensures { result ≡ line_error error line }
{
    match error {
        LineError::NoMemory => WrittenError::NoMemory,
        LineError::Faulty(fault) => WrittenError::BadLine { line, fault },
    }
}

/// Adds the rule, if there is one.
fn add_rule(rules: &mut List<SessionRule>, rule: Option<SessionRule>) -> Result<(), NoMemory>
    ensures { OnOk result (rules.new ≡ rules.old ++ cons_option rule []) }
{
    match rule {
        None => Ok(()),
        Some(rule) => rules.push(rule),
    }
}

/// Adds the rule of the line, whose number this is, if it has one.
fn add_line(
    alloc: Global,
    names: &Names<'_>,
    rules: &mut List<SessionRule>,
    line: &str,
    number: u64,
) -> Result<(), WrittenError>
    ensures { GivesRules rules.new result
        (after rules.old (one_line names.now.keys.now names.now.hosts.now number line.now)) }
{
    match line_rule(alloc, names, line) {
        Ok(rule) => match add_rule(rules, rule) {
            Ok(()) => Ok(()),
            Err(NoMemory) => Err(WrittenError::NoMemory),
        },
        Err(error) => Err(line_error(error, number)),
    }
}

/// Reads a policy. Lines are separated by line feeds. Empty lines and those that begin with `#` are passed over; each
/// other line is `allow KEY [USER@]HOST [via HOST..]`, with spaces between its fields. KEY is a name of one of the keys,
/// or its fingerprint (`SHA256:` and base64, as `ssh-keygen -l` prints it); without USER anybody logs in; HOST is a host
/// as the known hosts text names it (`[host]:port` at another port than 22), and those after `via` are the hosts to which
/// the agent is forwarded before, in order. A host has all keys that the text records and doesn't revoke for it.
#[tactic(auto, using(crate::proofs::LineLemmas::read_policy))]
pub fn read_policy(
    alloc: Global,
    text: &str,
    keys: &[NamedKey],
    hosts: &str,
) -> Result<SessionPolicy, WrittenError>
    ensures policy { Reads keys.now hosts.now text.now result }
{
    let names = Names { keys, hosts };
    let mut rules = List::new(alloc);
    let mut number = 1u64;
    let mut left = text;
    'lines: loop {
        let (line, rest) = cut(left, b'\n');
        add_line(alloc, &names, &mut rules, line, number)?;
        number += 1;
        match rest {
            None => return Ok(SessionPolicy::new(rules)),
            Some(others) => left = others,
        }
    }
}
