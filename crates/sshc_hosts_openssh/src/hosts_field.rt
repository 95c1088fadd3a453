//! The hosts field of a line, and the name that is looked for in it.

ghost use Rattle.std.specs.Prelude.{◌≡◌, ◌&&◌, IfOk};
ghost use Rattle.sshc_hosts.specs.MatchingLines.{parts_at};
ghost use Rattle.sshc_hosts_openssh.specs.Cuts.{said_part};
ghost use Rattle.sshc_hosts_openssh.specs.HostsField.{field_names, is_negated, list_names, name_of, pattern_in};

use crate::cutting::{begins, cut};
use crate::hashed::is_hash_of;
use crate::pattern::matches_pattern;
use sshc_hosts::host_text;
use sshc_wire::{NoMemory, Octets};
use std::alloc::Global;

/// One more than how many bytes a pattern may have.
const PATTERN_LIMIT: usize = 1023;

/// What one pattern says of a name.
#[derive(Clone, Copy)]
enum PartSays {
    /// The pattern doesn't match.
    Nothing,
    /// The pattern matches.
    Included,
    /// The pattern is negated and matches, or it is too long: the field doesn't name the host.
    Excluded,
}

/// The name that is looked for: the host in lower case, as `[host]:port` unless the port is 22.
pub fn name_of(alloc: Global, host: &str, port: u16) -> Result<Octets, NoMemory>
    ensures { IfOk result (λ name. name ≡ name_of host.now port) }
{
    let text = host_text(alloc, host, port)?;
    Octets::from_vec(text.as_str().as_bytes().to_ascii_lowercase(alloc)?)
}

/// The pattern without the `!` that may be before it.
fn pattern_in(part: &[u8]) -> &[u8]
    ensures { result.now ≡ pattern_in part.now }
{
    match part.split_first() {
        Some((b'!', pattern)) => pattern,
        _ => part,
    }
}

/// What the pattern, before which a `!` may be, says of the name.
fn said_part(name: &[u8], part: &[u8]) -> PartSays
    ensures { result ≡ said_part name.now part.now }
{
    let pattern = pattern_in(part);
    if pattern.len() >= PATTERN_LIMIT {
        PartSays::Excluded
    } else if !matches_pattern(pattern, name) {
        PartSays::Nothing
    } else if begins(part, b'!') {
        PartSays::Excluded
    } else {
        PartSays::Included
    }
}

/// Whether the list of patterns, which commas separate, names the host of this name.
fn list_names(name: &[u8], list: &[u8]) -> bool
    ensures { result ≡ list_names name.now (parts_at 44 list.now) }
{
    let mut included = false;
    let mut left = list;
    'parts: loop {
        let (part, rest) = cut(left, b',');
        match said_part(name, part) {
            PartSays::Excluded => return false,
            PartSays::Included => included = true,
            PartSays::Nothing => {}
        }
        match rest {
            None => return included,
            Some(others) => left = others,
        }
    }
}

/// Whether the hosts field of a line names the host of this name, which is in lower case: a field that begins with `|`
/// is one hashed name, and any other is a list of patterns.
pub fn names_host(alloc: Global, name: &[u8], field: &[u8]) -> Result<bool, NoMemory>
    ensures { IfOk result (λ b. b ≡ field_names name.now field.now) }
{
    if begins(field, b'|') {
        is_hash_of(alloc, name, field)
    } else {
        Ok(list_names(name, field))
    }
}
