//! Removes a host.

ghost use Rattle.std.specs.Prelude.{◌≡◌, IfOk, OnOk, Some, Ok, List, ℕ, false, true, not, ◌&&◌, filter, option_map};
ghost use Rattle.std.specs.Prelude.{if◌then◌else◌};
ghost use Rattle.sshc_key.specs.KeyGrammar.{Key};
ghost use Rattle.sshc_hosts.specs.HostText.{host_text};
ghost use Rattle.sshc_hosts.specs.Judgement.{judged};
ghost use Rattle.sshc_hosts.specs.MatchingLines.{parts_at};
ghost use Rattle.sshc_audit.specs.Lines.{line_seen};
ghost use Rattle.sshc_audit.specs.Rewriting.{rewritten, Agrees};
ghost use Rattle.sshc_audit.specs.Joining.{with_text};
ghost use Rattle.sshc_audit.specs.Removing.{begins_apart, stays, joined_entries, with_host, line_without, part_without};
ghost use Rattle.sshc_audit.specs.Removing.{removes_host, removed_entries, NoneMatches};

use crate::joining::Joining;
use crate::line::{LineFields, add_with_host, line_of};
use sshc_hosts::{cut, has_host, host_text, is_host};
use sshc_wire::{NoMemory, Text};
use std::alloc::Global;

/// Whether an entry begins with `#` or `@`, so that it would make its line a comment or a marked line if it came first.
fn begins_apart(entry: &str) -> bool
    ensures { result ≡ begins_apart entry.now }
{
    match entry.as_bytes().first() {
        Some(b) => *b == b'#' || *b == b'@',
        None => false,
    }
}

/// Whether an entry stays in a line from which the host is removed.
fn stays(alloc: Global, host: &str, entry: &str) -> Result<bool, NoMemory>
    ensures { IfOk result (λ b. b ≡ stays host.now entry.now) }
{
    Ok(!is_host(alloc, host, entry)? && !begins_apart(entry))
}

/// Adds the entry, if it stays.
fn add_entry(alloc: Global, out: &mut Joining, host: &str, entry: &str) -> Result<(), NoMemory>
    ensures { OnOk result (out.new ≡ with_text out.old (if stays host.now entry.now then Some entry.now else None)) }
{
    if stays(alloc, host, entry)? {
        out.add(entry)
    } else {
        Ok(())
    }
}

/// The entries that stay, joined by commas; `None` if there are none.
fn entries_without(alloc: Global, host: &str, field: &str) -> Result<Option<Text>, NoMemory>
    ensures { IfOk result (λ kept. kept ≡ joined_entries (filter (stays host.now) (parts_at 44 field.now))) }
{
    let mut out = Joining::new(alloc, b',');
    let mut left = field;
    'entries: loop {
        let (entry, rest) = cut(left, b',');
        add_entry(alloc, &mut out, host, entry)?;
        match rest {
            None => return kept(out),
            Some(others) => left = others,
        }
    }
}

/// The joined text, if any text was added.
fn kept(out: Joining) -> Result<Option<Text>, NoMemory>
    ensures { IfOk result (λ kept. kept ≡ (if out.is_first then None else Some out.text)) }
{
    if out.is_empty() {
        Ok(None)
    } else {
        Ok(Some(out.into_text()?))
    }
}

/// Adds the line without the host, unless it is dropped.
fn add_line_without(
    alloc: Global,
    out: &mut Joining,
    host: &str,
    part: &str,
    line: LineFields<'_>,
) -> Result<(), NoMemory>
    ensures { OnOk result (out.new ≡ with_text out.old (line_without host.now part.now (line_seen line.entry))) }
{
    if !has_host(alloc, host, line.host)? {
        return out.add(part);
    }
    match entries_without(alloc, host, line.host)? {
        Some(entries) => add_with_host(out, line, entries.as_str()),
        None => Ok(()),
    }
}

/// Adds the part without the host, unless it is dropped.
fn add_without(alloc: Global, out: &mut Joining, host: &str, part: &str) -> Result<(), NoMemory>
    ensures { OnOk result (out.new ≡ with_text out.old (part_without host.now part.now)) }
{
    match line_of(part) {
        Some(line) => add_line_without(alloc, out, host, part, line),
        None => out.add(part),
    }
}

/// The known hosts text without the host.
fn text_without(alloc: Global, text: &str, host: &str) -> Result<Text, NoMemory>
    ensures { IfOk result (λ t. t ≡ rewritten (removes_host text.now host.now)) }
{
    let mut out = Joining::new(alloc, b'\n');
    let mut left = text;
    'parts: loop {
        let (part, rest) = cut(left, b'\n');
        add_without(alloc, &mut out, host, part)?;
        match rest {
            None => return out.into_text(),
            Some(others) => left = others,
        }
    }
}

/// The known hosts text without the entries that match the host at the port. A line that loses an entry also loses its
/// entries that begin with `#` or `@`, and a line that loses its last entry is dropped.
#[tactic(auto, using(crate::proofs::RemovingLaws::removed_agrees, crate::proofs::RemovingLaws::removed_unknown))]
pub fn remove_host(alloc: Global, text: &str, host: &str, port: u16) -> Result<Text, NoMemory>
    ensures text { IfOk result (λ t. t ≡ rewritten (removes_host text.now (host_text host.now port))) }
    ensures unknown { begins_apart (host_text host.now port) ≡ false
        → (key : Key)
        → judged (rewritten (removes_host text.now (host_text host.now port)))
        (host_text host.now port) key ≡ Ok false }
    ensures verdicts { (other : List ℕ) → NoneMatches other (removed_entries text.now (host_text host.now port))
        → Agrees text.now (removes_host text.now (host_text host.now port)) other }
{
    let named = host_text(alloc, host, port)?;
    text_without(alloc, text, named.as_str())
}
