//! The lines of a known hosts text that match a host.

ghost use Rattle.std.specs.Prelude.{◌≡◌, ◌<◌, ◌==◌, All, IfNone, IfOk, IfSome, false, length, map, option_copied};
ghost use Rattle.std.specs.Prelude.{option_map};
ghost use Rattle.memchr.specs.Find.{IsFirstByte, is_byte2};
ghost use Rattle.sshc_hosts.specs.Entries.{CutsEntry, key_behind, second};
ghost use Rattle.sshc_hosts.specs.MatchingLines.{field_matches, field_seen, is_comment, line_key, line_seen, marked_as};
ghost use Rattle.sshc_hosts.specs.MatchingLines.{matching, parts_at, third_field};

use crate::cutting::cut;
use crate::entry::is_host;
use crate::marks::{Mark, cut_mark};
use memchr::memchr2;
use sshc_wire::NoMemory;
use std::alloc::Global;

/// The key of a matching line as text, its third field behind the mark, and the line's mark.
#[derive(Clone, Copy)]
pub struct KeyField<'a> {
    pub mark: Mark,
    pub text: &'a str,
}

/// Whether an entry of the host field, whose entries are separated by commas, is the host text.
pub fn has_host(alloc: Global, host: &str, field: &str) -> Result<bool, NoMemory>
    ensures { IfOk result (λ b. b ≡ field_matches host.now field.now) }
{
    let mut left = field;
    'entries: loop {
        let (entry, rest) = cut(left, b',');
        if is_host(alloc, host, entry)? {
            return Ok(true);
        }
        match rest {
            None => return Ok(false),
            Some(others) => left = others,
        }
    }
}

/// Whether the line is a comment: it begins with `#`.
pub fn is_comment(line: &str) -> bool
    ensures { result ≡ is_comment line.now }
{
    match line.as_bytes().first() {
        Some(b) => *b == b'#',
        None => false,
    }
}

/// The index of the first comma or space.
fn first_end(text: &str) -> Option<usize>
    ensures { IsFirstByte (is_byte2 44 32) text.now result }
{
    memchr2(b',', b' ', text.as_bytes())
}

/// The text up to its first comma or space, that character, and the text after it.
fn cut_entry(text: &str) -> Option<(&str, u8, &str)>
    ensures none { IfNone result (All (λ b. (b == 32) ≡ false) text.now) }
    ensures some { IfSome result (λ cut. CutsEntry text.now cut.0.now cut.1 cut.2.now) }
    ensures shorter { IfSome result (λ cut. length cut.2.now < length text.now) }
{
    match first_end(text) {
        None => None,
        Some(i) => Some((&text[..i], text.as_bytes()[i], &text[i + 1..])),
    }
}

/// The text after the first field of a line, if that field has the host and a space ends it. One search finds the end
/// of an entry and that of the field: a search in the whole line uses vector instructions, while one in a short field
/// would go byte by byte.
fn behind_host<'a>(alloc: Global, host: &str, line: &'a str) -> Result<Option<&'a str>, NoMemory>
    ensures { IfOk result (λ rest. key_behind (option_copied rest) ≡ third_field host.now (parts_at 32 line.now)) }
{
    let mut left = line;
    'entries: loop {
        let Some((entry, mark, rest)) = cut_entry(left) else {
            return Ok(None);
        };
        let is_last = mark == b' ';
        match (is_host(alloc, host, entry)?, is_last) {
            (true, true) => return Ok(Some(rest)),
            (true, false) => return Ok(cut(rest, b' ').1),
            (false, true) => return Ok(None),
            (false, false) => left = rest,
        }
    }
}

/// The second field of a text that has two.
fn second_field(text: &str) -> Option<&str>
    ensures { option_copied result ≡ second (parts_at 32 text.now) }
{
    let (_name, Some(rest)) = cut(text, b' ') else {
        return None;
    };
    Some(cut(rest, b' ').0)
}

/// The second field of a text that has two, as the key of a line with the mark.
fn key_field(mark: Mark, rest: &str) -> Option<KeyField<'_>>
    ensures { option_map field_seen result ≡ option_map (marked_as mark) (second (parts_at 32 rest.now)) }
{
    let text = second_field(rest)?;
    Some(KeyField { mark, text })
}

/// The key of a line whose first field behind the mark has the host.
fn key_of<'a>(alloc: Global, host: &str, line: &'a str) -> Result<Option<KeyField<'a>>, NoMemory>
    ensures { IfOk result (λ key. option_map field_seen key ≡ line_key host.now line.now) }
{
    if is_comment(line) {
        return Ok(None);
    }
    let (mark, Some(fields)) = cut_mark(line) else {
        return Ok(None);
    };
    match behind_host(alloc, host, fields)? {
        Some(rest) => Ok(key_field(mark, rest)),
        None => Ok(None),
    }
}

/// The matching lines: their numbers, counted from 1, and their keys.
pub fn matching_lines<'a>(
    alloc: Global,
    text: &'a str,
    host: &str,
) -> Result<Vec<(u64, KeyField<'a>)>, NoMemory>
    ensures { IfOk result (λ lines. map line_seen lines.items ≡ matching text.now host.now) }
{
    let mut found = Vec::new(alloc);
    let mut number = 1u64;
    let mut left = text;
    'lines: loop {
        let (line, rest) = cut(left, b'\n');
        if let Some(key) = key_of(alloc, host, line)? {
            found.push((number, key))?;
        }
        number += 1;
        match rest {
            None => return Ok(found),
            Some(others) => left = others,
        }
    }
}
