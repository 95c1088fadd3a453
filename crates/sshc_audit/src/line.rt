//! The lines of a known hosts text.

ghost use Rattle.std.specs.Prelude.{◌≡◌, ◌∷◌, Some, OnOk, option_map};
ghost use Rattle.sshc_hosts.specs.MatchingLines.{parts_at};
ghost use Rattle.sshc_hosts.specs.declared.marks.Mark.TheVariants.{Recorded};
ghost use Rattle.sshc_audit.specs.Lines.{is_mark, line_by, line_in, line_of, line_seen, mark_text};
ghost use Rattle.sshc_audit.specs.Joining.{with_text};
ghost use Rattle.sshc_audit.specs.Removing.{with_host};

use crate::joining::Joining;
use sshc_hosts::{Mark, cut, cut_mark, is_comment};
use sshc_wire::NoMemory;

/// A line: its mark, its host field, its third field, and everything after the host field and its space.
#[derive(Clone, Copy)]
pub struct LineFields<'a> {
    pub mark: Mark,
    pub host: &'a str,
    pub key: &'a str,
    pub rest: &'a str,
}

/// Whether a first field is a mark.
fn is_mark(field: &str) -> bool
    ensures { result ≡ is_mark field.now }
{
    match field.as_bytes().split_first() {
        Some((b, rest)) => *b == b'@' && !rest.contains(&b','),
        None => false,
    }
}

/// The line with this host field, and with the fields of the text after it.
fn line_with<'a>(mark: Mark, host: &'a str, rest: &'a str) -> Option<LineFields<'a>>
    ensures { option_map line_seen result ≡ line_in mark (host.now ∷ parts_at 32 rest.now) }
{
    let (_name, behind) = cut(rest, b' ');
    match behind {
        None => None,
        Some(behind) => {
            let (key, _later) = cut(behind, b' ');
            Some(LineFields {
                mark,
                host,
                key,
                rest,
            })
        }
    }
}

/// The line of the fields in a text, from which the mark was cut off.
fn line_in(mark: Mark, text: &str) -> Option<LineFields<'_>>
    ensures { option_map line_seen result ≡ line_in mark (parts_at 32 text.now) }
{
    let (host, rest) = cut(text, b' ');
    match rest {
        None => None,
        Some(rest) => line_with(mark, host, rest),
    }
}

/// The line in a part that isn't marked `@revoked`. `None` for parts with another mark and parts with too few fields.
fn recorded_line(part: &str) -> Option<LineFields<'_>>
    ensures { option_map line_seen result ≡ line_by (Recorded, parts_at 32 part.now) }
{
    let (first, _rest) = cut(part, b' ');
    if is_mark(first) {
        return None;
    }
    line_in(Mark::Recorded, part)
}

/// The line in a part of the text. `None` for comments, parts with another mark and parts with too few fields.
#[tactic(auto, unfolding(crate::specs::Lines::line_of))]
pub fn line_of(part: &str) -> Option<LineFields<'_>>
    ensures { option_map line_seen result ≡ line_of part.now }
{
    if is_comment(part) {
        return None;
    }
    match cut_mark(part) {
        (Mark::Revoked, Some(fields)) => line_in(Mark::Revoked, fields),
        (Mark::Recorded, Some(fields)) => recorded_line(fields),
        (_, None) => None,
    }
}

/// The mark with its space; empty for a line without one.
fn mark_text(mark: Mark) -> &'static str
    ensures { result.now ≡ mark_text mark }
{
    match mark {
        Mark::Recorded => "",
        Mark::Revoked => "@revoked ",
    }
}

/// Adds the line with another host field.
pub fn add_with_host(out: &mut Joining, line: LineFields<'_>, host: &str) -> Result<(), NoMemory>
    ensures { OnOk result (out.new ≡ with_text out.old (Some (with_host (line_seen line.entry) host.now))) }
{
    out.start()?;
    out.push(mark_text(line.mark))?;
    out.push(host)?;
    out.push(" ")?;
    out.push(line.rest)
}
