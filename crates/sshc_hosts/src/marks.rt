//! The marks of known hosts lines.

ghost use Rattle.std.specs.Prelude.{◌≡◌, option_copied};
ghost use Rattle.sshc_hosts.specs.MatchingLines.{begins_mark, fields_behind, is_revoked, marked, parts_at};

use crate::cutting::cut;

/// What a known hosts line says of its key.
#[derive(Clone, Copy, Debug, PartialEq, Eq)]
pub enum Mark {
    /// The key is recorded for the line's hosts.
    Recorded,
    /// The key is revoked for the line's hosts: the line's first field is `@revoked`.
    Revoked,
}

impl Mark {
    /// Whether the line revokes its key.
    pub fn is_revoked(self) -> bool
        ensures { result ≡ is_revoked self }
    {
        match self {
            Mark::Recorded => false,
            Mark::Revoked => true,
        }
    }
}

/// Whether the line begins with `@`, as a marked line does: only such a line is searched for the end of its mark.
fn begins_mark(line: &str) -> bool
    ensures { result ≡ begins_mark line.now }
{
    match line.as_bytes().first() {
        Some(b) => *b == b'@',
        None => false,
    }
}

/// A line's mark, and the text of the fields that follow the mark: the whole line if it has no mark, and `None` if it
/// has nothing but the mark. Other marks than `@revoked` have no meaning (OpenSSH's sshd(8), "SSH_KNOWN_HOSTS FILE
/// FORMAT").
#[tactic(auto, using(crate::proofs::MarkLemmas::unmarked))]
pub fn cut_mark(line: &str) -> (Mark, Option<&str>)
    ensures { (result.0, fields_behind (option_copied result.1)) ≡ marked (parts_at 32 line.now) }
{
    if !begins_mark(line) {
        return (Mark::Recorded, Some(line));
    }
    let (first, rest) = cut(line, b' ');
    if first == "@revoked" {
        (Mark::Revoked, rest)
    } else {
        (Mark::Recorded, Some(line))
    }
}
