//! Lines of known hosts texts: their marks and fields.

ghost use Rattle.std.specs.Prelude.{◌≡◌, option_map};
ghost use Rattle.sshc_hosts_openssh.specs.Cuts.{entry_seen};
ghost use Rattle.sshc_hosts_openssh.specs.Lines.{entry_of, fields_of, has_tab, is_authority, mark_named, marked_fields};
ghost use Rattle.sshc_hosts_openssh.specs.Lines.{read_line, words};
ghost use Rattle.sshc_hosts_openssh.specs.declared.entry.Mark.TheVariants.{Recorded};
ghost use Rattle.std.specs.Prelude.{◌∷◌};

use crate::cutting::{begins, next_word, visible};

/// What a line says of its key.
#[derive(Clone, Copy)]
pub enum Mark {
    /// The key is that of the line's hosts.
    Recorded,
    /// The key is to be refused (`@revoked`).
    Revoked,
    /// The key signs certificates of the line's hosts (`@cert-authority`).
    Authority,
}

/// A line's mark and its fields, a comment left out.
#[derive(Clone, Copy)]
pub struct LineEntry<'a> {
    pub mark: Mark,
    pub hosts: &'a [u8],
    pub key_type: &'a [u8],
    pub key: &'a [u8],
}

/// The mark that the word is.
fn mark_named(word: &[u8]) -> Option<Mark>
    ensures { result ≡ mark_named word.now }
{
    if word == "@revoked".as_bytes() {
        Some(Mark::Revoked)
    } else if word == "@cert-authority".as_bytes() {
        Some(Mark::Authority)
    } else {
        None
    }
}

/// The fields of a line whose hosts are followed by this text.
fn fields_of<'a>(mark: Mark, hosts: &'a [u8], rest: &'a [u8]) -> Option<LineEntry<'a>>
    ensures { option_map entry_seen result ≡ fields_of mark (hosts.now ∷ words rest.now) }
{
    let (key_type, rest) = next_word(rest)?;
    let (key, _comment) = next_word(rest)?;
    Some(LineEntry {
        mark,
        hosts,
        key_type,
        key,
    })
}

/// The fields of a line whose mark is followed by this text.
fn marked_fields(mark: Option<Mark>, rest: &[u8]) -> Option<LineEntry<'_>>
    ensures { option_map entry_seen result ≡ marked_fields mark (words rest.now) }
{
    let mark = mark?;
    let (hosts, rest) = next_word(rest)?;
    if begins(hosts, b'@') {
        return None;
    }
    fields_of(mark, hosts, rest)
}

/// The mark and the fields of a line that is neither empty nor a comment. A line with a mark that OpenSSH doesn't have,
/// with more than one mark or with too few fields has none.
fn entry_of(line: &[u8]) -> Option<LineEntry<'_>>
    ensures { option_map entry_seen result ≡ entry_of (words line.now) }
{
    let (first, rest) = next_word(line)?;
    if begins(first, b'#') {
        None
    } else if begins(first, b'@') {
        marked_fields(mark_named(first), rest)
    } else {
        fields_of(Mark::Recorded, first, rest)
    }
}

fn is_authority(mark: Mark) -> bool
    ensures { result ≡ is_authority mark }
{
    match mark {
        Mark::Authority => true,
        Mark::Recorded | Mark::Revoked => false,
    }
}

fn has_tab(line: &[u8]) -> bool
    ensures { result ≡ has_tab line.now }
{
    line.iter().any(|b| *b == b'\t')
}

/// The mark and the fields of a line, up to its first NUL byte. An authority's line that has a tab is passed over.
pub fn read_line(line: &[u8]) -> Option<LineEntry<'_>>
    ensures { option_map entry_seen result ≡ read_line line.now }
{
    let line = visible(line);
    let entry = entry_of(line)?;
    if is_authority(entry.mark) && has_tab(line) {
        return None;
    }
    Some(entry)
}
