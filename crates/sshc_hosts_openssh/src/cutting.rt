//! Cutting bytes: at a byte, and into words.

ghost use Rattle.std.specs.Prelude.{◌≡◌, ◌<◌, ◌==◌, length, position, IfNone, IfSome, [], ◌∷◌};
ghost use Rattle.sshc_hosts.specs.MatchingLines.{parts_at};
ghost use Rattle.sshc_hosts_openssh.specs.Cuts.{BeginsWord};
ghost use Rattle.sshc_hosts_openssh.specs.HostsField.{begins};
ghost use Rattle.sshc_hosts_openssh.specs.Lines.{is_blank, visible, words};

use memchr::{memchr, memchr2};

/// The index of the first such byte.
#[tactic(auto, using(sshc_hosts::proofs::Places::first_place))]
fn first_of(text: &[u8], at: u8) -> Option<usize>
    ensures { result ≡ position (λ b. b == at) text.now }
{
    memchr(at, text)
}

/// The part before the first such byte, and what follows that byte, if there is one.
pub fn cut(text: &[u8], at: u8) -> (&[u8], Option<&[u8]>)
    ensures none { IfNone result.1 (parts_at at text.now ≡ result.0.now ∷ []) }
    ensures some { IfSome result.1 (λ rest. parts_at at text.now ≡ result.0.now ∷ parts_at at rest.now) }
    ensures shorter { IfSome result.1 (λ rest. length rest.now < length text.now) }
{
    match first_of(text, at) {
        None => (text, None),
        Some(i) => (&text[..i], Some(&text[i + 1..])),
    }
}

/// Whether the bytes begin with this one.
pub fn begins(text: &[u8], byte: u8) -> bool
    ensures { result ≡ begins byte text.now }
{
    match text.first() {
        Some(b) => *b == byte,
        None => false,
    }
}

/// The line up to its first NUL byte, if it has one.
pub fn visible(line: &[u8]) -> &[u8]
    ensures { result.now ≡ visible line.now }
{
    cut(line, 0).0
}

fn is_blank(b: u8) -> bool
    ensures { result ≡ is_blank b }
{
    b == b' ' || b == b'\t'
}

/// The text from its first word on, if there is a word.
fn from_first_word(text: &[u8]) -> Option<&[u8]>
    ensures none { IfNone result (words text.now ≡ []) }
    ensures some { IfSome result (λ start. words text.now ≡ words start.now) }
    ensures word { IfSome result (λ start. BeginsWord start.now) }
{
    let mut left = text;
    'blanks: loop {
        let (first, rest) = left.split_first()?;
        if !is_blank(*first) {
            return Some(left);
        }
        left = rest;
    }
}

/// The index of the first blank.
#[tactic(auto, using(crate::proofs::WordLemmas::first_blank_place))]
fn first_blank(text: &[u8]) -> Option<usize>
    ensures { result ≡ position is_blank text.now }
{
    memchr2(b' ', b'\t', text)
}

/// The word at the beginning of the text, and what follows it.
fn cut_word(text: &[u8]) -> (&[u8], &[u8])
    ensures { BeginsWord text.now → words text.now ≡ result.0.now ∷ words result.1.now }
{
    match first_blank(text) {
        None => (text, &text[text.len()..]),
        Some(i) => (&text[..i], &text[i + 1..]),
    }
}

/// The first word of the text and what follows it, if there is a word.
pub fn next_word(text: &[u8]) -> Option<(&[u8], &[u8])>
    ensures none { IfNone result (words text.now ≡ []) }
    ensures some { IfSome result (λ cut. words text.now ≡ cut.0.now ∷ words cut.1.now) }
{
    Some(cut_word(from_first_word(text)?))
}
