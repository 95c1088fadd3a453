//! Lists of names, which are parted by commas (RFC 4251, section 5).

ghost use Rattle.std.specs.Prelude.{◌≡◌, ◌<◌, ◌^◌, ◌++◌, ◌∷◌, [], length, MatchOption, OnOk, OnErr};
ghost use Rattle.std.specs.Iterator.{YieldsFirstRef, item_count};
ghost use Rattle.std.specs.List.{flat_map, join_with_byte, position_or_len, before_first, after_first};
ghost use Rattle.sshc_wire.specs.Names.{is_comma, names_in, behind_comma};
ghost use Rattle.sshc_wire.specs.Extending.{Extends};
ghost use Rattle.sshc_wire.specs.Wire.{names_text};

use crate::error::NoMemory;
use crate::put::{begin_string, end_string};
use crate::text::Text;
use std::marker::Model;

/// The names that are still to come from a list, without the empty ones, which contracts see as that list.
#[derive(Drop)]
pub struct Names<'a> {
    left: &'a str,
}

impl<'a> Model for Names<'a> {
    ghost use Rattle.std.specs.Prelude.{List, ℕ};
    ghost use Rattle.sshc_wire.specs.Names.{names_in};

    ghost Value = { List (List ℕ) };

    ghost view = { λ n. names_in n.left.now };
}

impl<'a> Names<'a> {
    /// The names in the text.
    pub fn new(text: &'a str) -> Names<'a>
        ensures { result ≡ names_in text.now }
    {
        Names { left: text }
    }
}

impl<'a> Iterator for Names<'a> {
    type Item = &'a str;

    ghost next_gives = { YieldsFirstRef (λ s. s) };

    ghost remaining = { item_count (λ s. s) };

    fn next(&mut self) -> Option<&'a str> {
        let (name, rest) = first_name(self.left)?;
        self.left = rest;
        Some(name)
    }
}

/// The texts before and after the first comma.
fn cut(text: &str) -> Option<(&str, &str)>
    ensures { MatchOption result (position_or_len is_comma text.now ≡ length text.now)
        (λ x. (position_or_len is_comma text.now < length text.now) × (x.0.now ≡ before_first is_comma text.now)
        × (x.1.now ≡ after_first is_comma text.now)) }
{
    text.split_once(',')
}

/// The first name that isn't empty, and the text behind it.
#[tactic(auto, using(crate::proofs::Hints::first_name))]
fn first_name(text: &str) -> Option<(&str, &str)>
    ensures { MatchOption result (names_in text.now ≡ []) (λ x. names_in text.now ≡ x.0.now ∷ names_in x.1.now) }
{
    let mut left = text;
    while !left.is_empty() {
        let Some((name, rest)) = cut(left) else {
            return Some((left, ""));
        };
        if !name.is_empty() {
            return Some((name, rest));
        }
        left = rest;
    }
    None
}

/// Adds a comma and the name. Out of memory, a part of them may be added, as with the functions below.
#[tactic(auto, using(crate::proofs::Extended::extended, crate::proofs::Extended::unextended))]
pub(crate) fn put_behind_comma(out: &mut Vec<u8>, name: &str) -> Result<(), NoMemory>
    ensures ok { OnOk result (out.new.items ≡ out.old.items ++ behind_comma name.now) }
    ensures err { OnErr result (Extends out.old.items out.new.items) }
{
    out.push(b',')?;
    out.extend_from_slice(name.as_bytes())?;
    Ok(())
}

/// Adds the names, each behind a comma.
#[tactic(auto, using(crate::proofs::Hints::extends))]
fn put_rest(out: &mut Vec<u8>, names: &[Text]) -> Result<(), NoMemory>
    ensures ok { OnOk result (out.new.items ≡ out.old.items ++ flat_map behind_comma names.now) }
    ensures err { OnErr result (Extends out.old.items out.new.items) }
{
    for name in names {
        put_behind_comma(out, name.as_str())?;
    }
    Ok(())
}

/// Adds the names, joined by commas.
#[tactic(auto, using(crate::proofs::Hints::extends_joined))]
fn put_joined(out: &mut Vec<u8>, names: &[Text]) -> Result<(), NoMemory>
    ensures ok { OnOk result (out.new.items ≡ out.old.items ++ join_with_byte 44 names.now) }
    ensures err { OnErr result (Extends out.old.items out.new.items) }
{
    match names.split_first() {
        None => Ok(()),
        Some((first, others)) => {
            out.extend_from_slice(first.as_str().as_bytes())?;
            put_rest(out, others)
        }
    }
}

#[tactic(auto, unfolding(crate::specs::Wire::names_text), using(crate::proofs::Hints::extends_string))]
fn put_parts(out: &mut Vec<u8>, names: &[Text]) -> Result<(), NoMemory>
    ensures ok { OnOk result (out.new.items ≡ out.old.items ++ names_text names.now) }
    ensures err { OnErr result (Extends out.old.items out.new.items) }
{
    let at = begin_string(out)?;
    put_joined(out, names)?;
    end_string(out, at)
}

/// Writes a list of names: the names joined by commas, as a string. More than 2^32 - 1 bytes count as out of memory.
#[tactic(auto, using(crate::proofs::Extended::cut_back))]
pub fn put_names(out: &mut Vec<u8>, names: &[Text]) -> Result<(), NoMemory>
    ensures ok { OnOk result (out.new.items ≡ out.old.items ++ names_text names.now) }
    ensures err { OnErr result (out.new.items ≡ out.old.items) }
{
    let before = out.len();
    let written = put_parts(out, names);
    if written.is_err() {
        out.truncate(before);
    }
    written
}
