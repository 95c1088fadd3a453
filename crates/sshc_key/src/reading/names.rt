//! Reads the name at the front of a blob.

ghost use Rattle.std.specs.Prelude.{◌≡◌, ◌++◌, ◌∷◌, MatchOption, IfOk, Some, None};
ghost use Rattle.std.specs.List.{list_all};
ghost use Rattle.sshc_key.specs.AlgorithmNames.{Parted, parted, is_name_byte, is_taken, is_side, is_marked, is_opaque};
ghost use Rattle.sshc_key.specs.AlgorithmNames.{unmarked, opaque_tag, tag_named};
ghost use Rattle.sshc_key.specs.Gives.{Gives, GivesAll};
ghost use Rattle.sshc_key.specs.KeyReading.{tag_at, tag_or_fault};

use crate::error::Error;
use crate::kind::{Kind, Known, Tag};
use sshc_wire::{Cursor, NoMemory, Text};
use std::alloc::Global;

const MARK: &[u8] = b"-cert-v01";

/// The most bytes of a name with a domain.
const LONGEST: usize = 64;

/// The texts before and after the first `@`.
#[tactic(auto, unfolding(crate::specs::AlgorithmNames::parted))]
pub(crate) fn parts_of(name: &str) -> Option<(&str, &str)>
    ensures { MatchOption result (parted name.now ≡ None)
        (λ x. parted name.now ≡ Some (record { front = x.0.now; domain = x.1.now })) }
{
    name.split_once('@')
}

#[tactic(auto, unfolding(crate::specs::AlgorithmNames::is_name_byte))]
fn is_name_char(byte: u8) -> bool
    ensures { result ≡ is_name_byte byte }
{
    33 <= byte && byte <= 126 && byte != b',' && byte != b'@'
}

#[tactic(auto, unfolding(crate::specs::AlgorithmNames::is_taken))]
fn is_taken_name(front: &[u8], domain: &[u8]) -> bool
    ensures { result ≡ is_taken (record { front = front.now; domain = domain.now }) }
{
    domain == b"openssh.com".as_slice() && Known::stemmed(front).is_some()
}

fn are_name_chars(bytes: &[u8]) -> bool
    ensures { result ≡ list_all is_name_byte bytes.now }
{
    bytes.iter().all(|byte| is_name_char(*byte))
}

/// Whether these bytes may be one side of the `@`.
#[tactic(auto, unfolding(crate::specs::AlgorithmNames::is_side))]
fn is_name_side(bytes: &[u8]) -> bool
    ensures { result ≡ is_side bytes.now }
{
    !bytes.is_empty() && are_name_chars(bytes)
}

#[tactic(auto, unfolding(crate::specs::AlgorithmNames::is_marked))]
fn ends_marked(front: &[u8]) -> bool
    ensures { result ≡ is_marked front.now }
{
    front.ends_with(MARK)
}

/// Whether these are the two sides of the name of an algorithm that isn't in the table.
#[tactic(auto, unfolding(crate::specs::AlgorithmNames::is_opaque))]
fn is_opaque_pair(front: &[u8], domain: &[u8]) -> bool
    ensures { result ≡ is_opaque (record { front = front.now; domain = domain.now }) }
{
    is_name_side(front)
        && is_name_side(domain)
        && front.len() + 1 + domain.len() <= LONGEST
        && !is_taken_name(front, domain)
        && !ends_marked(front)
}

/// The name of which these are the two sides.
fn joined(alloc: Global, front: &str, domain: &str) -> Result<Text, NoMemory>
    ensures { IfOk result (λ t. t ≡ front.now ++ (64 ∷ domain.now)) }
{
    let mut name = String::new(alloc);
    name.push_str(front)?;
    name.push('@')?;
    name.push_str(domain)?;
    Text::from_string(name)
}

/// The text before the mark of certificates at the end.
#[tactic(auto, using(crate::specs::KeyLaws::Names::unmarked_of_suffix))]
fn unmarked_of(front: &str) -> Option<&str>
    ensures { MatchOption result (unmarked front.now ≡ None) (λ own. unmarked front.now ≡ Some own.now) }
{
    front.strip_suffix("-cert-v01")
}

/// What a name with a domain says, if it is in the grammar.
fn tag_with_domain(alloc: Global, name: &str) -> Result<Tag, Error>
    ensures { GivesAll (λ t. t) result (tag_or_fault (opaque_tag name.now (parted name.now))) }
{
    let Some((front, domain)) = parts_of(name) else {
        return Err(Error::SshKey);
    };
    if is_opaque_pair(front.as_bytes(), domain.as_bytes()) {
        return Ok(Tag::Plain(Kind::Opaque(Text::from_str(alloc, name)?)));
    }
    let Some(own) = unmarked_of(front) else {
        return Err(Error::SshKey);
    };
    if is_opaque_pair(own.as_bytes(), domain.as_bytes()) && name.len() <= LONGEST {
        return Ok(Tag::Certified(Kind::Opaque(joined(alloc, own, domain)?)));
    }
    Err(Error::SshKey)
}

/// What a name says, if it is in the grammar.
#[tactic(auto, unfolding(crate::specs::AlgorithmNames::tag_named))]
fn named(alloc: Global, name: &str) -> Result<Tag, Error>
    ensures { GivesAll (λ t. t) result (tag_or_fault (tag_named name.now)) }
{
    if let Some(known) = Known::named(name.as_bytes()) {
        return Ok(Tag::Plain(Kind::Known(known)));
    }
    if let Some(known) = Known::certified(name.as_bytes()) {
        return Ok(Tag::Certified(Kind::Known(known)));
    }
    tag_with_domain(alloc, name)
}

#[tactic(auto, unfolding(crate::specs::KeyReading::tag_at, crate::specs::KeyReading::utf8_at))]
pub(super) fn tag_of(alloc: Global, c: &mut Cursor<'_>) -> Result<Tag, Error>
    ensures { Gives (λ t. t) result c.new (tag_at c.old) }
{
    let name = c.text()?;
    named(alloc, name)
}
