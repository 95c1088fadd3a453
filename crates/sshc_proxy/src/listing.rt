//! The keys that an agent lists (draft-miller-ssh-agent, section 3.5).

ghost use Rattle.std.specs.Prelude.{◌≡◌, ◌++◌, IfOk, OnOk, filter, map};
ghost use Rattle.sshc_wire.specs.Counted.{times_at};
ghost use Rattle.sshc_wire.specs.Wire.{string_text};
ghost use Rattle.sshc_key.specs.Gives.{Gives, GivesAll};
ghost use Rattle.sshc_proxy.specs.Policy.{allowed};
ghost use Rattle.sshc_proxy.specs.Listing.{keys_seen, listed_at, listed_keys, listed_seen, listed_text, listing};

use crate::policy::Policy;
use sshc_key::agent_msg::IDENTITIES_ANSWER;
use sshc_key::{Error, parse_public_key};
use sshc_wire::{Cursor, NoMemory, Octets, framed, put_string, put_u32};
use std::alloc::Global;

/// A key of a listing.
#[derive(Clone, Copy)]
pub struct Listed<'a> {
    pub blob: &'a [u8],
    pub comment: &'a str,
}

/// Reads a key of a listing: its blob, its comment, and then the key in the blob.
#[tactic(auto, unfolding(crate::specs::Listing::listed_at, crate::proofs::By::octets_at, crate::proofs::By::utf8_at))]
fn read_key<'a>(alloc: Global, c: &mut Cursor<'a>) -> Result<Listed<'a>, Error>
    ensures { Gives listed_seen result c.new (listed_at c.old) }
{
    let blob = c.bytes()?;
    let comment = c.text()?;
    let _key = parse_public_key(alloc, blob)?;
    Ok(Listed { blob, comment })
}

/// Reads `count` keys of a listing.
fn read_keys<'a>(alloc: Global, count: u32, c: &mut Cursor<'a>) -> Result<Vec<Listed<'a>>, Error>
    ensures { Gives (λ found. keys_seen found.items) result c.new (times_at count listed_at c.old) }
{
    let mut found = Vec::new(alloc);
    for _taken in 0..count {
        let one = read_key(alloc, c)?;
        found.push(one)?;
    }
    Ok(found)
}

/// The keys of a listing, which follow the number of IDENTITIES_ANSWER. Each blob begins with a key and each comment is
/// UTF-8; bytes after the last one are ignored.
#[tactic(auto, unfolding(crate::specs::Listing::listed_keys, sshc_key::specs::KeyReading::u32_at))]
pub fn listed_keys(alloc: Global, body: &[u8]) -> Result<Vec<Listed<'_>>, Error>
    ensures { GivesAll (λ found. keys_seen found.items) result (listed_keys body.now) }
{
    let mut c = Cursor::new(body);
    let count = c.u32()?;
    read_keys(alloc, count, &mut c)
}

/// Keeps the keys that are allowed.
#[tactic(auto, using(crate::proofs::ListingLemmas::kept_seen))]
pub(crate) fn keep_allowed(keys: &mut Vec<Listed<'_>>, policy: &Policy, hosts: &[Octets])
    ensures { keys_seen keys.new.items ≡ filter (λ key. allowed policy.now hosts.now key.0) (keys_seen keys.old.items) }
{
    keys.retain(|key| policy.allows(hosts, key.blob));
}

/// Appends a key of a listing.
fn put_key(out: &mut Vec<u8>, key: &Listed<'_>) -> Result<(), NoMemory>
    ensures { OnOk result (out.new.items ≡ out.old.items ++ listed_text (listed_seen key.now)) }
{
    put_string(out, key.blob)?;
    put_string(out, key.comment.as_bytes())
}

#[tactic(auto, unfolding(sshc_wire::specs::Wire::counted_text), using(crate::proofs::Hints::listing_body))]
fn listing_body(alloc: Global, keys: &[Listed<'_>]) -> Result<Vec<u8>, NoMemory>
    ensures { IfOk result (λ v. v.items ≡ listing (keys_seen keys.now)) }
{
    if keys.len() >= 1 << 32 {
        return Err(NoMemory);
    }
    let mut body = Vec::new(alloc);
    body.push(IDENTITIES_ANSWER)?;
    put_u32(&mut body, keys.len() as u32)?;
    for key in keys {
        put_key(&mut body, key)?;
    }
    Ok(body)
}

/// The answer that lists the keys, as a whole frame.
pub fn framed_listing(alloc: Global, keys: &[Listed<'_>]) -> Result<Octets, NoMemory>
    ensures { IfOk result (λ o. o ≡ string_text (listing (keys_seen keys.now))) }
{
    let body = listing_body(alloc, keys)?;
    framed(alloc, &body)
}
