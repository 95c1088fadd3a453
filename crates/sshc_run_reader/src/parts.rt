//! Parts of events: numbers, strings, texts and what they represent.

ghost use Rattle.std.specs.Prelude.{◌≡◌, ◌↔◌, [], Err, IsOk, IfOk, OnErr};
ghost use Rattle.sshc_run_reader.specs.EventParts.{u8_at, u32_at, flag_at, octets_at, words_at, ticket_at, channel_at};
ghost use Rattle.sshc_run_reader.specs.EventParts.{hash_numbered, hash_at, reason_numbered, reason_at};
ghost use Rattle.sshc_run_reader.specs.EventParts.{failure_numbered, failure_at, method_sort_at, channel_sort_at};
ghost use Rattle.sshc_run_reader.specs.EventParts.{token_of, token_at, mode_at};
ghost use Rattle.sshc_run_reader.specs.Gives.{Gives, GivesAll};

use crate::channel_sort::ChannelSort;
use crate::error::EventError;
use crate::method_sort::MethodSort;
use sshc_key::HashAlg;
use sshc_wire::{ChannelId, ChannelOpenFailure, Cursor, Disconnect, Octets, Pty, Text, Ticket};
use std::alloc::Global;

/// Returns the value if no bytes remain after it.
pub fn at_end<T: Drop>(value: T, c: &Cursor<'_>) -> Result<T, EventError>
    ensures end { IsOk result ↔ (c.now ≡ []) }
    ensures same { IfOk result (λ x. x ≡ value) }
    ensures bad { OnErr result (result ≡ Err EventError.Bad) }
{
    if c.rest().is_empty() {
        Ok(value)
    } else {
        Err(EventError::Bad)
    }
}

#[tactic(auto, unfolding(crate::specs::EventParts::u8_at))]
pub fn u8_of(c: &mut Cursor<'_>) -> Result<u8, EventError>
    ensures { Gives (λ n. n) result c.new (u8_at c.old) }
{
    Ok(c.u8()?)
}

#[tactic(auto, unfolding(crate::specs::EventParts::u32_at))]
pub fn u32_of(c: &mut Cursor<'_>) -> Result<u32, EventError>
    ensures { Gives (λ n. n) result c.new (u32_at c.old) }
{
    Ok(c.u32()?)
}

#[tactic(auto, unfolding(crate::specs::EventParts::flag_at))]
pub fn flag_of(c: &mut Cursor<'_>) -> Result<bool, EventError>
    ensures { Gives (λ b. b) result c.new (flag_at c.old) }
{
    Ok(c.boolean()?)
}

#[tactic(auto, unfolding(crate::specs::EventParts::octets_at))]
pub fn bytes_of<'a>(c: &mut Cursor<'a>) -> Result<&'a [u8], EventError>
    ensures { Gives (λ b. b.now) result c.new (octets_at c.old) }
{
    Ok(c.bytes()?)
}

pub fn octets_of(alloc: Global, c: &mut Cursor<'_>) -> Result<Octets, EventError>
    ensures { Gives (λ o. o) result c.new (octets_at c.old) }
{
    Ok(Octets::from_slice(alloc, bytes_of(c)?)?)
}

#[tactic(auto, unfolding(crate::specs::EventParts::words_at))]
pub fn text_of(alloc: Global, c: &mut Cursor<'_>) -> Result<Text, EventError>
    ensures { Gives (λ t. t) result c.new (words_at c.old) }
{
    Ok(Text::from_str(alloc, c.text()?)?)
}

#[tactic(auto, unfolding(crate::specs::EventParts::ticket_at))]
pub fn ticket_of(c: &mut Cursor<'_>) -> Result<Ticket, EventError>
    ensures { Gives (λ t. t) result c.new (ticket_at c.old) }
{
    Ok(Ticket(u32_of(c)?))
}

#[tactic(auto, unfolding(crate::specs::EventParts::channel_at))]
pub fn channel_of(c: &mut Cursor<'_>) -> Result<ChannelId, EventError>
    ensures { Gives (λ id. id) result c.new (channel_at c.old) }
{
    Ok(ChannelId(u32_of(c)?))
}

fn hash_by(number: u8) -> Result<Option<HashAlg>, EventError>
    ensures { GivesAll (λ h. h) result (hash_numbered number) }
{
    match number {
        0 => Ok(None),
        1 => Ok(Some(HashAlg::Sha256)),
        2 => Ok(Some(HashAlg::Sha512)),
        _ => Err(EventError::Bad),
    }
}

#[tactic(auto, unfolding(crate::specs::EventParts::hash_at))]
pub fn hash_of(c: &mut Cursor<'_>) -> Result<Option<HashAlg>, EventError>
    ensures { Gives (λ h. h) result c.new (hash_at c.old) }
{
    let number = u8_of(c)?;
    hash_by(number)
}

#[tactic(auto, unfolding(crate::specs::EventParts::reason_at))]
pub fn reason_of(c: &mut Cursor<'_>) -> Result<Disconnect, EventError>
    ensures { Gives (λ r. r) result c.new (reason_at c.old) }
{
    let number = u32_of(c)?;
    match Disconnect::from_u32(number) {
        Some(reason) => Ok(reason),
        None => Err(EventError::Bad),
    }
}

#[tactic(auto, unfolding(crate::specs::EventParts::failure_at))]
pub fn failure_of(c: &mut Cursor<'_>) -> Result<ChannelOpenFailure, EventError>
    ensures { Gives (λ r. r) result c.new (failure_at c.old) }
{
    let number = u32_of(c)?;
    match ChannelOpenFailure::from_u32(number) {
        Some(reason) => Ok(reason),
        None => Err(EventError::Bad),
    }
}

#[tactic(auto, unfolding(crate::specs::EventParts::method_sort_at))]
pub fn method_sort_of(c: &mut Cursor<'_>) -> Result<MethodSort, EventError>
    ensures { Gives (λ s. s) result c.new (method_sort_at c.old) }
{
    let number = u8_of(c)?;
    match MethodSort::from_u8(number) {
        Some(sort) => Ok(sort),
        None => Err(EventError::Bad),
    }
}

#[tactic(auto, unfolding(crate::specs::EventParts::channel_sort_at))]
pub fn channel_sort_of(c: &mut Cursor<'_>) -> Result<ChannelSort, EventError>
    ensures { Gives (λ s. s) result c.new (channel_sort_at c.old) }
{
    let number = u8_of(c)?;
    match ChannelSort::from_u8(number) {
        Some(sort) => Ok(sort),
        None => Err(EventError::Bad),
    }
}

fn token_in(alloc: Global, token: &[u8]) -> Result<Option<Octets>, EventError>
    ensures { GivesAll (λ t. t) result (token_of token.now) }
{
    match token {
        [] => Ok(None),
        [_first, ..] => Ok(Some(Octets::from_slice(alloc, token)?)),
    }
}

/// A token; an empty string means that there is no token.
#[tactic(auto, unfolding(crate::specs::EventParts::token_at))]
pub fn token_field(alloc: Global, c: &mut Cursor<'_>) -> Result<Option<Octets>, EventError>
    ensures { Gives (λ t. t) result c.new (token_at c.old) }
{
    let token = bytes_of(c)?;
    token_in(alloc, token)
}

#[tactic(auto, unfolding(crate::specs::EventParts::mode_at))]
pub fn mode_of(c: &mut Cursor<'_>) -> Result<(Pty, u32), EventError>
    ensures { Gives (λ m. m) result c.new (mode_at c.old) }
{
    let mode = Pty(u8_of(c)?);
    let value = u32_of(c)?;
    Ok((mode, value))
}
