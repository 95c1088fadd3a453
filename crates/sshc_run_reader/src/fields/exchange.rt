//! An exchange that is done.

ghost use Rattle.std.specs.Prelude.{◌≡◌};
ghost use Rattle.sshc_wire.specs.Format.{made_at};
ghost use Rattle.sshc_wire.specs.Grammar.{finished_at};
ghost use Rattle.sshc_run_reader.specs.EventReading.{readable, missing, key_of_sort, exchange_key_at, no_secret};
ghost use Rattle.sshc_run_reader.specs.EventReading.{secret_of, secret_at, names_at, exchange_at, exchange_done_of};
ghost use Rattle.sshc_run_reader.specs.Gives.{Gives, GivesAll};

use crate::error::EventError;
use crate::parts::{at_end, bytes_of, flag_of, octets_of, text_of, u8_of};
use sshc_auth_event::{Event, host_key_of};
use sshc_transport::{ExchangeKey, ExchangeNames, ExchangeResult, NamesChosen};
use sshc_wire::{Cursor, Octets};
use std::alloc::Global;

/// The key, if its whole blob is one of its sort.
fn read_key(alloc: Global, key: ExchangeKey) -> Result<ExchangeKey, EventError>
    ensures { GivesAll (λ k. k) result (readable key) }
{
    match host_key_of(alloc, &key) {
        Ok(found) => {
            let is_key = found.is_some();
            drop(found);
            if is_key {
                Ok(key)
            } else {
                Err(EventError::Bad)
            }
        }
        Err(refused) => Err(refused.into()),
    }
}

fn no_key(blob: &[u8]) -> Result<ExchangeKey, EventError>
    ensures { GivesAll (λ k. k) result (missing blob.now) }
{
    match blob {
        [] => Ok(ExchangeKey::Missing),
        [_first, ..] => Err(EventError::Bad),
    }
}

fn sorted_key(alloc: Global, sort: u8, blob: &[u8]) -> Result<ExchangeKey, EventError>
    ensures { GivesAll (λ k. k) result (key_of_sort (sort, blob.now)) }
{
    match sort {
        0 => no_key(blob),
        1 => read_key(alloc, ExchangeKey::Key(Octets::from_slice(alloc, blob)?)),
        2 => read_key(
            alloc,
            ExchangeKey::Certificate(Octets::from_slice(alloc, blob)?),
        ),
        _ => Err(EventError::Bad),
    }
}

#[tactic(auto, unfolding(crate::specs::EventReading::exchange_key_at))]
fn exchange_key(alloc: Global, c: &mut Cursor<'_>) -> Result<ExchangeKey, EventError>
    ensures { Gives (λ k. k) result c.new (exchange_key_at c.old) }
{
    let sort = u8_of(c)?;
    let blob = bytes_of(c)?;
    sorted_key(alloc, sort, blob)
}

fn absent_secret(body: &[u8]) -> Result<Option<Octets>, EventError>
    ensures { GivesAll (λ o. o) result (no_secret body.now) }
{
    match body {
        [] => Ok(None),
        [_first, ..] => Err(EventError::Bad),
    }
}

fn secret_in(alloc: Global, present: bool, body: &[u8]) -> Result<Option<Octets>, EventError>
    ensures { GivesAll (λ o. o) result (secret_of (present, body.now)) }
{
    if present {
        Ok(Some(Octets::from_slice(alloc, body)?))
    } else {
        absent_secret(body)
    }
}

#[tactic(auto, unfolding(crate::specs::EventReading::secret_at))]
fn secret(alloc: Global, c: &mut Cursor<'_>) -> Result<Option<Octets>, EventError>
    ensures { Gives (λ o. o) result c.new (secret_at c.old) }
{
    let present = flag_of(c)?;
    let body = bytes_of(c)?;
    secret_in(alloc, present, body)
}

#[tactic(auto, unfolding(crate::specs::EventReading::names_at))]
fn names(alloc: Global, c: &mut Cursor<'_>) -> Result<NamesChosen, EventError>
    ensures { Gives (λ n. n) result c.new (names_at c.old) }
{
    let kex = text_of(alloc, c)?;
    let key = text_of(alloc, c)?;
    let cipher = text_of(alloc, c)?;
    let client_mac = text_of(alloc, c)?;
    let server_mac = text_of(alloc, c)?;
    let strict_kex = flag_of(c)?;
    Ok(NamesChosen::new(
        alloc,
        ExchangeNames {
            kex,
            key,
            cipher,
            client_mac,
            server_mac,
            strict_kex,
        },
    )?)
}

#[tactic(auto, unfolding(crate::specs::EventReading::exchange_at))]
fn exchange(alloc: Global, c: &mut Cursor<'_>) -> Result<ExchangeResult, EventError>
    ensures { Gives (λ x. x) result c.new (exchange_at c.old) }
{
    let key = exchange_key(alloc, c)?;
    let session_hash = octets_of(alloc, c)?;
    let signature = octets_of(alloc, c)?;
    let secret = secret(alloc, c)?;
    let names = names(alloc, c)?;
    Ok(ExchangeResult {
        key,
        session_hash,
        signature,
        secret,
        names,
    })
}

#[tactic(auto, unfolding(crate::specs::EventReading::exchange_done_of))]
pub fn exchange_done(alloc: Global, c: &mut Cursor<'_>) -> Result<Event, EventError>
    ensures { GivesAll (λ e. e) result (exchange_done_of c.old) }
{
    let exchange = at_end(exchange(alloc, c)?, c)?;
    Ok(Event::ExchangeDone(exchange))
}
