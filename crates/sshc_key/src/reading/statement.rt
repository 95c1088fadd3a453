//! Reads what a certificate says of its key (PROTOCOL.certkeys).

ghost use Rattle.std.specs.Prelude.{◌≡◌};
ghost use Rattle.sshc_wire.specs.Whole.{all_at};
ghost use Rattle.sshc_key.specs.Gives.{Gives, GivesAll};
ghost use Rattle.sshc_key.specs.KeyReading.{utf8_at, cert_type_at, texts_at, option_at, options_at, statement_at};

use crate::error::Error;
use crate::key_data::CertType;
use crate::reading::parts::{bytes_of, octets_of, text_of, u32_of, u64_of};
use crate::statement::Statement;
use sshc_wire::{Cursor, List, Octets, Text};
use std::alloc::Global;

#[tactic(auto, unfolding(crate::specs::KeyReading::cert_type_at))]
fn cert_type_of(c: &mut Cursor<'_>) -> Result<CertType, Error>
    ensures { Gives (λ x. x) result c.new (cert_type_at c.old) }
{
    match u32_of(c)? {
        1 => Ok(CertType::User),
        2 => Ok(CertType::Host),
        _ => Err(Error::SshKey),
    }
}

#[tactic(auto, unfolding(crate::specs::KeyReading::option_at))]
fn option_of(alloc: Global, c: &mut Cursor<'_>) -> Result<(Text, Octets), Error>
    ensures { Gives (λ x. x) result c.new (option_at c.old) }
{
    let name = text_of(alloc, c)?;
    let body = octets_of(alloc, c)?;
    Ok((name, body))
}

fn texts_in(alloc: Global, bytes: &[u8]) -> Result<List<Text>, Error>
    ensures { GivesAll (λ x. x) result (all_at utf8_at bytes.now) }
{
    let mut items = List::new(alloc);
    let mut c = Cursor::new(bytes);
    while !c.rest().is_empty() {
        let item = text_of(alloc, &mut c)?;
        items.push(item)?;
    }
    Ok(items)
}

fn options_in(alloc: Global, bytes: &[u8]) -> Result<List<(Text, Octets)>, Error>
    ensures { GivesAll (λ x. x) result (all_at option_at bytes.now) }
{
    let mut items = List::new(alloc);
    let mut c = Cursor::new(bytes);
    while !c.rest().is_empty() {
        let item = option_of(alloc, &mut c)?;
        items.push(item)?;
    }
    Ok(items)
}

#[tactic(auto, unfolding(crate::specs::KeyReading::texts_at))]
fn texts_of(alloc: Global, c: &mut Cursor<'_>) -> Result<List<Text>, Error>
    ensures { Gives (λ x. x) result c.new (texts_at c.old) }
{
    texts_in(alloc, bytes_of(c)?)
}

#[tactic(auto, unfolding(crate::specs::KeyReading::options_at))]
fn options_of(alloc: Global, c: &mut Cursor<'_>) -> Result<List<(Text, Octets)>, Error>
    ensures { Gives (λ x. x) result c.new (options_at c.old) }
{
    options_in(alloc, bytes_of(c)?)
}

#[tactic(auto, unfolding(crate::specs::KeyReading::statement_at))]
pub(super) fn statement_of(alloc: Global, c: &mut Cursor<'_>) -> Result<Statement, Error>
    ensures { Gives (λ x. x) result c.new (statement_at c.old) }
{
    let serial = u64_of(c)?;
    let cert_type = cert_type_of(c)?;
    let key_id = text_of(alloc, c)?;
    let valid_principals = texts_of(alloc, c)?;
    let valid_after = u64_of(c)?;
    let valid_before = u64_of(c)?;
    let critical_options = options_of(alloc, c)?;
    let extensions = options_of(alloc, c)?;
    let reserved = octets_of(alloc, c)?;
    Ok(Statement {
        serial,
        cert_type,
        key_id,
        valid_principals,
        valid_after,
        valid_before,
        critical_options,
        extensions,
        reserved,
    })
}
