//! Reads records from their texts.

ghost use Rattle.std.specs.Prelude.{◌≡◌, IfOk};
ghost use Rattle.sshc_wire.specs.Reads.{string_at};
ghost use Rattle.sshc_wire.specs.RecordReads.{answer_at, asked_at, happened_at, opened_at, resolved_at, strings_at};
ghost use Rattle.sshc_wire.specs.declared.record.Record.TheVariants.{Agent, Auth, AuthBanner, Channel};
ghost use Rattle.sshc_wire.specs.declared.record.Record.TheVariants.{HostKeysAnnounced, KexDone, Resolved};
ghost use Rattle.sshc_wire.specs.declared.record.Record.TheVariants.{ServerOpened};
ghost use Rattle.sshc_wire.specs.Telling.{made_of, record_by, record_of};

mod agent;
mod auth;
mod channel;
mod list;
mod open;
mod part;
mod resolution;

use crate::channel_id::ChannelId;
use crate::cursor::Cursor;
use crate::error::RecordError;
use crate::octets::Octets;
use crate::record::Record;
use crate::ticket::Ticket;
use agent::read_answer;
use auth::read_auth;
use channel::read_channel;
use list::read_strings;
use open::read_open;
use part::read_text;
use resolution::read_resolution;
use std::alloc::Global;

#[tactic(auto, unfolding(crate::specs::RecordReads::resolved_at))]
fn resolved(alloc: Global, fields: &[u8]) -> Result<Record, RecordError>
    ensures { IfOk result (λ r. r ≡ made_of (λ x. Resolved x.0 x.1) (resolved_at fields.now)) }
{
    let mut c = Cursor::new(fields);
    let ticket = Ticket(c.u32()?);
    let resolution = read_resolution(alloc, &mut c)?;
    Ok(Record::Resolved { ticket, resolution })
}

#[tactic(auto, unfolding(crate::specs::RecordReads::asked_at))]
fn asked(alloc: Global, number: u8, fields: &[u8]) -> Result<Record, RecordError>
    ensures { IfOk result (λ r. r ≡ made_of (λ a. Auth a.0 a.1) (asked_at number fields.now)) }
{
    let mut c = Cursor::new(fields);
    let ticket = Ticket(c.u32()?);
    let asked = read_auth(alloc, number, &mut c)?;
    Ok(Record::Auth { ticket, asked })
}

fn kex_done(alloc: Global, fields: &[u8]) -> Result<Record, RecordError>
    ensures { IfOk result (λ r. r ≡ made_of (λ kex. KexDone kex) (string_at fields.now)) }
{
    let kex = read_text(alloc, &mut Cursor::new(fields))?;
    Ok(Record::KexDone { kex })
}

fn auth_banner(alloc: Global, fields: &[u8]) -> Result<Record, RecordError>
    ensures { IfOk result (λ r. r ≡ made_of (λ banner. AuthBanner banner) (string_at fields.now)) }
{
    let banner = read_text(alloc, &mut Cursor::new(fields))?;
    Ok(Record::AuthBanner { banner })
}

#[tactic(auto, unfolding(crate::specs::RecordReads::happened_at))]
fn happened(alloc: Global, number: u8, fields: &[u8]) -> Result<Record, RecordError>
    ensures { IfOk result (λ r. r ≡ made_of (λ h. Channel h.0 h.1) (happened_at number fields.now)) }
{
    let mut c = Cursor::new(fields);
    let id = ChannelId(c.u32()?);
    let happened = read_channel(alloc, number, &mut c)?;
    Ok(Record::Channel { id, happened })
}

#[tactic(auto, unfolding(crate::specs::RecordReads::opened_at))]
fn server_opened(alloc: Global, fields: &[u8]) -> Result<Record, RecordError>
    ensures { IfOk result (λ r. r ≡ made_of (λ o. ServerOpened o.0 o.1) (opened_at fields.now)) }
{
    let mut c = Cursor::new(fields);
    let id = ChannelId(c.u32()?);
    let opened = read_open(alloc, &mut c)?;
    Ok(Record::ServerOpened { id, opened })
}

fn host_keys(alloc: Global, fields: &[u8]) -> Result<Record, RecordError>
    ensures { IfOk result (λ r. r ≡ made_of (λ keys. HostKeysAnnounced keys) (strings_at fields.now)) }
{
    let keys = read_strings(alloc, &mut Cursor::new(fields))?;
    Ok(Record::HostKeysAnnounced { keys })
}

#[tactic(auto, unfolding(crate::specs::RecordReads::answer_at))]
fn answer(alloc: Global, number: u8, fields: &[u8]) -> Result<Record, RecordError>
    ensures { IfOk result (λ r. r ≡ made_of (λ a. Agent a.0 a.1) (answer_at number fields.now)) }
{
    let mut c = Cursor::new(fields);
    let conn = c.u32()?;
    let answer = read_answer(alloc, number, &mut c)?;
    Ok(Record::Agent { conn, answer })
}

/// The record of this number, whose fields come first.
fn record_by(alloc: Global, number: u8, fields: &[u8]) -> Result<Record, RecordError>
    ensures { IfOk result (λ r. r ≡ record_by number fields.now) }
{
    match number {
        0x01 => Ok(Record::Payload(Octets::from_slice(alloc, fields)?)),
        0x02 => Ok(Record::BeginExchange),
        0x03 => Ok(Record::Opened),
        0x04 => resolved(alloc, fields),
        0x05..=0x0b => asked(alloc, number, fields),
        0x20 => kex_done(alloc, fields),
        0x21 => auth_banner(alloc, fields),
        0x28 => server_opened(alloc, fields),
        0x2f => host_keys(alloc, fields),
        0x22..=0x2e => happened(alloc, number, fields),
        0x40..=0x43 => answer(alloc, number, fields),
        _ => Err(RecordError::NotARecord),
    }
}

/// The record that a text tells. The bytes that remain after its fields aren't looked at.
#[tactic(auto, unfolding(crate::specs::Telling::record_of))]
pub fn read_record(alloc: Global, text: &[u8]) -> Result<Record, RecordError>
    ensures { IfOk result (λ r. r ≡ record_of text.now) }
{
    match text {
        [] => Err(RecordError::NotARecord),
        [number, fields @ ..] => record_by(alloc, *number, fields),
    }
}
