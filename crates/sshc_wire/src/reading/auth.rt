//! Reads what a user is asked for.

ghost use Rattle.std.specs.Prelude.{◌≡◌, Ok, IfOk};
ghost use Rattle.sshc_wire.specs.RecordReads.{asked_by, gssapi_by, gssapi_error_at, gssapi_response_at};
ghost use Rattle.sshc_wire.specs.RecordReads.{gssapi_token_at, hash_of, info_request_at, sign_request_at};
ghost use Rattle.sshc_wire.specs.RecordReads.{sign_request_cert_at};

use crate::auth_record::{AuthRecord, GssapiRecord};
use crate::cursor::Cursor;
use crate::error::RecordError;
use crate::hash_alg::HashAlg;
use crate::reading::list::read_prompts;
use crate::reading::part::{read_octets, read_text};
use std::alloc::Global;

fn hash_of(number: u8) -> Result<Option<HashAlg>, RecordError>
    ensures { IfOk result (λ h. h ≡ hash_of number) }
{
    match number {
        0 => Ok(None),
        1 => Ok(Some(HashAlg::Sha256)),
        2 => Ok(Some(HashAlg::Sha512)),
        _ => Err(RecordError::NotARecord),
    }
}

#[tactic(auto, unfolding(crate::specs::RecordReads::sign_request_at))]
fn sign_request(alloc: Global, c: &mut Cursor<'_>) -> Result<AuthRecord, RecordError>
    ensures { IfOk result (λ a. sign_request_at c.old ≡ Ok (a, c.new)) }
{
    let key = read_octets(alloc, c)?;
    let hash_alg = hash_of(c.u8()?)?;
    let body = read_octets(alloc, c)?;
    Ok(AuthRecord::SignRequest {
        key,
        hash_alg,
        body,
    })
}

#[tactic(auto, unfolding(crate::specs::RecordReads::sign_request_cert_at))]
fn sign_request_cert(alloc: Global, c: &mut Cursor<'_>) -> Result<AuthRecord, RecordError>
    ensures { IfOk result (λ a. sign_request_cert_at c.old ≡ Ok (a, c.new)) }
{
    let cert = read_octets(alloc, c)?;
    let hash_alg = hash_of(c.u8()?)?;
    let body = read_octets(alloc, c)?;
    Ok(AuthRecord::SignRequestCert {
        cert,
        hash_alg,
        body,
    })
}

#[tactic(auto, unfolding(crate::specs::RecordReads::info_request_at))]
fn info_request(alloc: Global, c: &mut Cursor<'_>) -> Result<AuthRecord, RecordError>
    ensures { IfOk result (λ a. info_request_at c.old ≡ Ok (a, c.new)) }
{
    let name = read_text(alloc, c)?;
    let instructions = read_text(alloc, c)?;
    let prompts = read_prompts(alloc, c)?;
    Ok(AuthRecord::AuthInfoRequest {
        name,
        instructions,
        prompts,
    })
}

#[tactic(auto, unfolding(crate::specs::RecordReads::gssapi_response_at))]
fn gssapi_response(alloc: Global, c: &mut Cursor<'_>) -> Result<GssapiRecord, RecordError>
    ensures { IfOk result (λ s. gssapi_response_at c.old ≡ Ok (s, c.new)) }
{
    let mechanism = read_octets(alloc, c)?;
    let mic_data = read_octets(alloc, c)?;
    Ok(GssapiRecord::Response {
        mechanism,
        mic_data,
    })
}

#[tactic(auto, unfolding(crate::specs::RecordReads::gssapi_token_at))]
fn gssapi_token(alloc: Global, c: &mut Cursor<'_>) -> Result<GssapiRecord, RecordError>
    ensures { IfOk result (λ s. gssapi_token_at c.old ≡ Ok (s, c.new)) }
{
    let token = read_octets(alloc, c)?;
    let mic_data = read_octets(alloc, c)?;
    Ok(GssapiRecord::Token { token, mic_data })
}

#[tactic(auto, unfolding(crate::specs::RecordReads::gssapi_error_at))]
fn gssapi_error(alloc: Global, c: &mut Cursor<'_>) -> Result<GssapiRecord, RecordError>
    ensures { IfOk result (λ s. gssapi_error_at c.old ≡ Ok (s, c.new)) }
{
    let major_status = c.u32()?;
    let minor_status = c.u32()?;
    let message = read_text(alloc, c)?;
    Ok(GssapiRecord::Error {
        major_status,
        minor_status,
        message,
    })
}

/// A step of a GSSAPI authentication, by the record's number.
fn gssapi_by(alloc: Global, number: u8, c: &mut Cursor<'_>) -> Result<GssapiRecord, RecordError>
    ensures { IfOk result (λ s. gssapi_by number c.old ≡ Ok (s, c.new)) }
{
    match number {
        0x08 => gssapi_response(alloc, c),
        0x09 => gssapi_token(alloc, c),
        0x0a => gssapi_error(alloc, c),
        0x0b => Ok(GssapiRecord::ErrorToken {
            token: read_octets(alloc, c)?,
        }),
        _ => Err(RecordError::NotARecord),
    }
}

/// What the record of this number asks for, after its ticket.
pub(super) fn read_auth(
    alloc: Global,
    number: u8,
    c: &mut Cursor<'_>,
) -> Result<AuthRecord, RecordError>
    ensures { IfOk result (λ a. asked_by number c.old ≡ Ok (a, c.new)) }
{
    match number {
        0x05 => sign_request(alloc, c),
        0x06 => sign_request_cert(alloc, c),
        0x07 => info_request(alloc, c),
        _ => Ok(AuthRecord::Gssapi(gssapi_by(alloc, number, c)?)),
    }
}
