//! What the user asks and answers while it is authenticated (RFC 4252, RFC 4256, RFC 4462).

ghost use Rattle.std.specs.Prelude.{◌≡◌, Ok};
ghost use Rattle.sshc_wire.specs.Format.{made_at, no_bytes_at};
ghost use Rattle.sshc_wire.specs.Grammar.{finished_at};
ghost use Rattle.sshc_run_reader.specs.EventParts.{texts_at, strings_at};
ghost use Rattle.sshc_run_reader.specs.EventReading.{hashed_pair_at, method_fields_at, method_at, authenticate_at};
ghost use Rattle.sshc_run_reader.specs.EventReading.{gssapi_mic_at, authenticate_of, gssapi_complete_of, gssapi_mic_of};
ghost use Rattle.sshc_run_reader.specs.EventReading.{gssapi_token_of, info_response_of, signed_of};
ghost use Rattle.sshc_run_reader.specs.Gives.{Gives, GivesAll};

use crate::error::EventError;
use crate::fields::lists::list_of;
use crate::keys::{certificate_of, key_of, pair_of};
use crate::method_sort::MethodSort;
use crate::parts::{at_end, hash_of, method_sort_of, octets_of, text_of, ticket_of, token_field};
use sshc_auth_event::{Event, Method, SharedMethod};
use sshc_key::PrivateKeyWithHashAlg;
use sshc_wire::Cursor;
use std::alloc::Global;

/// A method goes behind its pointer where its fields were read, so that no reader hands on more than that.
fn shared(alloc: Global, method: Method) -> Result<SharedMethod, EventError>
    ensures { GivesAll (λ m. m) result (Ok method) }
{
    Ok(SharedMethod::new(alloc, method)?)
}

#[tactic(auto, unfolding(crate::specs::EventReading::hashed_pair_at))]
fn hashed_pair(alloc: Global, c: &mut Cursor<'_>) -> Result<SharedMethod, EventError>
    ensures { Gives (λ m. m) result c.new (hashed_pair_at c.old) }
{
    let key = pair_of(alloc, c)?;
    match hash_of(c) {
        Ok(hash_alg) => shared(
            alloc,
            Method::PublicKey {
                key: PrivateKeyWithHashAlg::new(key, hash_alg),
            },
        ),
        Err(error) => {
            drop(key);
            Err(error)
        }
    }
}

fn pair_and_certificate(alloc: Global, c: &mut Cursor<'_>) -> Result<SharedMethod, EventError>
    ensures { Gives (λ m. m) result c.new (method_fields_at MethodSort.OpenSshCertificate c.old) }
{
    let key = pair_of(alloc, c)?;
    match certificate_of(alloc, c) {
        Ok(cert) => shared(alloc, Method::OpenSshCertificate { key, cert }),
        Err(error) => {
            drop(key);
            Err(error)
        }
    }
}

fn key_and_hash(alloc: Global, c: &mut Cursor<'_>) -> Result<SharedMethod, EventError>
    ensures { Gives (λ m. m) result c.new (method_fields_at MethodSort.FuturePublicKey c.old) }
{
    let key = key_of(alloc, c)?;
    match hash_of(c) {
        Ok(hash_alg) => shared(alloc, Method::FuturePublicKey { key, hash_alg }),
        Err(error) => {
            drop(key);
            Err(error)
        }
    }
}

fn certificate_and_hash(alloc: Global, c: &mut Cursor<'_>) -> Result<SharedMethod, EventError>
    ensures { Gives (λ m. m) result c.new (method_fields_at MethodSort.FutureCertificate c.old) }
{
    let cert = certificate_of(alloc, c)?;
    match hash_of(c) {
        Ok(hash_alg) => shared(alloc, Method::FutureCertificate { cert, hash_alg }),
        Err(error) => {
            drop(cert);
            Err(error)
        }
    }
}

fn password(alloc: Global, c: &mut Cursor<'_>) -> Result<SharedMethod, EventError>
    ensures { Gives (λ m. m) result c.new (method_fields_at MethodSort.Password c.old) }
{
    let password = text_of(alloc, c)?;
    shared(alloc, Method::Password { password })
}

fn prompts(alloc: Global, c: &mut Cursor<'_>) -> Result<SharedMethod, EventError>
    ensures { Gives (λ m. m) result c.new (method_fields_at MethodSort.KeyboardInteractive c.old) }
{
    let submethods = text_of(alloc, c)?;
    shared(alloc, Method::KeyboardInteractive { submethods })
}

#[tactic(auto, unfolding(crate::specs::EventParts::strings_at))]
fn mechanisms(alloc: Global, c: &mut Cursor<'_>) -> Result<SharedMethod, EventError>
    ensures { Gives (λ m. m) result c.new (method_fields_at MethodSort.GssapiWithMic c.old) }
{
    let mechanism_oids = list_of(alloc, 4, c)?;
    shared(alloc, Method::GssapiWithMic { mechanism_oids })
}

fn method_fields(
    alloc: Global,
    sort: MethodSort,
    c: &mut Cursor<'_>,
) -> Result<SharedMethod, EventError>
    ensures { Gives (λ m. m) result c.new (method_fields_at sort c.old) }
{
    match sort {
        MethodSort::Nothing => shared(alloc, Method::None),
        MethodSort::Password => password(alloc, c),
        MethodSort::PublicKey => hashed_pair(alloc, c),
        MethodSort::OpenSshCertificate => pair_and_certificate(alloc, c),
        MethodSort::FuturePublicKey => key_and_hash(alloc, c),
        MethodSort::FutureCertificate => certificate_and_hash(alloc, c),
        MethodSort::KeyboardInteractive => prompts(alloc, c),
        MethodSort::GssapiWithMic => mechanisms(alloc, c),
    }
}

#[tactic(auto, unfolding(crate::specs::EventReading::method_at))]
fn method(alloc: Global, c: &mut Cursor<'_>) -> Result<SharedMethod, EventError>
    ensures { Gives (λ m. m) result c.new (method_at c.old) }
{
    let sort = method_sort_of(c)?;
    method_fields(alloc, sort, c)
}

#[tactic(auto, unfolding(crate::specs::EventReading::authenticate_of, crate::specs::EventReading::authenticate_at))]
pub fn authenticate(alloc: Global, c: &mut Cursor<'_>) -> Result<Event, EventError>
    ensures { GivesAll (λ e. e) result (authenticate_of c.old) }
{
    let ticket = ticket_of(c)?;
    let user = text_of(alloc, c)?;
    let method = at_end(method(alloc, c)?, c)?;
    Ok(Event::Authenticate {
        ticket,
        user,
        method,
    })
}

#[tactic(auto, unfolding(crate::specs::EventReading::info_response_of, crate::specs::EventParts::texts_at))]
pub fn info_response(alloc: Global, c: &mut Cursor<'_>) -> Result<Event, EventError>
    ensures { GivesAll (λ e. e) result (info_response_of c.old) }
{
    let responses = list_of(alloc, 4, c)?;
    c.ensure_end()?;
    Ok(Event::AuthInfoResponse { responses })
}

#[tactic(auto, unfolding(crate::specs::EventReading::gssapi_token_of))]
pub fn gssapi_token(alloc: Global, c: &mut Cursor<'_>) -> Result<Event, EventError>
    ensures { GivesAll (λ e. e) result (gssapi_token_of c.old) }
{
    let token = octets_of(alloc, c)?;
    c.ensure_end()?;
    Ok(Event::AuthGssapiToken { token })
}

#[tactic(auto, unfolding(crate::specs::EventReading::gssapi_mic_of, crate::specs::EventReading::gssapi_mic_at))]
pub fn gssapi_mic(alloc: Global, c: &mut Cursor<'_>) -> Result<Event, EventError>
    ensures { GivesAll (λ e. e) result (gssapi_mic_of c.old) }
{
    let token = token_field(alloc, c)?;
    let mic = octets_of(alloc, c)?;
    c.ensure_end()?;
    Ok(Event::AuthGssapiMic { token, mic })
}

#[tactic(auto, unfolding(crate::specs::EventReading::gssapi_complete_of))]
pub fn gssapi_complete(alloc: Global, c: &mut Cursor<'_>) -> Result<Event, EventError>
    ensures { GivesAll (λ e. e) result (gssapi_complete_of c.old) }
{
    let token = token_field(alloc, c)?;
    c.ensure_end()?;
    Ok(Event::AuthGssapiExchangeComplete { token })
}

#[tactic(auto, unfolding(crate::specs::EventReading::signed_of))]
pub fn signed(alloc: Global, c: &mut Cursor<'_>) -> Result<Event, EventError>
    ensures { GivesAll (λ e. e) result (signed_of c.old) }
{
    let body = octets_of(alloc, c)?;
    c.ensure_end()?;
    Ok(Event::Signed { body })
}
