//! Keys, certificates and pairs in events: each a string that holds one and nothing after it.

ghost use Rattle.std.specs.Prelude.{◌≡◌};
ghost use Rattle.sshc_auth_event.specs.HostKey.{is_plain};
ghost use Rattle.sshc_key.specs.View.{view};
ghost use Rattle.sshc_run_reader.specs.EventParts.{plain_of, plain_key, key_at, certificate_of, whole_certificate};
ghost use Rattle.sshc_run_reader.specs.EventParts.{certificate_at, whole_pair, pair_field_at};
ghost use Rattle.sshc_run_reader.specs.Gives.{Gives, GivesAll};

use crate::error::EventError;
use crate::parts::bytes_of;
use sshc_key::{
    Certificate, Error, KeyData, PrivateKey, PublicKey, parse_whole_public_key, read_key_pair,
};
use sshc_wire::Cursor;
use std::alloc::Global;

fn key_fault(error: Error) -> EventError
    ensures { result ≡ (elim error [ Error.NoMemory ↦ EventError.NoMemory | _ ↦ EventError.Bad ]) }
{
    match error {
        Error::NoMemory => EventError::NoMemory,
        _ => EventError::Bad,
    }
}

fn is_plain_key(key: &KeyData) -> bool
    ensures { result ≡ is_plain (view key.now) }
{
    match key {
        KeyData::Certificate(certificate) => !certificate.is_certificate(),
        _ => true,
    }
}

/// A plain key's whole blob.
fn plain_key_in(alloc: Global, blob: &[u8]) -> Result<PublicKey, EventError>
    ensures { GivesAll (λ k. k) result (plain_key blob.now) }
{
    match parse_whole_public_key(alloc, blob) {
        Ok(key) => {
            if is_plain_key(&key.key) {
                Ok(key)
            } else {
                drop(key);
                Err(EventError::Bad)
            }
        }
        Err(error) => Err(key_fault(error)),
    }
}

#[tactic(auto, unfolding(crate::specs::EventParts::key_at))]
pub fn key_of(alloc: Global, c: &mut Cursor<'_>) -> Result<PublicKey, EventError>
    ensures { Gives (λ k. k) result c.new (key_at c.old) }
{
    let blob = bytes_of(c)?;
    plain_key_in(alloc, blob)
}

fn certificate_in_key(key: KeyData) -> Result<Certificate, EventError>
    ensures { GivesAll (λ k. k) result (certificate_of (Some (view key))) }
{
    match key {
        KeyData::Certificate(certificate) => {
            let _ = certificate.is_certificate();
            Ok(Box::into_inner(certificate))
        }
        _plain => Err(EventError::Bad),
    }
}

/// A certificate's whole blob.
fn certificate_in(alloc: Global, blob: &[u8]) -> Result<Certificate, EventError>
    ensures { GivesAll (λ k. k) result (whole_certificate blob.now) }
{
    match parse_whole_public_key(alloc, blob) {
        Ok(key) => {
            let PublicKey {
                key,
                comment: _comment,
            } = key;
            certificate_in_key(key)
        }
        Err(error) => Err(key_fault(error)),
    }
}

#[tactic(auto, unfolding(crate::specs::EventParts::certificate_at))]
pub fn certificate_of(alloc: Global, c: &mut Cursor<'_>) -> Result<Certificate, EventError>
    ensures { Gives (λ k. k) result c.new (certificate_at c.old) }
{
    let blob = bytes_of(c)?;
    certificate_in(alloc, blob)
}

/// A pair's whole text.
fn pair_in(alloc: Global, blob: &[u8]) -> Result<PrivateKey, EventError>
    ensures { GivesAll (λ k. k) result (whole_pair blob.now) }
{
    let mut c = Cursor::new(blob);
    match read_key_pair(alloc, &mut c) {
        Ok(pair) => {
            if c.rest().is_empty() {
                Ok(pair)
            } else {
                drop(pair);
                Err(EventError::Bad)
            }
        }
        Err(error) => Err(key_fault(error)),
    }
}

#[tactic(auto, unfolding(crate::specs::EventParts::pair_field_at))]
pub fn pair_of(alloc: Global, c: &mut Cursor<'_>) -> Result<PrivateKey, EventError>
    ensures { Gives (λ k. k) result c.new (pair_field_at c.old) }
{
    let blob = bytes_of(c)?;
    pair_in(alloc, blob)
}
