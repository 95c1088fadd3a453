//! Reads keys, and certificates with the keys in them.

ghost use Rattle.std.specs.Prelude.{◌≡◌};
ghost use Rattle.sshc_wire.specs.Format.{both_at};
ghost use Rattle.sshc_wire.specs.Whole.{framed_at, whole_at};
ghost use Rattle.sshc_key.specs.Gives.{Gives, GivesAll};
ghost use Rattle.sshc_key.specs.KeyReading.{certificate_at, key_at, octets_at, signature_at, statement_at};
ghost use Rattle.sshc_key.specs.View.{view};
ghost use Rattle.sshc_key.specs.declared.error.Error.TheVariants.{SshKey};

use crate::error::Error;
use crate::key_data::{Certificate, KeyData};
use crate::kind::{Kind, Tag};
use crate::reading::fields::fields_of;
use crate::reading::names::tag_of;
use crate::reading::parts::{bytes_of, octets_of};
use crate::reading::signature::whole_signature;
use crate::reading::statement::statement_of;
use crate::signature::Signature;
use crate::statement::Statement;
use sshc_wire::Cursor;
use std::alloc::Global;

/// What follows the certified key. Each reader below has one fallible step left where a key is held, so that a check
/// takes the key's variants apart only once.
struct Signed {
    says: Statement,
    signature_key: KeyData,
    signature: Signature,
}

#[cycle(keys)]
#[tactic(auto, unfolding(crate::specs::KeyReading::certificate_at))]
fn certificate_of(
    alloc: Global,
    levels: u8,
    kind: Kind,
    c: &mut Cursor<'_>,
) -> Result<Certificate, Error>
    ensures { Gives (λ x. x) result c.new (certificate_at (key_at levels) kind c.old) }
{
    let nonce = octets_of(alloc, c)?;
    let public_key = fields_of(alloc, kind, c)?;
    match signed_of(alloc, levels, c) {
        Ok(
            Signed {
                says,
                signature_key,
                signature,
            },
        ) => Ok(Certificate {
            nonce,
            public_key,
            serial: says.serial,
            cert_type: says.cert_type,
            key_id: says.key_id,
            valid_principals: says.valid_principals,
            valid_after: says.valid_after,
            valid_before: says.valid_before,
            critical_options: says.critical_options,
            extensions: says.extensions,
            reserved: says.reserved,
            signature_key,
            signature,
        }),
        Err(error) => {
            drop(public_key);
            Err(error)
        }
    }
}

#[cycle(keys)]
fn signed_of(alloc: Global, levels: u8, c: &mut Cursor<'_>) -> Result<Signed, Error>
    ensures { Gives (λ s. (s.says, (view s.signature_key, s.signature))) result c.new
        (both_at statement_at (both_at (framed_at octets_at (whole_at SshKey (key_at levels)))
        (framed_at octets_at (whole_at SshKey signature_at))) c.old) }
{
    let says = statement_of(alloc, c)?;
    let signature_key = whole_key(alloc, levels, bytes_of(c)?)?;
    match signature_in(alloc, c) {
        Ok(signature) => Ok(Signed {
            says,
            signature_key,
            signature,
        }),
        Err(error) => {
            drop(signature_key);
            Err(error)
        }
    }
}

/// Reads a string that is one whole signature.
fn signature_in(alloc: Global, c: &mut Cursor<'_>) -> Result<Signature, Error>
    ensures { Gives (λ s. s) result c.new (framed_at octets_at (whole_at SshKey signature_at) c.old) }
{
    whole_signature(alloc, bytes_of(c)?)
}

#[cycle(keys)]
fn whole_key(alloc: Global, levels: u8, bytes: &[u8]) -> Result<KeyData, Error>
    ensures { GivesAll view result (whole_at SshKey (key_at levels) bytes.now) }
{
    let mut c = Cursor::new(bytes);
    match key_of(alloc, levels, &mut c) {
        Ok(key) => {
            if c.rest().is_empty() {
                Ok(key)
            } else {
                drop(key);
                Err(Error::SshKey)
            }
        }
        Err(error) => Err(error),
    }
}

/// Reads a key with fewer than so many certificates in one another.
#[cycle(keys)]
#[tactic(auto, unfolding(crate::specs::KeyReading::key_at))]
pub(crate) fn key_of(alloc: Global, levels: u8, c: &mut Cursor<'_>) -> Result<KeyData, Error>
    ensures { Gives view result c.new (key_at levels c.old) }
{
    if levels == 0 {
        return Err(Error::SshKey);
    }
    match tag_of(alloc, c)? {
        Tag::Plain(kind) => fields_of(alloc, kind, c),
        Tag::Certified(kind) => {
            let certificate = certificate_of(alloc, levels - 1, kind, c)?;
            Ok(KeyData::Certificate(Box::new(alloc, certificate)?))
        }
    }
}
