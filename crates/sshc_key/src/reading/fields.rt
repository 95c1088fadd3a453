//! Reads the fields of plain keys (RFC 4253, section 6.6; RFC 5656, section 3.1; RFC 8709, section 4; PROTOCOL.u2f).

ghost use Rattle.std.specs.Prelude.{◌≡◌};
ghost use Rattle.sshc_key.specs.Gives.{Gives};
ghost use Rattle.sshc_key.specs.KeyReading.{dsa_at, ecdsa_at, ed25519_at, rsa_at, sk_ecdsa_at, sk_ed25519_at};
ghost use Rattle.sshc_key.specs.KeyReading.{opaque_at, fields_at};
ghost use Rattle.sshc_key.specs.View.{view};

use crate::algorithm::EcdsaCurve;
use crate::error::Error;
use crate::key_data::KeyData;
use crate::kind::{Kind, Known};
use crate::reading::parts::{curve_of, mpint_of, octets_of, point_of, sized_of, text_of};
use sshc_wire::{Cursor, Text};
use std::alloc::Global;

#[tactic(auto, unfolding(crate::specs::KeyReading::dsa_at))]
fn dsa_of(alloc: Global, c: &mut Cursor<'_>) -> Result<KeyData, Error>
    ensures { Gives view result c.new (dsa_at c.old) }
{
    let p = mpint_of(alloc, c)?;
    let q = mpint_of(alloc, c)?;
    let g = mpint_of(alloc, c)?;
    let y = mpint_of(alloc, c)?;
    Ok(KeyData::Dsa { p, q, g, y })
}

#[tactic(auto, unfolding(crate::specs::KeyReading::ecdsa_at))]
fn ecdsa_of(alloc: Global, curve: EcdsaCurve, c: &mut Cursor<'_>) -> Result<KeyData, Error>
    ensures { Gives view result c.new (ecdsa_at curve c.old) }
{
    curve_of(curve, c)?;
    let point = point_of(alloc, curve, c)?;
    Ok(KeyData::Ecdsa { curve, point })
}

#[tactic(auto, unfolding(crate::specs::KeyReading::ed25519_at))]
fn ed25519_of(alloc: Global, c: &mut Cursor<'_>) -> Result<KeyData, Error>
    ensures { Gives view result c.new (ed25519_at c.old) }
{
    let public = sized_of(alloc, 32, c)?;
    Ok(KeyData::Ed25519 { public })
}

#[tactic(auto, unfolding(crate::specs::KeyReading::rsa_at))]
fn rsa_of(alloc: Global, c: &mut Cursor<'_>) -> Result<KeyData, Error>
    ensures { Gives view result c.new (rsa_at c.old) }
{
    let e = mpint_of(alloc, c)?;
    let n = mpint_of(alloc, c)?;
    Ok(KeyData::Rsa { e, n })
}

#[tactic(auto, unfolding(crate::specs::KeyReading::sk_ecdsa_at))]
fn sk_ecdsa_of(alloc: Global, c: &mut Cursor<'_>) -> Result<KeyData, Error>
    ensures { Gives view result c.new (sk_ecdsa_at c.old) }
{
    curve_of(EcdsaCurve::NistP256, c)?;
    let point = point_of(alloc, EcdsaCurve::NistP256, c)?;
    let application = text_of(alloc, c)?;
    Ok(KeyData::SkEcdsaSha2NistP256 { point, application })
}

#[tactic(auto, unfolding(crate::specs::KeyReading::sk_ed25519_at))]
fn sk_ed25519_of(alloc: Global, c: &mut Cursor<'_>) -> Result<KeyData, Error>
    ensures { Gives view result c.new (sk_ed25519_at c.old) }
{
    let public = sized_of(alloc, 32, c)?;
    let application = text_of(alloc, c)?;
    Ok(KeyData::SkEd25519 {
        public,
        application,
    })
}

#[tactic(auto, unfolding(crate::specs::KeyReading::opaque_at))]
fn opaque_of(alloc: Global, name: Text, c: &mut Cursor<'_>) -> Result<KeyData, Error>
    ensures { Gives view result c.new (opaque_at name c.old) }
{
    let body = octets_of(alloc, c)?;
    Ok(KeyData::Other { name, body })
}

/// Reads the fields of a key of this kind.
pub(super) fn fields_of(alloc: Global, kind: Kind, c: &mut Cursor<'_>) -> Result<KeyData, Error>
    ensures { Gives view result c.new (fields_at kind c.old) }
{
    match kind {
        Kind::Known(known) => match known {
            Known::Dsa => dsa_of(alloc, c),
            Known::Ecdsa(curve) => ecdsa_of(alloc, curve, c),
            Known::Ed25519 => ed25519_of(alloc, c),
            Known::Rsa => rsa_of(alloc, c),
            Known::SkEcdsaSha2NistP256 => sk_ecdsa_of(alloc, c),
            Known::SkEd25519 => sk_ed25519_of(alloc, c),
        },
        Kind::Opaque(name) => opaque_of(alloc, name, c),
    }
}
