//! Reads the parts of which keys are made (RFC 4251, section 5).

ghost use Rattle.std.specs.Prelude.{◌≡◌};
ghost use Rattle.sshc_key.specs.Gives.{Gives};
ghost use Rattle.sshc_key.specs.KeyGrammar.{is_mpint, is_point};
ghost use Rattle.sshc_key.specs.KeyReading.{octets_at, utf8_at, u64_at, u32_at, u8_at, mpint_at, point_at, curve_at};
ghost use Rattle.sshc_key.specs.KeyReading.{sized_at};

use crate::algorithm::EcdsaCurve;
use crate::error::Error;
use sshc_wire::{Cursor, Octets, Text};
use std::alloc::Global;

#[tactic(auto, unfolding(crate::specs::KeyReading::octets_at))]
pub(super) fn bytes_of<'a>(c: &mut Cursor<'a>) -> Result<&'a [u8], Error>
    ensures { Gives (λ x. x.now) result c.new (octets_at c.old) }
{
    Ok(c.bytes()?)
}

pub(super) fn octets_of(alloc: Global, c: &mut Cursor<'_>) -> Result<Octets, Error>
    ensures { Gives (λ x. x) result c.new (octets_at c.old) }
{
    Ok(Octets::from_slice(alloc, bytes_of(c)?)?)
}

#[tactic(auto, unfolding(crate::specs::KeyReading::utf8_at))]
pub(super) fn text_of(alloc: Global, c: &mut Cursor<'_>) -> Result<Text, Error>
    ensures { Gives (λ x. x) result c.new (utf8_at c.old) }
{
    Ok(Text::from_str(alloc, c.text()?)?)
}

#[tactic(auto, unfolding(crate::specs::KeyReading::u64_at))]
pub(super) fn u64_of(c: &mut Cursor<'_>) -> Result<u64, Error>
    ensures { Gives (λ x. x) result c.new (u64_at c.old) }
{
    Ok(c.u64()?)
}

#[tactic(auto, unfolding(crate::specs::KeyReading::u32_at))]
pub(super) fn u32_of(c: &mut Cursor<'_>) -> Result<u32, Error>
    ensures { Gives (λ x. x) result c.new (u32_at c.old) }
{
    Ok(c.u32()?)
}

#[tactic(auto, unfolding(crate::specs::KeyReading::u8_at))]
pub(super) fn u8_of(c: &mut Cursor<'_>) -> Result<u8, Error>
    ensures { Gives (λ x. x) result c.new (u8_at c.old) }
{
    Ok(c.u8()?)
}

/// Whether these are the bytes of a positive number with no unneeded leading byte.
fn is_mpint_bytes(bytes: &[u8]) -> bool
    ensures { result ≡ is_mpint bytes.now }
{
    match bytes {
        [] => false,
        [only] => 0 < *only && *only < 128,
        [0, second, ..] => 127 < *second,
        [first, ..] => *first < 128,
    }
}

/// Whether these are the bytes of an uncompressed point (RFC 5656, section 3.1).
fn is_point_bytes(curve: EcdsaCurve, bytes: &[u8]) -> bool
    ensures { result ≡ is_point curve bytes.now }
{
    match bytes {
        [] => false,
        [first, ..] => *first == 4 && bytes.len() == curve.point_length(),
    }
}

#[tactic(auto, unfolding(crate::specs::KeyReading::mpint_at))]
pub(super) fn mpint_of(alloc: Global, c: &mut Cursor<'_>) -> Result<Octets, Error>
    ensures { Gives (λ x. x) result c.new (mpint_at c.old) }
{
    let bytes = bytes_of(c)?;
    if !is_mpint_bytes(bytes) {
        return Err(Error::SshKey);
    }
    Ok(Octets::from_slice(alloc, bytes)?)
}

#[tactic(auto, unfolding(crate::specs::KeyReading::point_at))]
pub(super) fn point_of(
    alloc: Global,
    curve: EcdsaCurve,
    c: &mut Cursor<'_>,
) -> Result<Octets, Error>
    ensures { Gives (λ x. x) result c.new (point_at curve c.old) }
{
    let bytes = bytes_of(c)?;
    if !is_point_bytes(curve, bytes) {
        return Err(Error::SshKey);
    }
    Ok(Octets::from_slice(alloc, bytes)?)
}

#[tactic(auto, unfolding(crate::specs::KeyReading::curve_at))]
pub(super) fn curve_of<'a>(curve: EcdsaCurve, c: &mut Cursor<'a>) -> Result<&'a [u8], Error>
    ensures { Gives (λ x. x.now) result c.new (curve_at curve c.old) }
{
    let bytes = bytes_of(c)?;
    if bytes != curve.name().as_bytes() {
        return Err(Error::SshKey);
    }
    Ok(bytes)
}

#[tactic(auto, unfolding(crate::specs::KeyReading::sized_at))]
pub(super) fn sized_of(alloc: Global, length: usize, c: &mut Cursor<'_>) -> Result<Octets, Error>
    ensures { Gives (λ x. x) result c.new (sized_at length c.old) }
{
    let bytes = bytes_of(c)?;
    if bytes.len() != length {
        return Err(Error::SshKey);
    }
    Ok(Octets::from_slice(alloc, bytes)?)
}
