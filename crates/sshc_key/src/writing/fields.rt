//! Writes the fields of plain keys (RFC 4253, section 6.6; RFC 5656, section 3.1; RFC 8709, section 4; PROTOCOL.u2f).

ghost use Rattle.std.specs.Prelude.{◌≡◌, ◌++◌, OnOk};
ghost use Rattle.sshc_key.specs.KeyGrammar.{dsa, plain_text, fields_text};
ghost use Rattle.sshc_key.specs.View.{view};

use crate::algorithm::EcdsaCurve;
use crate::key_data::KeyData;
use sshc_wire::{NoMemory, Octets, put_bytes, put_text};

pub(super) fn put_dsa(
    out: &mut Vec<u8>,
    p: &Octets,
    q: &Octets,
    g: &Octets,
    y: &Octets,
) -> Result<(), NoMemory>
    ensures { OnOk result (out.new.items ≡ out.old.items ++ plain_text (dsa p.now q.now g.now y.now)) }
{
    put_bytes(out, p.as_slice())?;
    put_bytes(out, q.as_slice())?;
    put_bytes(out, g.as_slice())?;
    put_bytes(out, y.as_slice())
}

pub(super) fn put_fields(out: &mut Vec<u8>, key: &KeyData) -> Result<(), NoMemory>
    ensures { OnOk result (out.new.items ≡ out.old.items ++ fields_text (view key.now)) }
{
    match key {
        KeyData::Dsa { p, q, g, y } => put_dsa(out, p, q, g, y),
        KeyData::Ecdsa { curve, point } => {
            put_text(out, curve.name())?;
            put_bytes(out, point.as_slice())
        }
        KeyData::Ed25519 { public } => put_bytes(out, public.as_slice()),
        KeyData::Rsa { e, n } => {
            put_bytes(out, e.as_slice())?;
            put_bytes(out, n.as_slice())
        }
        KeyData::SkEcdsaSha2NistP256 { point, application } => {
            put_text(out, EcdsaCurve::NistP256.name())?;
            put_bytes(out, point.as_slice())?;
            put_text(out, application.as_str())
        }
        KeyData::SkEd25519 {
            public,
            application,
        } => {
            put_bytes(out, public.as_slice())?;
            put_text(out, application.as_str())
        }
        KeyData::Other { body, .. } => put_bytes(out, body.as_slice()),
        // It is outside the grammar, and has no fields of its own there.
        KeyData::Certificate(certificate) => {
            let _ = certificate.is_certificate();
            Ok(())
        }
    }
}
