//! Writes key pairs (draft-miller-ssh-agent, section 3.2).

ghost use Rattle.std.specs.Prelude.{◌≡◌, ◌++◌, ℕ, List, Some, Ok, OnErr, OnOk, drop, length};
ghost use Rattle.sshc_wire.specs.Wire.{string_text};
ghost use Rattle.sshc_key.specs.AlgorithmNames.{known_name};
ghost use Rattle.sshc_key.specs.PairGrammar.{Pair, PairFits, pair_at, pair_in, text_or_nothing, key_pair_text};
ghost use Rattle.sshc_key.specs.View.{view};

use crate::key_data::KeyData;
use crate::kind::Known;
use crate::pair::{PairData, PrivateKey};
use crate::writing::fields::put_dsa;
use sshc_wire::{NoMemory, Octets, put_bytes, put_text};

fn put_name(out: &mut Vec<u8>, known: Known) -> Result<(), NoMemory>
    ensures { OnOk result (out.new.items ≡ out.old.items ++ string_text (known_name known)) }
{
    put_text(out, known.name())
}

fn put_dsa_pair(out: &mut Vec<u8>, key: &KeyData, x: &Octets) -> Result<(), NoMemory>
    ensures { OnOk result
        (out.new.items ≡ out.old.items ++ text_or_nothing (pair_in (view key.now) (PairData.Dsa x.now))) }
{
    match key {
        KeyData::Dsa { p, q, g, y } => {
            put_name(out, Known::Dsa)?;
            put_dsa(out, p, q, g, y)?;
            put_bytes(out, x.as_slice())
        }
        KeyData::Certificate(certificate) => {
            let _ = certificate.is_certificate();
            Ok(())
        }
        _ => Ok(()),
    }
}

fn put_ecdsa_pair(out: &mut Vec<u8>, key: &KeyData, d: &Octets) -> Result<(), NoMemory>
    ensures { OnOk result
        (out.new.items ≡ out.old.items ++ text_or_nothing (pair_in (view key.now) (PairData.Ecdsa d.now))) }
{
    match key {
        KeyData::Ecdsa { curve, point } => {
            put_name(out, Known::Ecdsa(*curve))?;
            put_text(out, curve.name())?;
            put_bytes(out, point.as_slice())?;
            put_bytes(out, d.as_slice())
        }
        KeyData::Certificate(certificate) => {
            let _ = certificate.is_certificate();
            Ok(())
        }
        _ => Ok(()),
    }
}

fn put_ed25519_pair(out: &mut Vec<u8>, key: &KeyData, private: &Octets) -> Result<(), NoMemory>
    ensures { OnOk result
        (out.new.items ≡ out.old.items ++ text_or_nothing (pair_in (view key.now) (PairData.Ed25519 private.now))) }
{
    match key {
        KeyData::Ed25519 { public } => {
            put_name(out, Known::Ed25519)?;
            put_bytes(out, public.as_slice())?;
            put_bytes(out, private.as_slice())
        }
        KeyData::Certificate(certificate) => {
            let _ = certificate.is_certificate();
            Ok(())
        }
        _ => Ok(()),
    }
}

fn put_three(out: &mut Vec<u8>, a: &Octets, b: &Octets, c: &Octets) -> Result<(), NoMemory>
    ensures { OnOk result
        (out.new.items ≡ out.old.items ++ (string_text a.now ++ (string_text b.now ++ string_text c.now))) }
{
    put_bytes(out, a.as_slice())?;
    put_bytes(out, b.as_slice())?;
    put_bytes(out, c.as_slice())
}

fn put_rsa_pair(
    out: &mut Vec<u8>,
    key: &KeyData,
    d: &Octets,
    iqmp: &Octets,
    p: &Octets,
    q: &Octets,
) -> Result<(), NoMemory>
    ensures { OnOk result
        (out.new.items
        ≡ out.old.items ++ text_or_nothing (pair_in (view key.now) (PairData.Rsa d.now iqmp.now p.now q.now))) }
{
    match key {
        KeyData::Rsa { e, n } => {
            put_name(out, Known::Rsa)?;
            put_three(out, n, e, d)?;
            put_three(out, iqmp, p, q)
        }
        KeyData::Certificate(certificate) => {
            let _ = certificate.is_certificate();
            Ok(())
        }
        _ => Ok(()),
    }
}

fn put_pair(out: &mut Vec<u8>, key: &PrivateKey) -> Result<(), NoMemory>
    ensures { OnOk result (out.new.items ≡ out.old.items ++ key_pair_text key.now) }
{
    match &key.pair {
        PairData::Dsa { x } => put_dsa_pair(out, &key.public.key, x),
        PairData::Ecdsa { d } => put_ecdsa_pair(out, &key.public.key, d),
        PairData::Ed25519 { private } => put_ed25519_pair(out, &key.public.key, private),
        PairData::Rsa { d, iqmp, p, q } => put_rsa_pair(out, &key.public.key, d, iqmp, p, q),
    }
}

/// Writes a key pair, as the name of its algorithm and its parts. Of parts of two algorithms nothing is written.
#[tactic(auto, using(crate::specs::KeyLaws::Pairs::written_pair_is_read))]
pub fn write_key_pair(out: &mut Vec<u8>, key: &PrivateKey) -> Result<(), NoMemory>
    ensures ok { OnOk result (out.new.items ≡ out.old.items ++ key_pair_text key.now) }
    // What was written of a pair of the grammar is read again, whatever follows it.
    ensures again { OnOk result
        ((p : Pair) (rest : List ℕ) → pair_in key.now.public.0 key.now.pair ≡ Some p → PairFits p
        → pair_at (drop (length out.old.items) out.new.items ++ rest) ≡ Ok (p, rest)) }
    ensures err { OnErr result (out.new.items ≡ out.old.items) }
{
    let mut text = Vec::new(*out.allocator());
    put_pair(&mut text, key)?;
    out.extend_from_slice(&text)?;
    Ok(())
}
