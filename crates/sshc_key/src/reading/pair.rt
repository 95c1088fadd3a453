//! Reads key pairs (draft-miller-ssh-agent, section 3.2).

ghost use Rattle.std.specs.Prelude.{◌≡◌, ◌↔◌, ◌++◌, ℕ, List, [], length, Ok, OnErr};
ghost use Rattle.sshc_wire.specs.Format.{made_at};
ghost use Rattle.sshc_key.specs.Gives.{Gives};
ghost use Rattle.sshc_key.specs.View.{view};
ghost use Rattle.sshc_key.specs.PairGrammar.{Pair, PairFits, pair_text, key_pair, ends_public, dsa_pair_at};
ghost use Rattle.sshc_key.specs.PairGrammar.{ecdsa_pair_at, ed25519_pair_at, rsa_pair_at, with_pair, pair_named};
ghost use Rattle.sshc_key.specs.PairGrammar.{pair_name_at, pair_fields_at, pair_at};

use crate::algorithm::EcdsaCurve;
use crate::error::Error;
use crate::key_data::KeyData;
use crate::kind::Known;
use crate::pair::{PairData, PrivateKey};
use crate::public_key::PublicKey;
use crate::reading::parts::{bytes_of, curve_of, mpint_of, point_of, sized_of};
use sshc_wire::{Cursor, Text};
use std::alloc::Global;

/// A pair without comment.
fn paired(alloc: Global, key: KeyData, pair: PairData) -> PrivateKey
    ensures { result ≡ record { public = (view key, []); pair = pair } }
{
    PrivateKey {
        public: PublicKey {
            key,
            comment: Text::new(alloc),
        },
        pair,
    }
}

#[tactic(auto, unfolding(crate::specs::PairGrammar::dsa_pair_at))]
fn dsa_pair_of(alloc: Global, c: &mut Cursor<'_>) -> Result<PrivateKey, Error>
    ensures { Gives (λ k. k) result c.new (made_at key_pair dsa_pair_at c.old) }
{
    let p = mpint_of(alloc, c)?;
    let q = mpint_of(alloc, c)?;
    let g = mpint_of(alloc, c)?;
    let y = mpint_of(alloc, c)?;
    let x = mpint_of(alloc, c)?;
    Ok(paired(alloc, KeyData::Dsa { p, q, g, y }, PairData::Dsa { x }))
}

#[tactic(auto, unfolding(crate::specs::PairGrammar::ecdsa_pair_at))]
fn ecdsa_pair_of(alloc: Global, curve: EcdsaCurve, c: &mut Cursor<'_>) -> Result<PrivateKey, Error>
    ensures { Gives (λ k. k) result c.new (made_at key_pair (ecdsa_pair_at curve) c.old) }
{
    curve_of(curve, c)?;
    let point = point_of(alloc, curve, c)?;
    let d = mpint_of(alloc, c)?;
    Ok(paired(
        alloc,
        KeyData::Ecdsa { curve, point },
        PairData::Ecdsa { d },
    ))
}

fn ends_so(public: &[u8], private: &[u8]) -> bool
    requires { length private.now ≡ 64 }
    ensures { result ≡ ends_public public.now private.now }
{
    let (_, last) = private.split_at(32);
    last == public
}

#[tactic(auto, unfolding(crate::specs::PairGrammar::ed25519_pair_at, crate::specs::KeyReading::sized_at))]
fn ed25519_pair_of(alloc: Global, c: &mut Cursor<'_>) -> Result<PrivateKey, Error>
    ensures { Gives (λ k. k) result c.new (made_at key_pair ed25519_pair_at c.old) }
{
    let public = sized_of(alloc, 32, c)?;
    let private = sized_of(alloc, 64, c)?;
    if !ends_so(public.as_slice(), private.as_slice()) {
        return Err(Error::SshKey);
    }
    Ok(paired(
        alloc,
        KeyData::Ed25519 { public },
        PairData::Ed25519 { private },
    ))
}

#[tactic(auto, unfolding(crate::specs::PairGrammar::rsa_pair_at))]
fn rsa_pair_of(alloc: Global, c: &mut Cursor<'_>) -> Result<PrivateKey, Error>
    ensures { Gives (λ k. k) result c.new (made_at key_pair rsa_pair_at c.old) }
{
    let n = mpint_of(alloc, c)?;
    let e = mpint_of(alloc, c)?;
    let d = mpint_of(alloc, c)?;
    let iqmp = mpint_of(alloc, c)?;
    let p = mpint_of(alloc, c)?;
    let q = mpint_of(alloc, c)?;
    Ok(paired(
        alloc,
        KeyData::Rsa { e, n },
        PairData::Rsa { d, iqmp, p, q },
    ))
}

/// The kind of pair that has this name; `None` for security keys, which have no pair.
#[tactic(auto, unfolding(crate::specs::PairGrammar::pair_named))]
fn pair_kind(name: &[u8]) -> Option<Known>
    ensures { result ≡ pair_named name.now }
{
    match Known::named(name) {
        None | Some(Known::SkEcdsaSha2NistP256) | Some(Known::SkEd25519) => None,
        Some(known) => Some(known),
    }
}

#[tactic(auto, unfolding(crate::specs::PairGrammar::pair_name_at))]
fn pair_name_of(c: &mut Cursor<'_>) -> Result<Known, Error>
    ensures { Gives (λ k. k) result c.new (pair_name_at c.old) }
{
    let name = bytes_of(c)?;
    pair_kind(name).ok_or(Error::SshKey)
}

fn pair_fields_of(alloc: Global, known: Known, c: &mut Cursor<'_>) -> Result<PrivateKey, Error>
    ensures { Gives (λ k. k) result c.new (made_at key_pair (pair_fields_at known) c.old) }
{
    match known {
        Known::Dsa => dsa_pair_of(alloc, c),
        Known::Ecdsa(curve) => ecdsa_pair_of(alloc, curve, c),
        Known::Ed25519 => ed25519_pair_of(alloc, c),
        Known::Rsa => rsa_pair_of(alloc, c),
        Known::SkEcdsaSha2NistP256 | Known::SkEd25519 => Err(Error::SshKey),
    }
}

#[tactic(auto, unfolding(crate::specs::PairGrammar::pair_at))]
fn pair_of(alloc: Global, c: &mut Cursor<'_>) -> Result<PrivateKey, Error>
    ensures { Gives (λ k. k) result c.new (made_at key_pair pair_at c.old) }
{
    let known = pair_name_of(c)?;
    pair_fields_of(alloc, known, c)
}

/// Reads a key pair, as the name of its algorithm and its parts. A refused cursor is unmoved.
pub fn read_key_pair(alloc: Global, c: &mut Cursor<'_>) -> Result<PrivateKey, Error>
    ensures reads { Gives (λ k. k) result c.new (made_at key_pair pair_at c.old) }
    ensures unmoved { OnErr result (c.new ≡ c.old) }
    // What is read is a pair of the grammar with its text at the front, and there is no other.
    ensures grammar { (p : Pair) (rest : List ℕ) → (pair_at c.old ≡ Ok (p, rest))
        ↔ (PairFits p × (c.old ≡ pair_text p ++ rest)) }
{
    let mut after = Cursor::new(c.rest());
    match pair_of(alloc, &mut after) {
        Ok(key) => {
            *c = after;
            Ok(key)
        }
        Err(error) => Err(error),
    }
}
