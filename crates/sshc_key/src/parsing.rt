//! Keys of outside bytes.

ghost use Rattle.std.specs.Prelude.{◌≡◌, ◌↔◌, ◌⊎◌, [], Some, IfErr};
ghost use Rattle.sshc_key.specs.Gives.{Gives};
ghost use Rattle.sshc_key.specs.KeyGrammar.{Key};
ghost use Rattle.sshc_key.specs.Nesting.{IsReadable, IsBlobOf, outside, front_at, blob_key, whole_blob_key};
ghost use Rattle.sshc_key.specs.Nesting.{key_or_fault, Parses};
ghost use Rattle.sshc_key.specs.View.{view};

use crate::error::Error;
use crate::key_data::KeyData;
use crate::nesting::check_cert_nesting;
use crate::public_key::PublicKey;
use crate::reading::key_of;
use sshc_wire::{Cursor, Text};
use std::alloc::Global;

/// One more than how many certificates may be nested.
const LEVELS: u8 = 9;

fn as_outside(error: Error) -> Error
    ensures { result ≡ outside error }
{
    match error {
        Error::NoMemory => Error::NoMemory,
        _ => Error::SshKey,
    }
}

/// Reads the key at the front.
#[tactic(auto, unfolding(crate::specs::Nesting::front_at), using(crate::specs::KeyLaws::Blobs::fails_outside))]
fn front_key(alloc: Global, c: &mut Cursor<'_>) -> Result<KeyData, Error>
    ensures front { Gives view result c.new (front_at c.old) }
    ensures faults { IfErr result (λ e. (e ≡ Error.SshKey) ⊎ (e ≡ Error.NoMemory)) }
{
    check_cert_nesting(c.rest())?;
    match key_of(alloc, LEVELS, c) {
        Ok(key) => Ok(key),
        Err(error) => Err(as_outside(error)),
    }
}

/// The key with no comment.
fn bare(alloc: Global, key: KeyData) -> PublicKey
    ensures { result ≡ (view key, []) }
{
    PublicKey {
        key,
        comment: Text::new(alloc),
    }
}

/// The key at the front of the blob, with no comment. Bytes may follow it.
#[tactic(auto, unfolding(crate::specs::Nesting::blob_key), using(crate::specs::KeyLaws::Blobs::fails_key))]
pub fn parse_public_key(alloc: Global, blob: &[u8]) -> Result<PublicKey, Error>
    ensures key { Parses result (key_or_fault (blob_key blob.now)) }
    // That is the key of the grammar at this place, and there is no other.
    ensures grammar { (k : Key) → (blob_key blob.now ≡ Some k) ↔ IsReadable blob.now k }
    ensures faults { IfErr result (λ e. (e ≡ Error.SshKey) ⊎ (e ≡ Error.NoMemory)) }
{
    match front_key(alloc, &mut Cursor::new(blob)) {
        Ok(key) => Ok(bare(alloc, key)),
        Err(error) => Err(error),
    }
}

/// The key that is the whole blob, with no comment.
#[tactic(auto, unfolding(crate::specs::Nesting::whole_blob_key), using(crate::proofs::Hints::parse_whole_public_key))]
pub fn parse_whole_public_key(alloc: Global, blob: &[u8]) -> Result<PublicKey, Error>
    ensures key { Parses result (key_or_fault (whole_blob_key blob.now)) }
    ensures grammar { (k : Key) → (whole_blob_key blob.now ≡ Some k) ↔ IsBlobOf k blob.now }
    ensures faults { IfErr result (λ e. (e ≡ Error.SshKey) ⊎ (e ≡ Error.NoMemory)) }
{
    let mut c = Cursor::new(blob);
    match front_key(alloc, &mut c) {
        Ok(key) => {
            if c.rest().is_empty() {
                Ok(bare(alloc, key))
            } else {
                drop(key);
                Err(Error::SshKey)
            }
        }
        Err(error) => Err(error),
    }
}
