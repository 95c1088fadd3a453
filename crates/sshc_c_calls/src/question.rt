//! What a step of an agent asks to be signed.

ghost use Rattle.std.specs.Prelude.{◌≡◌, IfOk};
ghost use Rattle.sshc_key.specs.KeyGrammar.{key_text};
ghost use Rattle.sshc_key.specs.PairGrammar.{key_pair_text};
ghost use Rattle.sshc_c_calls.specs.Questions.{hash_number, HasNoParts, HasParts};

use sshc_agent_core::SignQuestion;
use sshc_key::{HashAlg, PrivateKey, PublicKeyBase64, write_key_pair};
use sshc_wire::{NoMemory, Octets};
use std::alloc::Global;

/// A hash (0 none, 1 SHA-256, 2 SHA-512), the bytes to sign, the public key's blob, and the key pair as ADD_IDENTITY
/// has it.
#[derive(Drop)]
pub struct Question {
    pub hash: u32,
    pub bytes: Octets,
    pub key: Octets,
    pub pair: Octets,
}

/// The number of a hash.
fn hash_number(hash: Option<HashAlg>) -> u32
    ensures { result ≡ hash_number hash }
{
    match hash {
        None => 0,
        Some(HashAlg::Sha256) => 1,
        Some(HashAlg::Sha512) => 2,
    }
}

/// The public key's blob.
fn blob_of(key: &PrivateKey) -> Result<Octets, NoMemory>
    ensures { IfOk result (λ blob. blob ≡ key_text key.now.public.0) }
{
    Octets::from_vec(key.public_key_bytes()?)
}

/// The pair as ADD_IDENTITY has it.
fn pair_of(alloc: Global, key: &PrivateKey) -> Result<Octets, NoMemory>
    ensures { IfOk result (λ pair. pair ≡ key_pair_text key.now) }
{
    let mut text = Vec::new(alloc);
    write_key_pair(&mut text, key)?;
    Octets::from_vec(text)
}

impl Question {
    /// No question.
    pub fn none(alloc: Global) -> Question
        ensures { HasNoParts result }
    {
        Question {
            hash: 0,
            bytes: Octets::new(alloc),
            key: Octets::new(alloc),
            pair: Octets::new(alloc),
        }
    }

    /// The parts of what is asked.
    pub fn of(alloc: Global, asked: &SignQuestion<'_>) -> Result<Question, NoMemory>
        ensures { IfOk result (λ question. HasParts asked.now question) }
    {
        let bytes = Octets::from_slice(alloc, asked.bytes)?;
        let key = blob_of(asked.key)?;
        let pair = pair_of(alloc, asked.key)?;
        Ok(Question {
            hash: hash_number(asked.hash),
            bytes,
            key,
            pair,
        })
    }
}
