//! Keys as base64 in lines.

ghost use Rattle.std.specs.Prelude.{◌≡◌, ◌↔◌, ◌≤◌, ◌++◌, ℕ, List, Some, Ok, filter, IfOk, OnOk, string_bytes};
ghost use Rattle.sshc_key.specs.Algorithms.{algorithm_of, key_base64, commented_text, openssh_text};
ghost use Rattle.sshc_key.specs.KeyGrammar.{Key, key_text, Fits};
ghost use Rattle.sshc_key.specs.KeyLines.{IsLineKey, IsLoadedFrom, IsReadAgain};
ghost use Rattle.sshc_key.specs.KeyText.{IsKeyText, is_no_line_end, decoded_key};
ghost use Rattle.sshc_key.specs.Nesting.{Parses, IsReadable, markers, blob_key, key_or_fault};

use crate::algorithm::Algorithm;
use crate::error::Error;
use crate::key_data::KeyData;
use crate::pair::PrivateKey;
use crate::parsing::parse_public_key;
use crate::public_key::PublicKey;
use crate::writing::key_bytes;
use base64::DecodeAllocError;
use base64::engine::general_purpose::STANDARD;
use sshc_wire::NoMemory;
use std::alloc::Global;

/// The text without carriage returns and line feeds.
pub fn without_line_ends(alloc: Global, text: &[u8]) -> Result<Vec<u8>, NoMemory>
    ensures { IfOk result (λ v. v.items ≡ filter is_no_line_end text.now) }
{
    Ok(
        text.iter()
            .copied()
            .filter(|b| *b != b'\r' && *b != b'\n')
            .collect(alloc)?,
    )
}

/// The key of which this is the padded base64, with no comment. Line ends are dropped, and bytes may follow the key.
#[tactic(auto, unfolding(crate::specs::KeyText::decoded_key))]
pub fn parse_public_key_base64(alloc: Global, key: &str) -> Result<PublicKey, Error>
    ensures key { Parses result (decoded_key key.now) }
    // That is the key of the grammar at the front of the blob, and each such key is read.
    ensures grammar { IfOk result (λ k. IsKeyText key.now k.0) }
    ensures whole { (k : Key) → IsKeyText key.now k → decoded_key key.now ≡ Ok k }
{
    let text = without_line_ends(alloc, key.as_bytes())?;
    match STANDARD.decode(alloc, &text) {
        Ok(blob) => parse_public_key(alloc, &blob),
        Err(DecodeAllocError::OutOfMemory) => Err(Error::NoMemory),
        Err(DecodeAllocError::DecodeError(_)) => Err(Error::Decode),
    }
}

/// A public key as bytes and as text.
pub trait PublicKeyBase64 {
    ghost use Rattle.sshc_key.specs.KeyGrammar.{Key};

    ghost key: { Self → Key };

    /// The key's blob.
    fn public_key_bytes(&self) -> Result<Vec<u8>, NoMemory>
        ensures text { IfOk result (λ v. v.items ≡ key_text (key self.now)) }
        // What was written is read again, whatever follows it.
        ensures again { IfOk result (λ v. (rest : List ℕ) → Fits (key self.now) → markers (v.items ++ rest) ≤ 8
            → blob_key (v.items ++ rest) ≡ Some (key self.now)) };

    /// The blob in padded base64.
    fn public_key_base64(&self) -> Result<String, NoMemory>
        ensures text { IfOk result (λ t. string_bytes t ≡ key_base64 (key self.now)) }
        // What was written is read again.
        ensures again { IfOk result (λ t. Fits (key self.now) → markers (key_text (key self.now)) ≤ 8
            → decoded_key (string_bytes t) ≡ Ok (key self.now)) };
}

impl PublicKeyBase64 for PublicKey {
    ghost key = { λ k. k.0 };

    #[tactic(auto, using(crate::specs::KeyLaws::Blobs::written_is_read))]
    fn public_key_bytes(&self) -> Result<Vec<u8>, NoMemory> {
        key_bytes(self.comment.allocator(), &self.key)
    }

    #[tactic(auto, using(crate::specs::KeyLaws::Base64::base64_is_read))]
    fn public_key_base64(&self) -> Result<String, NoMemory> {
        let blob = self.public_key_bytes()?;
        Ok(STANDARD.encode(self.comment.allocator(), &blob)?)
    }
}

impl PublicKeyBase64 for PrivateKey {
    ghost key = { λ k. k.public.0 };

    fn public_key_bytes(&self) -> Result<Vec<u8>, NoMemory> {
        self.public.public_key_bytes()
    }

    fn public_key_base64(&self) -> Result<String, NoMemory> {
        self.public.public_key_base64()
    }
}

impl PublicKey {
    /// The key's algorithm. An RSA key's has no hash, and a certificate's is the name that its blob begins with.
    pub fn algorithm(&self) -> Result<Algorithm, NoMemory>
        ensures { IfOk result (λ a. a ≡ algorithm_of self.now.0) }
    {
        match &self.key {
            KeyData::Dsa { .. } => Ok(Algorithm::Dsa),
            KeyData::Ecdsa { curve, .. } => Ok(Algorithm::Ecdsa { curve: *curve }),
            KeyData::Ed25519 { .. } => Ok(Algorithm::Ed25519),
            KeyData::Rsa { .. } => Ok(Algorithm::Rsa { hash: None }),
            KeyData::SkEcdsaSha2NistP256 { .. } => Ok(Algorithm::SkEcdsaSha2NistP256),
            KeyData::SkEd25519 { .. } => Ok(Algorithm::SkEd25519),
            KeyData::Other { name, .. } => Ok(Algorithm::Other(name.copy()?)),
            KeyData::Certificate(certificate) => {
                let _ = certificate.is_certificate();
                let name = self.key.name();
                Ok(Algorithm::Other(name.to_text(self.comment.allocator())?))
            }
        }
    }

    /// The key as a line of a key file.
    pub fn to_openssh(&self) -> Result<String, NoMemory>
        ensures text { IfOk result (λ t. string_bytes t ≡ openssh_text self.now.0 self.now.1) }
        // The key is read again from the line's base64.
        ensures base64 { IfOk result (λ _. IsReadAgain self.now.0) }
        // Whoever loads a file that holds just the line reads the key again, with its comment.
        ensures again { IfOk result (λ t. IsLineKey self.now → IsLoadedFrom self.now (string_bytes t)) }
    {
        let name = self.key.name().to_text(self.comment.allocator())?;
        let base64 = self.public_key_base64()?;
        let mut line = String::new(self.comment.allocator());
        line.push_str(name.as_str())?;
        line.push(' ')?;
        line.push_str(&base64)?;
        push_comment(&mut line, self.comment.as_str())?;
        Ok(line)
    }
}

fn push_comment(line: &mut String, comment: &str) -> Result<(), NoMemory>
    ensures { OnOk result (string_bytes line.new ≡ string_bytes line.old ++ commented_text comment.now) }
{
    if !comment.is_empty() {
        line.push(' ')?;
        line.push_str(comment)?;
    }
    Ok(())
}

/// Reads a public key from a blob.
pub trait PublicKeyExt {
    fn decode(alloc: Global, bytes: &[u8]) -> Result<PublicKey, Error>;
}

impl PublicKeyExt for PublicKey {
    /// The key at the front of the bytes, as `parse_public_key` returns it.
    fn decode(alloc: Global, bytes: &[u8]) -> Result<PublicKey, Error>
        ensures key { Parses result (key_or_fault (blob_key bytes.now)) }
        ensures grammar { (k : Key) → (blob_key bytes.now ≡ Some k) ↔ IsReadable bytes.now k }
    {
        parse_public_key(alloc, bytes)
    }
}
