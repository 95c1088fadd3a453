//! The signer of the toy pair.

ghost use Rattle.std.specs.Prelude.{◌≡◌, ◌≤◌, [], true, false, IfOk, None, Err, length};
ghost use Rattle.sshc_key.specs.KeyGrammar.{signature_text};
ghost use Rattle.sshc_wire.specs.Faults.{Rose};
ghost use Rattle.sshc_key.specs.Signers.{IsSignature, KeepsCall};
ghost use Rattle.sshc_toy.specs.ToyPair.{toy_name, can_sign, toy_signature, IsToyAnswer};

use crate::keeping::Calls;
use sshc_hosts::hmac_sha1;
use sshc_key::{Asker, HashAlg, LocalSigner, PrivateKey, PublicKeyBase64, SignRefused};
use sshc_wire::{NoMemory, Text, put_bytes, put_text};
use std::alloc::Global;
use std::marker::Model;

/// Signs by an HMAC under the key's blob, which anyone who knows the public key can make, and records its calls: for
/// runs without a server. It refuses security keys, for which there are no pairs, and signature names of more than 64
/// bytes.
#[derive(Drop)]
pub struct ToySigner {
    calls: Calls,
}

impl Model for ToySigner {
    ghost use Rattle.std.specs.Coded.{codes};
    ghost use Rattle.sshc_key.specs.PairCode.{key_pair_code};
    ghost use Rattle.sshc_toy.specs.Keeping.{KeptCalls};

    ghost Value = { KeptCalls };

    ghost coded = { Prim.hlevel (codes, key_pair_code) };

    ghost view = { λ s. s.calls };
}

/// The longest name of a signature, in bytes.
const LONGEST_NAME: usize = 64;

/// Whether the toy signer makes signatures with this name.
fn can_sign(name: &str) -> bool
    ensures { result ≡ can_sign name.now }
{
    !name.starts_with("sk-") && name.len() <= LONGEST_NAME
}

/// The encoding of a signature with this name and body.
fn signature_text(alloc: Global, name: &Text, body: &[u8; 20]) -> Result<Vec<u8>, NoMemory>
    ensures { IfOk result (λ v. v.items ≡ signature_text (record { name = name.now; body = body.now; sk = None })) }
{
    let mut out = Vec::with_capacity(alloc, name.as_str().len().saturating_add(28))?;
    put_text(&mut out, name.as_str())?;
    put_bytes(&mut out, body)?;
    Ok(out)
}

/// A signature with this name and body.
fn signature_of(alloc: Global, name: &Text, body: &[u8; 20]) -> Result<Vec<u8>, NoMemory>
    requires name { can_sign name.now ≡ true }
    ensures text { IfOk result
        (λ v. v.items ≡ signature_text (record { name = name.now; body = body.now; sk = None })) }
    ensures whole { IfOk result (λ v. IsSignature v.items) }
    ensures short { IfOk result (λ v. length v.items ≤ 65536) }
{
    let _utf8 = name.as_str();
    let out = signature_text(alloc, name, body)?;
    Ok(out)
}

/// The signature of the key over the bytes, if its name is one that can sign.
fn toy_answer(
    alloc: Global,
    key: &PrivateKey,
    hash: Option<HashAlg>,
    bytes: &[u8],
) -> Result<Option<Vec<u8>>, NoMemory>
    ensures { IfOk result (λ answer. IsToyAnswer key.now.public.0 hash bytes.now answer) }
{
    let name = key.public.key.request_algorithm(alloc, hash)?;
    if !can_sign(name.as_str()) {
        return Ok(None);
    }
    let blob = key.public_key_bytes()?;
    let body = hmac_sha1(&blob, bytes);
    Ok(Some(signature_of(alloc, &name, &body)?))
}

impl ToySigner {
    /// A signer that has had no calls yet.
    pub fn new(alloc: Global) -> ToySigner
        ensures { result ≡ record { calls = []; refusals = 0 } }
    {
        ToySigner {
            calls: Calls::new(alloc),
        }
    }
}

impl LocalSigner for ToySigner {
    ghost calls = { λ s. s.calls };

    ghost refusals = { λ s. s.refusals };

    /// Returns the key's signature name with the hash as a string, and the HMAC as a string.
    fn sign(
        &mut self,
        by: Asker,
        key: &PrivateKey,
        hash: Option<HashAlg>,
        bytes: &[u8],
    ) -> Result<Vec<u8>, SignRefused>
        ensures call { KeepsCall self.old.calls self.new.calls by key.now hash bytes.now result }
        ensures whole { IfOk result (λ v. IsSignature v.items) }
        ensures short { IfOk result (λ v. length v.items ≤ 65536) }
        ensures cause { result ≡ Err SignRefused.Refused → Rose self.old.refusals self.new.refusals }
        ensures later { self.old.refusals ≤ self.new.refusals }
        ensures answer { IfOk result (λ v. v.items ≡ signature_text (toy_signature key.now.public.0 hash bytes.now)) }
        ensures refused { result ≡ Err SignRefused.Refused → can_sign (toy_name key.now.public.0 hash) ≡ false }
    {
        match toy_answer(self.calls.allocator(), key, hash, bytes) {
            Ok(Some(answer)) => match self.calls.keep_answer(by, key, hash, bytes, &answer) {
                Ok(()) => Ok(answer),
                Err(NoMemory) => Err(SignRefused::NoMemory),
            },
            Ok(None) => match self.calls.keep_refusal(by, key, hash, bytes) {
                Ok(()) => Err(SignRefused::Refused),
                Err(NoMemory) => Err(SignRefused::NoMemory),
            },
            Err(NoMemory) => Err(SignRefused::NoMemory),
        }
    }
}
