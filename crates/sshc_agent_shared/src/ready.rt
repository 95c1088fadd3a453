//! Signers for a step that is made under the lock, after whoever signs was asked outside it.

ghost use Rattle.std.specs.Prelude.{◌≡◌, ◌≤◌, ◌↔◌, [], Err, IfOk, IsTrue, None, Some, length};
ghost use Rattle.sshc_key.specs.Signers.{IsSignature};
ghost use Rattle.sshc_agent_shared.specs.Ready.{ready_calls, ready_refusals};

use crate::question::{KeptQuestion, SignedQuestion};
use sshc_key::{Asker, HashAlg, LocalSigner, PrivateKey, SignRefused};
use std::alloc::Global;

/// Has no answer to anything.
#[derive(Drop)]
pub(crate) struct NoSigner;

impl LocalSigner for NoSigner {
    ghost calls = { λ _. [] };

    ghost refusals = { λ _. 0 };

    fn sign(
        &mut self,
        _by: Asker,
        _key: &PrivateKey,
        _hash: Option<HashAlg>,
        _bytes: &[u8],
    ) -> Result<Vec<u8>, SignRefused> {
        Err(SignRefused::NoMemory)
    }
}

/// Has one answer ready, which it returns once, to the question of which it is the answer. It has no answer to another.
#[derive(Drop)]
pub(crate) struct ReadySigner {
    pub(crate) alloc: Global,
    pub(crate) signed: SignedQuestion,
    pub(crate) is_used: bool,
}

/// Whether both are one pair.
fn is_same_pair(one: &PrivateKey, other: &PrivateKey) -> bool
    ensures { IsTrue result ↔ (one.now ≡ other.now) }
{
    one == other
}

impl KeptQuestion {
    /// Whether this is the question.
    fn is_same(&self, by: Asker, key: &PrivateKey, hash: Option<HashAlg>, bytes: &[u8]) -> bool
        ensures { IsTrue result
            ↔ (self.now ≡ record { by = by; key = key.now; hash = hash; bytes = bytes.now }) }
    {
        self.by == by
            && is_same_pair(&self.key, key)
            && self.hash == hash
            && self.bytes.as_slice() == bytes
    }
}

impl SignedQuestion {
    /// The answer, as a signer returns it.
    fn returned(&self, alloc: Global) -> Result<Vec<u8>, SignRefused>
        ensures signed { IfOk result (λ v. self.now.answer ≡ Some v.items) }
        ensures whole { IfOk result (λ v. IsSignature v.items) }
        ensures short { IfOk result (λ v. length v.items ≤ 65536) }
        ensures refused { result ≡ Err SignRefused.Refused → self.now.answer ≡ None }
    {
        let Some(signature) = &self.answer else {
            return Err(SignRefused::Refused);
        };
        match Vec::from_slice(alloc, signature.as_slice()) {
            Ok(copy) => Ok(copy),
            Err(_) => Err(SignRefused::NoMemory),
        }
    }
}

impl LocalSigner for ReadySigner {
    ghost calls = { λ s. ready_calls s.signed s.is_used };

    ghost refusals = { λ s. ready_refusals s.signed s.is_used };

    fn sign(
        &mut self,
        by: Asker,
        key: &PrivateKey,
        hash: Option<HashAlg>,
        bytes: &[u8],
    ) -> Result<Vec<u8>, SignRefused> {
        if self.is_used || !self.signed.question.is_same(by, key, hash, bytes) {
            return Err(SignRefused::NoMemory);
        }
        let answer = self.signed.returned(self.alloc);
        match answer {
            Ok(signature) => {
                self.is_used = true;
                Ok(signature)
            }
            Err(SignRefused::Refused) => {
                self.is_used = true;
                Err(SignRefused::Refused)
            }
            Err(SignRefused::NoMemory) => Err(SignRefused::NoMemory),
        }
    }
}
