//! What a call asks to be signed, and its answer, with a key and bytes of their own: so they outlast the lock under which
//! they were asked.

ghost use Rattle.std.specs.Prelude.{◌≡◌, ◌≤◌, ◌++◌, IfOk, IfSome, Some};
ghost use Rattle.sshc_key.specs.Asking.{call_of};
ghost use Rattle.sshc_agent_core.specs.Asked.{request_by};
ghost use Rattle.sshc_agent_shared.specs.Apart.{IsRefusal, signed_calls};
ghost use Rattle.sshc_wire.specs.Faults.{Rose};

use sshc_agent_core::SignQuestion;
use sshc_key::{Asker, LocalSigner, PrivateKey, SignRefused};
use sshc_wire::{HashAlg, NoMemory, Octets};
use std::alloc::Global;
use std::marker::Model;

/// What a call asks to be signed, which contracts see as a `SignRequest`.
#[derive(Drop)]
pub struct KeptQuestion {
    pub(crate) by: Asker,
    pub(crate) key: PrivateKey,
    pub(crate) hash: Option<HashAlg>,
    pub(crate) bytes: Octets,
}

impl Model for KeptQuestion {
    ghost use Rattle.std.specs.Coded.{codes};
    ghost use Rattle.sshc_key.specs.Asking.{SignRequest};
    ghost use Rattle.sshc_key.specs.PairCode.{key_pair_code};

    ghost Value = { SignRequest };

    ghost coded = { Prim.hlevel (codes, key_pair_code) };

    ghost view = { λ q. record { by = q.by; key = q.key; hash = q.hash; bytes = q.bytes } };
}

/// A question with the signer's answer: a signature, or that it refused. Contracts see it as a `SignCall`.
#[derive(Drop)]
pub struct SignedQuestion {
    pub(crate) question: KeptQuestion,
    pub(crate) answer: Option<Vec<u8>>,
}

impl Model for SignedQuestion {
    ghost use Rattle.std.specs.Coded.{codes};
    ghost use Rattle.sshc_key.specs.PairCode.{key_pair_code};
    ghost use Rattle.sshc_key.specs.Signers.{SignCall};
    ghost use Rattle.sshc_agent_shared.specs.Ready.{IsWhole, answered};

    ghost Value = { SignCall };

    ghost coded = { Prim.hlevel (codes, key_pair_code) };

    ghost view = { λ s. answered s.question s.answer };

    ghost invariant = { λ s. IsWhole s.answer };
}

impl KeptQuestion {
    /// The question of a connection, with copies of its key and its bytes.
    pub(crate) fn of(
        alloc: Global,
        conn: u32,
        asked: &SignQuestion<'_>,
    ) -> Result<KeptQuestion, NoMemory>
        ensures { IfOk result (λ q. request_by conn (Some asked.now) ≡ Some q) }
    {
        Ok(KeptQuestion {
            by: Asker::Agent(conn),
            key: asked.key.copy()?,
            hash: asked.hash,
            bytes: Octets::from_slice(alloc, asked.bytes)?,
        })
    }

    /// Asks the signer. `None` if it ran out of memory.
    pub fn ask<G: LocalSigner>(self, signer: &mut G) -> Option<SignedQuestion>
        ensures calls { G.calls signer.new ≡ G.calls signer.old ++ signed_calls result }
        ensures question { IfSome result (λ s. s ≡ call_of self s.answer) }
        ensures cause { IsRefusal result → Rose (G.refusals signer.old) (G.refusals signer.new) }
        ensures later { G.refusals signer.old ≤ G.refusals signer.new }
    {
        let answer = signer.sign(self.by, &self.key, self.hash, self.bytes.as_slice());
        match answer {
            Ok(signature) => Some(SignedQuestion {
                question: self,
                answer: Some(signature),
            }),
            Err(SignRefused::Refused) => Some(SignedQuestion {
                question: self,
                answer: None,
            }),
            Err(SignRefused::NoMemory) => None,
        }
    }
}
