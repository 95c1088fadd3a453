//! The calls of a signer, recorded with their answers.

ghost use Rattle.std.specs.Prelude.{◌≡◌, ◌≤◌, ◌++◌, ◌∷◌, [], None, Some, OnOk, OnErr};
ghost use Rattle.sshc_wire.specs.Faults.{Rose};

use sshc_key::{Asker, HashAlg, PrivateKey};
use sshc_wire::{NoMemory, Octets};
use std::alloc::Global;
use std::marker::Model;

/// A call of a signer, with its answer; `None` if it was refused.
#[derive(Drop)]
struct Kept {
    by: Asker,
    key: PrivateKey,
    hash: Option<HashAlg>,
    bytes: Octets,
    answer: Option<Octets>,
}

/// The calls in order, and how often one was refused.
#[derive(Drop)]
pub(crate) struct Calls {
    alloc: Global,
    calls: Vec<Kept>,
    refusals: u64,
}

impl Model for Calls {
    ghost use Rattle.std.specs.Coded.{codes};
    ghost use Rattle.std.specs.Prelude.{map};
    ghost use Rattle.sshc_key.specs.PairCode.{key_pair_code};
    ghost use Rattle.sshc_toy.specs.Keeping.{KeptCalls};

    ghost Value = { KeptCalls };

    ghost coded = { Prim.hlevel (codes, key_pair_code) };

    ghost view = { λ s. record {
      calls = map (λ c. record { by = c.by; key = c.key; hash = c.hash; bytes = c.bytes; answer = c.answer })
          s.calls.items;
      refusals = s.refusals;
    } };
}

impl Calls {
    /// No calls yet.
    pub(crate) fn new(alloc: Global) -> Calls
        ensures { result ≡ record { calls = []; refusals = 0 } }
    {
        Calls {
            alloc,
            calls: Vec::new(alloc),
            refusals: 0,
        }
    }

    pub(crate) fn allocator(&self) -> Global {
        self.alloc
    }

    /// Records a call that was answered.
    pub(crate) fn keep_answer(
        &mut self,
        by: Asker,
        key: &PrivateKey,
        hash: Option<HashAlg>,
        bytes: &[u8],
        answer: &[u8],
    ) -> Result<(), NoMemory>
        ensures ok { OnOk result
            (self.new.calls
            ≡ self.old.calls
            ++ (record { by = by; key = key.now; hash = hash; bytes = bytes.now; answer = Some answer.now }) ∷ []) }
        ensures err { OnErr result (self.new.calls ≡ self.old.calls) }
        ensures same { self.new.refusals ≡ self.old.refusals }
    {
        let call = Kept {
            by,
            key: key.copy()?,
            hash,
            bytes: Octets::from_slice(self.alloc, bytes)?,
            answer: Some(Octets::from_slice(self.alloc, answer)?),
        };
        self.calls.push(call)?;
        Ok(())
    }

    /// Records a call that was refused, and counts it.
    pub(crate) fn keep_refusal(
        &mut self,
        by: Asker,
        key: &PrivateKey,
        hash: Option<HashAlg>,
        bytes: &[u8],
    ) -> Result<(), NoMemory>
        ensures ok { OnOk result
            (self.new.calls
            ≡ self.old.calls ++ (record { by = by; key = key.now; hash = hash; bytes = bytes.now; answer = None })
            ∷ []) }
        ensures counted { OnOk result (Rose self.old.refusals self.new.refusals) }
        ensures later { self.old.refusals ≤ self.new.refusals }
        ensures err { OnErr result (self.new ≡ self.old) }
    {
        let call = Kept {
            by,
            key: key.copy()?,
            hash,
            bytes: Octets::from_slice(self.alloc, bytes)?,
            answer: None,
        };
        self.calls.push(call)?;
        self.refusals = self.refusals.saturating_add(1);
        Ok(())
    }
}
