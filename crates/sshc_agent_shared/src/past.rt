//! A generation that was closed.

ghost use Rattle.std.specs.Prelude.{◌≡◌, IfOk, length};
ghost use Rattle.sshc_agent_shared.specs.Kept.{IsHistoryFrom};

use crate::kept::KeptEntry;
use sshc_agent_core::{AgentCore, Entry};
use sshc_wire::NoMemory;
use std::alloc::Global;
use std::marker::Model;
use std::snapshot::Snapshot;

/// The history of a generation: a legal one, which leads from the agent at its begin to the agent at its end.
#[derive(Drop)]
pub struct Past {
    pub(crate) start: Snapshot<AgentCore>,
    pub(crate) last: Snapshot<AgentCore>,
    pub(crate) entries: Vec<KeptEntry>,
}

impl Model for Past {
    ghost use Rattle.std.specs.Coded.{codes};
    ghost use Rattle.sshc_key.specs.PairCode.{key_pair_code};
    ghost use Rattle.sshc_agent_shared.specs.Generations.{PastState};
    ghost use Rattle.sshc_agent_shared.specs.Kept.{IsHistoryFrom};

    ghost Value = { PastState };

    ghost coded = { Prim.hlevel (codes, key_pair_code) };

    ghost view = { λ p. record { start = p.start.value; last = p.last.value; entries = p.entries.items } };

    ghost invariant = { λ p. IsHistoryFrom p.start.value p.entries.items p.last.value };
}

impl Past {
    /// Its history is legal.
    pub fn is_legal(&self)
        ensures { IsHistoryFrom self.now.start self.now.entries self.now.last }
    {
        let _entries = &self.entries;
    }

    /// How many entries it has.
    pub fn len(&self) -> usize
        ensures { result ≡ length self.now.entries }
    {
        self.entries.len()
    }

    /// The history, with bytes of its own.
    pub fn history(&self, alloc: Global) -> Result<Vec<Entry>, NoMemory>
        ensures { IfOk result (λ h. h.items ≡ self.now.entries) }
    {
        let mut history = Vec::new(alloc);
        for e in self.entries.as_slice() {
            history.push(e.copy(alloc)?)?;
        }
        Ok(history)
    }
}
