//! The state behind the mutex of a shared agent.

ghost use Rattle.std.specs.Prelude.{◌≡◌, ◌≤◌, ◌+◌, ◌++◌, ◌<◌, [], IfErr, IfOk, MatchOption, OnErr, OnOk};
ghost use Rattle.sshc_agent_core.specs.AgentList.{empty_list};
ghost use Rattle.sshc_key.specs.Signers.{since};
ghost use Rattle.sshc_wire.specs.Faults.{Rose};
ghost use Rattle.sshc_agent_shared.specs.Calls.{call_of};
ghost use Rattle.sshc_agent_shared.specs.Closing.{Tells};
ghost use Rattle.sshc_agent_shared.specs.Kept.{Adds, IsHistoryOf, due, new_seat, refused_once, weight_of};

use crate::error::CallRefused;
use crate::generation::Generation;
use crate::seat::Seat;
use crate::settings::Settings;
use sshc_agent_core::{AgentInput, AgentOutput, Cause};
use sshc_key::LocalSigner;
use std::alloc::Global;
use std::marker::Model;
use std::sync::ledger::Blank;

/// An agent with the history of all its calls: the state behind the mutex of a shared agent.
#[derive(Drop)]
pub struct AgentState<L: Settings> {
    pub(crate) generation: Generation<L>,
}

impl<L: Settings> Model for AgentState<L> {
    ghost use Rattle.std.specs.Prelude.{◌≡◌};
    ghost use Rattle.std.specs.Coded.{codes};
    ghost use Rattle.sshc_key.specs.PairCode.{key_pair_code};
    ghost use Rattle.sshc_agent_core.specs.AgentList.{empty_list};
    ghost use Rattle.sshc_agent_shared.specs.Kept.{SharedState};

    ghost Value = { SharedState };

    ghost coded = { Prim.hlevel (codes, key_pair_code) };

    ghost view = { λ s. s.generation.of };

    ghost invariant = { λ s. (s.generation.start ≡ empty_list s.generation.of.asks)
        × (s.generation.last ≡ s.generation.of.made) };
}

impl<L: Settings> AgentState<L> {
    /// No calls yet. If `asks`, the user is asked about each request. The ledger has 2^26 parts.
    pub fn new(alloc: Global, blank: Blank, asks: bool, journal_limit: u32) -> AgentState<L>
        requires parts { blank.parts ≡ 67108864 }
        requires ledger { (blank.name ≡ L.name) × (blank.parts ≡ L.parts) }
        requires settings { (asks ≡ L.asks) × (journal_limit ≡ L.limit) }
        ensures { result ≡ record
            { asks = asks; list = empty_list asks; journal = []; made = 0; limit = journal_limit } }
    {
        AgentState {
            generation: Generation::new(alloc, blank, asks, journal_limit),
        }
    }

    /// The journal is a history that leads to the agent's keys, lock and connections.
    pub fn is_legal(&self)
        ensures { IsHistoryOf self.now.asks self.now.journal self.now.list }
    {
        self.generation.is_legal();
    }

    /// Its `asks` and its limit are those of its settings.
    pub fn is_as_named(&self)
        ensures asks { self.now.asks ≡ L.asks }
        ensures limit { self.now.limit ≡ L.limit }
    {
        self.generation.is_as_named();
    }

    /// Makes the seat of the next connection. Connections are numbered from 1.
    pub fn seat(&mut self) -> Result<Seat<L>, CallRefused>
        ensures seat { IfOk result (λ s. s ≡ new_seat (self.old.made + 1)) }
        ensures made { IfOk result (λ s. self.new ≡ record self.old { made = self.old.made + 1 }) }
        ensures room { IfOk result (λ s. weight_of self.old + 64 ≤ self.old.limit) }
        // If it is refused, the journal would weigh more than its limit, and nothing changes.
        ensures full { IfErr result (λ e. (e ≡ CallRefused.JournalFull) × (self.old.limit < weight_of self.old + 64)) }
        ensures same { OnErr result (self.new ≡ self.old) }
    {
        self.generation.is_parted();
        self.generation.seat()
    }

    /// Takes an input of the seat's connection at a moment in milliseconds: one step of the agent, with its entry in
    /// the journal and its call in the seat. A refused call changes only the seat's count of refused calls.
    #[tactic(auto, using(crate::proofs::Keeping::tells_from))]
    pub fn call<G: LocalSigner>(
        &mut self,
        seat: Seat<L>,
        now: u64,
        input: AgentInput,
        signer: &mut G,
    ) -> (Seat<L>, Result<AgentOutput, CallRefused>)
        ensures adds { IfOk result.1
            (λ out. Adds
            self.old self.new seat result.0 now input (since (G.calls signer.old) (G.calls signer.new)) out) }
        // So the output is that of a step after a legal history.
        ensures tells { IfOk result.1
            (λ out. Tells seat result.0 (call_of now input out) (since (G.calls signer.old) (G.calls signer.new))) }
        ensures same { OnErr result.1 ((self.new ≡ self.old) × (result.0 ≡ refused_once seat)) }
        // Miscounted and JournalFull are returned exactly if they are due; any other refusal is NoMemory.
        ensures due { MatchOption (due self.old seat input) (IfErr result.1 (λ e. e ≡ CallRefused.NoMemory))
            (λ e. result.1 ≡ Err e) }
        // The calls that the step makes are added to the signer's list; none if the call is refused.
        ensures asked { OnOk result.1
            (G.calls signer.new ≡ G.calls signer.old ++ since (G.calls signer.old) (G.calls signer.new)) }
        ensures unasked { OnErr result.1 (G.calls signer.new ≡ G.calls signer.old) }
        // The connection is closed because the signer refused only where its count rose.
        ensures cause { IfOk result.1 (λ out. out ≡ AgentOutput.Closed Cause.SignerRefused
            → Rose (G.refusals signer.old) (G.refusals signer.new)) }
        ensures later { G.refusals signer.old ≤ G.refusals signer.new }
    {
        self.is_legal();
        let mut seat = seat;
        match self.generation.try_call(&mut seat, now, input, signer) {
            Ok(output) => (seat, Ok(output)),
            Err(refused) => {
                seat.refuse();
                (seat, Err(refused))
            }
        }
    }
}
