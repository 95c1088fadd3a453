//! The agent that threads share.

ghost use Rattle.std.specs.Prelude.{◌≡◌, ◌++◌, ◌≤◌, [], All, IfErr, IfOk, OnErr, OnOk};
ghost use Rattle.sshc_key.specs.Signers.{since};
ghost use Rattle.sshc_agent_shared.specs.Apart.{AsksOnce, TellsApart};
ghost use Rattle.sshc_agent_shared.specs.Calls.{call_of};
ghost use Rattle.sshc_agent_shared.specs.Kept.{refused_once};
ghost use Rattle.sshc_agent_shared.specs.Closing.{Accounts, CloseCause, RefusalSeen, Tells};
ghost use Rattle.sshc_agent_core.specs.AgentHistory.{IsTold};
ghost use Rattle.sshc_agent_core.specs.LockLaw.{LocksHold};
ghost use Rattle.sshc_agent_core.specs.SignedEntries.{SignaturesArePermitted};
ghost use Rattle.sshc_wire.specs.Faults.{Rose};

use crate::apart::Begun;
use crate::error::{CallRefused, CloseError};
use crate::seat::Seat;
use crate::settings::Settings;
use crate::state::AgentState;
use sshc_agent_core::{AgentInput, AgentOutput, Cause, Entry};
use sshc_key::LocalSigner;
use sshc_wire::NoMemory;
use std::alloc::Global;
use std::sync::ledger::Blank;
use std::sync::{Mutex, Wait};

/// One agent for all connections, under one lock.
#[derive(Drop)]
pub struct AgentShared<L: Settings> {
    state: Mutex<AgentState<L>>,
}

impl<L: Settings> AgentShared<L> {
    /// An agent that was not called yet. If `asks`, the user is asked about each request. Its journal weighs at most
    /// `journal_limit`: 64 for each seat and each entry, plus the bytes of each entry's frame. The ledger has 2^26
    /// parts.
    pub fn new(
        alloc: Global,
        blank: Blank,
        asks: bool,
        journal_limit: u32,
    ) -> Result<AgentShared<L>, NoMemory>
        requires parts { blank.parts ≡ 67108864 }
        requires ledger { (blank.name ≡ L.name) × (blank.parts ≡ L.parts) }
        requires settings { (asks ≡ L.asks) × (journal_limit ≡ L.limit) }
    {
        Ok(AgentShared {
            state: Mutex::new(AgentState::new(alloc, blank, asks, journal_limit)),
        })
    }

    /// Takes the lock, and makes the seat of the next connection.
    pub fn connect<R: Wait>(&self, rt: &R) -> Result<Seat<L>, CallRefused>
        ensures fresh { IfOk result (λ s. (s.calls ≡ []) × (s.refused ≡ 0)) }
        ensures full { IfErr result (λ e. e ≡ CallRefused.JournalFull) }
    {
        self.state.lock(rt).seat()
    }

    /// Takes the lock, and takes the input of the seat's connection at a moment in milliseconds.
    pub fn call<G: LocalSigner, R: Wait>(
        &self,
        rt: &R,
        seat: Seat<L>,
        now: u64,
        input: AgentInput,
        signer: &mut G,
    ) -> (Seat<L>, Result<AgentOutput, CallRefused>)
        ensures tells { IfOk result.1
            (λ out. Tells seat result.0 (call_of now input out) (since (G.calls signer.old) (G.calls signer.new))) }
        ensures refused { OnErr result.1 (result.0 ≡ refused_once seat) }
        ensures seen { IfErr result.1 (λ e. RefusalSeen seat e) }
        // The calls that the step makes are added to the signer's list; none if the call is refused.
        ensures asked { OnOk result.1
            (G.calls signer.new ≡ G.calls signer.old ++ since (G.calls signer.old) (G.calls signer.new)) }
        ensures unasked { OnErr result.1 (G.calls signer.new ≡ G.calls signer.old) }
        // The connection is closed because the signer refused only where its count rose.
        ensures cause { IfOk result.1 (λ out. out ≡ AgentOutput.Closed Cause.SignerRefused
            → Rose (G.refusals signer.old) (G.refusals signer.new)) }
        ensures later { G.refusals signer.old ≤ G.refusals signer.new }
    {
        self.state.lock(rt).call(seat, now, input, signer)
    }

    /// Calls as `call` does, but has the signature made outside the lock, so that no other connection waits for it. It
    /// takes the lock once for what the input asks to be signed, and again for the call itself, which takes the
    /// signature only if the same question still stands: if the key was removed meanwhile, or a lock came, it is answered
    /// with FAILURE.
    pub fn call_apart<G: LocalSigner, R: Wait>(
        &self,
        rt: &R,
        seat: Seat<L>,
        now: u64,
        input: AgentInput,
        signer: &mut G,
    ) -> (Seat<L>, Result<AgentOutput, CallRefused>)
        // The call is a step after a legal history, which took the signature or none.
        ensures tells { IfOk result.1
            (λ out. TellsApart seat result.0 (call_of now input out)
            (since (G.calls signer.old) (G.calls signer.new))) }
        // The signer is asked once at most, and what the input asked of an agent after a legal history.
        ensures once { AsksOnce seat.conn now input (since (G.calls signer.old) (G.calls signer.new)) }
        ensures refused { OnErr result.1 (result.0 ≡ refused_once seat) }
        ensures seen { IfErr result.1 (λ e. RefusalSeen seat e) }
        ensures asked { G.calls signer.new ≡ G.calls signer.old ++ since (G.calls signer.old) (G.calls signer.new) }
        // The connection is closed because the signer refused only where its count rose.
        ensures cause { IfOk result.1 (λ out. out ≡ AgentOutput.Closed Cause.SignerRefused
            → Rose (G.refusals signer.old) (G.refusals signer.new)) }
        ensures later { G.refusals signer.old ≤ G.refusals signer.new }
    {
        let (seat, begun) = self.state.lock(rt).begin(seat, now, input);
        match begun {
            Begun::Made(answer) => (seat, answer),
            Begun::Asks(input, question) => {
                let signed = question.ask(signer);
                self.state.lock(rt).finish(seat, now, input, signed)
            }
        }
    }

    /// The history of all calls of an agent with the settings of its type, if all seats are back and their calls are in
    /// it, in their order and with the outputs that they got. Otherwise returns the agent and the seats with the error.
    pub fn close(
        self,
        seats: Vec<Seat<L>>,
    ) -> Result<Vec<Entry>, (AgentShared<L>, Vec<Seat<L>>, CloseError)>
        ensures accounts { IfOk result (λ h. Accounts L.asks L.limit h.items seats.items) }
        // From each acknowledged lock to the unlock with its passphrase, nothing is signed, listed or acknowledged.
        ensures locks { IfOk result (λ h. LocksHold h.items) }
        // Each signature is by a sign request to an unlocked agent, by a key that was held, and confirmed if it wants
        // that.
        ensures signed { IfOk result (λ h. SignaturesArePermitted h.items) }
        // An entry has a signature exactly with an answer of type 14, and it is the one in that frame.
        ensures told { IfOk result (λ h. All IsTold h.items) }
        ensures same { IfErr result (λ r. r.1.items ≡ seats.items) }
        ensures cause { IfErr result (λ r. CloseCause seats.items r.2) }
    {
        let AgentShared { state } = self;
        match state.into_inner().close(seats) {
            Ok(history) => Ok(history),
            Err((state, seats, why)) => Err((
                AgentShared {
                    state: Mutex::new(state),
                },
                seats,
                why,
            )),
        }
    }
}
