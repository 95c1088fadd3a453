//! The agent that threads share, and that lasts.

ghost use Rattle.std.specs.Prelude.{◌≡◌, ◌++◌, ◌≤◌, IfOk, OnErr, OnOk};
ghost use Rattle.sshc_key.specs.Signers.{since};
ghost use Rattle.sshc_wire.specs.Faults.{Rose};
ghost use Rattle.sshc_agent_shared.specs.Calls.{call_of, journal_weight};
ghost use Rattle.sshc_agent_shared.specs.Generations.{IsLastingStep};
ghost use Rattle.sshc_agent_shared.specs.LastingApart.{AsksLastingOnce, TellsLastingApart};
ghost use Rattle.sshc_agent_shared.specs.LongHistory.{IsLastOf};

use crate::error::{CloseError, LastingRefused};
use crate::lasting::LastingState;
use crate::lasting_apart::LastingBegun;
use crate::past::Past;
use crate::settings::Settings;
use sshc_agent_core::{AgentInput, AgentOutput, Cause};
use sshc_key::LocalSigner;
use std::alloc::Global;
use std::sync::ledger::Blank;
use std::sync::{Mutex, Wait};

/// Is told of each generation that is closed, while the agent's mutex is held, so that they come in their order.
pub trait Keeper: Sync {
    /// A generation was closed, and the next one begins.
    fn keep(&self, past: Past);

    /// The full journal can't be closed, so calls are refused.
    fn keeps_on(&self, why: CloseError);
}

/// Keeps nothing.
impl Keeper for () {
    fn keep(&self, _past: Past) {}

    fn keeps_on(&self, _why: CloseError) {}
}

/// One agent for all connections, under one lock, which begins a new generation when its journal is full.
#[derive(Drop)]
pub struct AgentLasting<L: Settings> {
    state: Mutex<LastingState<L>>,
}

/// Tells the keeper what became of a full journal.
fn hand_on<K: Keeper>(seam: Option<Result<Past, CloseError>>, keeper: &K) {
    match seam {
        None => {}
        Some(Ok(past)) => keeper.keep(past),
        Some(Err(why)) => keeper.keeps_on(why),
    }
}

impl<L: Settings> AgentLasting<L> {
    /// An agent that was not called yet. If `asks`, the user is asked about each request. A journal weighs at most
    /// `journal_limit`: 64 for each seat and each entry, plus the bytes of each entry's frame. The ledger has 2^26
    /// parts.
    pub fn new(alloc: Global, blank: Blank, asks: bool, journal_limit: u32) -> AgentLasting<L>
        requires parts { blank.parts ≡ 67108864 }
        requires ledger { (blank.name ≡ L.name) × (blank.parts ≡ L.parts) }
        requires settings { (asks ≡ L.asks) × (journal_limit ≡ L.limit) }
    {
        AgentLasting {
            state: Mutex::new(LastingState::new(alloc, blank, asks, journal_limit)),
        }
    }

    /// Takes the lock, and returns the number of a new connection. A full journal is closed first.
    pub fn connect<K: Keeper, R: Wait>(&self, rt: &R, keeper: &K) -> Result<u32, LastingRefused> {
        let mut state = self.state.lock(rt);
        let (conn, seam) = state.admit();
        hand_on(seam, keeper);
        conn
    }

    /// Takes the lock, and takes the input of a connection at a moment in milliseconds. A full journal is closed first.
    pub fn call<G: LocalSigner, K: Keeper, R: Wait>(
        &self,
        rt: &R,
        conn: u32,
        now: u64,
        input: AgentInput,
        signer: &mut G,
        keeper: &K,
    ) -> Result<AgentOutput, LastingRefused>
        // The output is that of a step of an agent to which generations lead.
        ensures tells { IfOk result (λ out. IsLastingStep L.asks conn (call_of now input out)
            (since (G.calls signer.old) (G.calls signer.new))) }
        ensures asked { OnOk result
            (G.calls signer.new ≡ G.calls signer.old ++ since (G.calls signer.old) (G.calls signer.new)) }
        ensures unasked { OnErr result (G.calls signer.new ≡ G.calls signer.old) }
        // The connection is closed because the signer refused only where its count rose.
        ensures cause { IfOk result (λ out. out ≡ AgentOutput.Closed Cause.SignerRefused
            → Rose (G.refusals signer.old) (G.refusals signer.new)) }
        ensures later { G.refusals signer.old ≤ G.refusals signer.new }
    {
        let mut state = self.state.lock(rt);
        let (answer, seam) = state.take(conn, now, input, signer);
        hand_on(seam, keeper);
        answer
    }

    /// Calls as `call` does, but has the signature made outside the lock, so that no other connection waits for it. It
    /// takes the lock once for what the input asks to be signed, and again for the call itself, which takes the
    /// signature only if the same question still stands: if the key was removed meanwhile, or a lock came, it is answered
    /// with FAILURE.
    #[tactic(auto, using(crate::proofs::ApartLemmas::lasting_once))]
    pub fn call_apart<G: LocalSigner, K: Keeper, R: Wait>(
        &self,
        rt: &R,
        conn: u32,
        now: u64,
        input: AgentInput,
        signer: &mut G,
        keeper: &K,
    ) -> Result<AgentOutput, LastingRefused>
        // The call is a step of an agent to which generations lead, which took the signature or none.
        ensures tells { IfOk result
            (λ out. TellsLastingApart L.asks conn (call_of now input out)
            (since (G.calls signer.old) (G.calls signer.new))) }
        // The signer is asked once at most, and what the input asked of an agent to which generations lead.
        ensures once { AsksLastingOnce L.asks conn now input (since (G.calls signer.old) (G.calls signer.new)) }
        ensures asked { G.calls signer.new ≡ G.calls signer.old ++ since (G.calls signer.old) (G.calls signer.new) }
        // The connection is closed because the signer refused only where its count rose.
        ensures cause { IfOk result (λ out. out ≡ AgentOutput.Closed Cause.SignerRefused
            → Rose (G.refusals signer.old) (G.refusals signer.new)) }
        ensures later { G.refusals signer.old ≤ G.refusals signer.new }
    {
        let begun = self.state.lock(rt).begin(conn, now, input);
        match begun {
            LastingBegun::Made(answer, seam) => {
                hand_on(seam, keeper);
                answer
            }
            LastingBegun::Asks(input, question) => {
                let signed = question.ask(signer);
                let (answer, seam) = self.state.lock(rt).finish(conn, now, input, signed);
                hand_on(seam, keeper);
                answer
            }
        }
    }

    /// Takes the lock. The connection ended.
    pub fn leave<R: Wait>(&self, rt: &R, conn: u32) {
        self.state.lock(rt).leave(conn);
    }

    /// The last generation, closed.
    #[tactic(auto, using(crate::proofs::LongLaws::last_of))]
    pub fn close(self) -> Result<Past, CloseError>
        // Generations lead to its begin from an agent that holds nothing, its history is a legal one, and over all that
        // happened to the agent, seams included, locks hold and signatures are permitted.
        ensures lasts { IfOk result (λ past. IsLastOf L.asks past) }
        ensures within { IfOk result (λ past. journal_weight 0 past.entries ≤ L.limit) }
    {
        let AgentLasting { state } = self;
        let mut state = state.into_inner();
        state.is_reached();
        state.renew()
    }
}
