//! Calls of an agent that lasts, each after the seam that it needs: a journal without room for it is closed first.

ghost use Rattle.std.specs.Prelude.{◌≡◌, ◌≤◌, ◌++◌, ◌∷◌, ◌↔◌, ℕ, List, IfErr, IfOk, IsTrue, OnErr, OnOk, Some};
ghost use Rattle.sshc_key.specs.Signers.{SignCall, since};
ghost use Rattle.sshc_wire.specs.Faults.{Rose};
ghost use Rattle.sshc_agent_shared.specs.Calls.{call_of, entry_weight};
ghost use Rattle.sshc_agent_shared.specs.Generations.{IsLastingStep};
ghost use Rattle.sshc_agent_shared.specs.Lasting.{ConnectsOn, HasRoom, IsPermittedOn, KeepsLockOn, MakesRoom, TakesOn};

use crate::error::{CloseError, LastingRefused};
use crate::lasting::LastingState;
use crate::past::Past;
use crate::settings::Settings;
use sshc_agent_core::{AgentInput, AgentOutput, Cause};
use sshc_key::LocalSigner;

impl<L: Settings> LastingState<L> {
    /// Whether the journal has room for one more connection.
    pub fn has_seat(&self) -> bool
        ensures { IsTrue result ↔ HasRoom 64 self.now }
    {
        self.generation.has_seat()
    }

    /// Whether the journal has room for a call with this input.
    pub fn has_room(&self, input: &AgentInput) -> bool
        ensures { IsTrue result ↔ HasRoom (entry_weight input.now) self.now }
    {
        self.generation.has_room(input)
    }

    /// Makes a new connection, as `connect` does. A journal without room for it is closed first, with what `renew`
    /// returns as the second result.
    pub fn admit(
        &mut self,
    ) -> (
        Result<u32, LastingRefused>,
        Option<Result<Past, CloseError>>,
    )
        ensures connects { ConnectsOn L.limit self.old self.new result.0 result.1 }
    {
        let seam = if self.has_seat() {
            None
        } else {
            Some(self.renew())
        };
        (self.connect(), seam)
    }

    /// Closes a journal without room for a call with this input, and returns what `renew` does.
    fn make_room(&mut self, input: &AgentInput) -> Option<Result<Past, CloseError>>
        ensures { MakesRoom L.limit (entry_weight input.now) self.old self.new result }
    {
        if self.has_room(input) {
            None
        } else {
            Some(self.renew())
        }
    }

    /// Takes an input of a connection at a moment in milliseconds, as `call` does. A journal without room for its entry
    /// is closed first, with what `renew` returns as the second result.
    pub fn take<G: LocalSigner>(
        &mut self,
        conn: u32,
        now: u64,
        input: AgentInput,
        signer: &mut G,
    ) -> (
        Result<AgentOutput, LastingRefused>,
        Option<Result<Past, CloseError>>,
    )
        ensures takes { TakesOn L.limit self.old self.new conn now input
            (since (G.calls signer.old) (G.calls signer.new)) result.0 result.1 }
        // The output is that of a step of an agent to which generations lead.
        ensures tells { IfOk result.0
            (λ out. IsLastingStep L.asks conn (call_of now input out)
            (since (G.calls signer.old) (G.calls signer.new))) }
        // A locked agent signs nothing and lists nothing, and stays locked except for an unlock with its passphrase.
        ensures locked { IfOk result.0
            (λ out. (p : List ℕ) → self.old.generation.of.list.passphrase ≡ Some p
            → KeepsLockOn p now conn input self.old.generation.of.list self.new.generation.of.list
            (since (G.calls signer.old) (G.calls signer.new)) out) }
        // A signature needs a sign request to an unlocked agent, a key that is held and hasn't expired, and the user's
        // confirmation if the key requires it.
        ensures signed { IfOk result.0
            (λ out. (call : SignCall) (calls : List SignCall)
            → since (G.calls signer.old) (G.calls signer.new) ≡ call ∷ calls
            → IsPermittedOn now conn input self.old.generation.of.list call.by call.key) }
        ensures asked { OnOk result.0
            (G.calls signer.new ≡ G.calls signer.old ++ since (G.calls signer.old) (G.calls signer.new)) }
        ensures unasked { OnErr result.0 (G.calls signer.new ≡ G.calls signer.old) }
        // The connection is closed because the signer refused only where its count rose.
        ensures cause { IfOk result.0 (λ out. out ≡ AgentOutput.Closed Cause.SignerRefused
            → Rose (G.refusals signer.old) (G.refusals signer.new)) }
        ensures later { G.refusals signer.old ≤ G.refusals signer.new }
    {
        let seam = self.make_room(&input);
        (self.call(conn, now, input, signer), seam)
    }
}
