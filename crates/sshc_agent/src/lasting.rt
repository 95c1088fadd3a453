//! Serves one connection of an agent that lasts.

ghost use Rattle.std.specs.Prelude.{◌≡◌};
ghost use Rattle.sshc_agent.specs.Signing.{SignsLasting};

use crate::fetching::fetch;
use crate::outside::Agent;
use crate::turn::{Ended, Next, follow};
use sshc_agent_core::{AgentInput, AgentOutput, Frames};
use sshc_agent_shared::{AgentLasting, Keeper, LastingRefused, Settings};
use sshc_key::LocalSigner;
use sshc_wire::{AgentStream, Clock, NoMemory};
use std::alloc::Global;
use std::sync::Wait;

/// Calls the agent at the clock's moment. A signature is made outside its lock.
fn lasting_called<L: Settings, G: LocalSigner, C: Clock, K: Keeper, R: Wait>(
    rt: &R,
    shared: &AgentLasting<L>,
    conn: u32,
    input: AgentInput,
    signer: &mut G,
    clock: &mut C,
    keeper: &K,
) -> Result<AgentOutput, LastingRefused>
    ensures signs { SignsLasting L.asks conn (G.calls signer.old) (G.calls signer.new) }
{
    let now = clock.now();
    shared.call_apart(rt, conn, now, input, signer, keeper)
}

/// Calls the agent, and does what comes after its answer.
fn lasting_turn<
    L: Settings,
    S: AgentStream,
    A: Agent,
    G: LocalSigner,
    C: Clock,
    K: Keeper,
    R: Wait,
>(
    rt: &R,
    shared: &AgentLasting<L>,
    conn: u32,
    input: AgentInput,
    stream: &mut S,
    agent: &A,
    signer: &mut G,
    clock: &mut C,
    keeper: &K,
) -> Next
    ensures signs { SignsLasting L.asks conn (G.calls signer.old) (G.calls signer.new) }
{
    match lasting_called(rt, shared, conn, input, signer, clock, keeper) {
        Err(_) => Next::Ends(Ended::Refused),
        Ok(output) => follow(output, stream, agent),
    }
}

/// Serves a connection of an agent that lasts, as `serve_one` does: until its stream ends or fails, the agent closes
/// it, a call is refused or memory runs out. If the stream's source ends or fails, the last call is Close.
#[tactic(auto, using(crate::proofs::Signed::lasting_nothing, crate::proofs::Signed::lasting_on))]
pub fn serve_lasting_one<
    L: Settings,
    S: AgentStream,
    A: Agent,
    G: LocalSigner,
    C: Clock,
    K: Keeper,
    R: Wait,
>(
    rt: &R,
    alloc: Global,
    shared: &AgentLasting<L>,
    conn: u32,
    stream: &mut S,
    agent: &A,
    signer: &mut G,
    clock: &mut C,
    keeper: &K,
) -> Result<(), NoMemory>
    // For each call of this connection the signer is asked once at most, and what its input asks of an agent to which
    // generations lead; the calls are steps of such agents, which take these signatures or none.
    ensures signs { SignsLasting L.asks conn (G.calls signer.old) (G.calls signer.new) }
{
    let mut frames = Frames::new(alloc);
    let mut answer: Option<AgentInput> = None;
    for _ in rt.forever() {
        match fetch(rt, stream, &mut frames, answer) {
            Err(NoMemory) => return Err(NoMemory),
            Ok(None) => {
                let _answer = lasting_called(
                    rt,
                    shared,
                    conn,
                    AgentInput::Close,
                    signer,
                    clock,
                    keeper,
                );
                return Ok(());
            }
            Ok(Some(input)) => match lasting_turn(
                rt, shared, conn, input, stream, agent, signer, clock, keeper,
            ) {
                Next::Goes => answer = None,
                Next::Asks(input) => answer = Some(input),
                Next::Ends(ended) => return ended.result(),
            },
        }
    }
    unreachable!()
}
