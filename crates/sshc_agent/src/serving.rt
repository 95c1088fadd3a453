//! Serves one connection.

ghost use Rattle.sshc_agent.specs.Moments.{Timed};
ghost use Rattle.sshc_agent.specs.Signing.{Caused, Signs};
ghost use Rattle.sshc_agent.specs.Talk.{Serves, seen};

use crate::fetching::fetch;
use crate::outside::{Agent, Pause};
use crate::turn::{Next, close, turn};
use sshc_agent_core::{AgentInput, Frames};
use sshc_agent_shared::{AgentShared, Seat, Settings};
use sshc_key::LocalSigner;
use sshc_wire::{AgentStream, Clock, NoMemory};
use std::alloc::Global;
use std::sync::Wait;

/// Serves a connection until its stream ends or fails, the agent closes it, a call is refused or memory runs out. If
/// the stream's source ends or fails, the last call is Close.
pub fn serve_one<
    L: Settings,
    S: AgentStream,
    A: Agent,
    G: LocalSigner,
    P: Pause,
    C: Clock,
    R: Wait,
>(
    rt: &R,
    alloc: Global,
    shared: &AgentShared<L>,
    seat: Seat<L>,
    stream: &mut S,
    agent: &A,
    signer: &mut G,
    pause: &P,
    clock: &mut C,
) -> (Seat<L>, Result<(), NoMemory>)
    ensures serves { Serves (A.allows agent.now) (A.confirms agent.now)
        (seen (S.left stream.old) (S.contents stream.old) (S.Source.faults stream.old) (S.Sink.faults stream.old))
        (seen (S.left stream.new) (S.contents stream.new) (S.Source.faults stream.new) (S.Sink.faults stream.new))
        seat result.0 result.1 }
    // Each call is made at a moment that the clock returned for it.
    ensures moments { Timed (C.told clock.old) (C.told clock.new) seat result.0 }
    // The signer gets exactly the calls of the connection's steps, and each step leaves every other connection as it
    // was: so a fault of this stream closes no other.
    ensures signs { Signs (G.calls signer.old) (G.calls signer.new) seat result.0 }
    // It is closed because the signer refused only where the signer's count of refusals rose.
    ensures caused { Caused (G.refusals signer.old) (G.refusals signer.new) seat result.0 }
{
    let mut frames = Frames::new(alloc);
    let mut seat = seat;
    let mut answer: Option<AgentInput> = None;
    for _ in rt.forever() {
        match fetch(rt, stream, &mut frames, answer) {
            Err(NoMemory) => return (seat, Err(NoMemory)),
            Ok(None) => return (close(rt, shared, seat, signer, pause, clock), Ok(())),
            Ok(Some(input)) => {
                let (next_seat, next) = turn(
                    rt, shared, seat, input, stream, agent, signer, pause, clock,
                );
                seat = next_seat;
                match next {
                    Next::Goes => answer = None,
                    Next::Asks(input) => answer = Some(input),
                    Next::Ends(ended) => return (seat, ended.result()),
                }
            }
        }
    }
    unreachable!()
}
