//! One call of a connection, and what is done after its answer.

ghost use Rattle.std.specs.Prelude.{◌≡◌, ◌≤◌, IfOk, OnErr, OnOk};
ghost use Rattle.sshc_wire.specs.Contents.{WroteFront, append};
ghost use Rattle.sshc_wire.specs.Faults.{HasCause};
ghost use Rattle.sshc_agent_shared.specs.declared.call.Call.{Call as Kept};
ghost use Rattle.sshc_agent.specs.Moments.{IsTick};
ghost use Rattle.sshc_agent.specs.Signing.{Caused, Signs};
ghost use Rattle.sshc_agent.specs.Talk.{Answered, Closes, IsCall, IsRefused, Returns, Turned, seen};

use crate::outside::{Agent, Pause};
use sshc_agent_core::{AgentInput, AgentOutput};
use sshc_agent_shared::{AgentShared, CallRefused, Seat, Settings};
use sshc_key::LocalSigner;
use sshc_wire::{AgentStream, Clock, Failed, NoMemory, write_whole};
use std::sync::Wait;
use std::sync::ledger::Ledger;

/// What comes after a call.
#[derive(Drop)]
pub(crate) enum Next {
    /// The stream's next input.
    Goes,
    /// The answer to a question.
    Asks(AgentInput),
    /// Nothing.
    Ends(Ended),
}

/// Why a call is the last one.
#[derive(Clone, Copy)]
pub(crate) enum Ended {
    /// It was refused.
    Refused,
    /// The agent closed the connection.
    Closed,
    /// Writing its answer failed.
    WriteFailed,
    /// Memory ran out while its answer was written.
    Starved,
}

impl Ended {
    /// What the serving of the connection returns.
    pub(crate) fn result(self) -> Result<(), NoMemory>
        ensures { Returns self result }
    {
        match self {
            Ended::Starved => Err(NoMemory),
            Ended::Refused | Ended::Closed | Ended::WriteFailed => Ok(()),
        }
    }
}

/// Writes the answer. Nothing is read from the stream.
fn write_answer<S: AgentStream>(stream: &mut S, frame: &[u8]) -> Result<(), Failed>
    ensures whole { OnOk result (S.contents stream.new ≡ append (S.contents stream.old) frame.now) }
    ensures cut { OnErr result (WroteFront (S.contents stream.old) (S.contents stream.new) frame.now) }
    ensures cause { HasCause (S.Sink.faults stream.old) (S.Sink.faults stream.new) result }
    ensures unread { (S.left stream.new ≡ S.left stream.old)
        × (S.Source.faults stream.new ≡ S.Source.faults stream.old) }
{
    write_whole(stream, frame)
}

/// Writes an answer or asks the agent's user, outside the agent's lock.
#[tactic(auto, using(crate::proofs::Talking::nothing_written))]
pub(crate) fn follow<S: AgentStream, A: Agent>(
    output: AgentOutput,
    stream: &mut S,
    agent: &A,
) -> Next
    ensures answered { Answered (A.allows agent.now) (A.confirms agent.now)
        (seen (S.left stream.old) (S.contents stream.old) (S.Source.faults stream.old) (S.Sink.faults stream.old))
        (seen (S.left stream.new) (S.contents stream.new) (S.Source.faults stream.new) (S.Sink.faults stream.new))
        output result }
    ensures unread { (S.left stream.new ≡ S.left stream.old)
        × (S.Source.faults stream.new ≡ S.Source.faults stream.old) }
    ensures later { S.Sink.faults stream.old ≤ S.Sink.faults stream.new }
{
    match output {
        AgentOutput::Answer(frame) => match write_answer(stream, frame.as_slice()) {
            Ok(()) => Next::Goes,
            Err(Failed::Fault) => Next::Ends(Ended::WriteFailed),
            Err(Failed::NoMemory) => Next::Ends(Ended::Starved),
        },
        AgentOutput::AskRequest(message) => {
            Next::Asks(AgentInput::RequestAnswer(agent.confirm_request(message)))
        }
        AgentOutput::AskKey(blob) => {
            Next::Asks(AgentInput::KeyAnswer(agent.confirm(blob.as_slice())))
        }
        AgentOutput::Nothing => Next::Goes,
        AgentOutput::Closed(_) => Next::Ends(Ended::Closed),
    }
}

/// The number of the seat's next call.
fn next_number<L: Ledger>(seat: &Seat<L>) -> u32 {
    u32::try_from(seat.calls().len()).unwrap_or(u32::MAX)
}

/// Calls the agent at the clock's moment.
fn called<L: Settings, G: LocalSigner, P: Pause, C: Clock, R: Wait>(
    rt: &R,
    shared: &AgentShared<L>,
    seat: Seat<L>,
    input: AgentInput,
    signer: &mut G,
    pause: &P,
    clock: &mut C,
) -> (Seat<L>, Result<AgentOutput, CallRefused>)
    ensures call { IfOk result.1 (λ out. (call : Kept) × IsCall seat result.0 input call × (call.output ≡ out)) }
    ensures refused { OnErr result.1 (IsRefused seat result.0) }
    ensures tick { IsTick (C.told clock.old) (C.told clock.new) seat result.0 }
    ensures signs { Signs (G.calls signer.old) (G.calls signer.new) seat result.0 }
    ensures caused { Caused (G.refusals signer.old) (G.refusals signer.new) seat result.0 }
{
    pause.before(seat.conn(), next_number(&seat));
    let now = clock.now();
    shared.call(rt, seat, now, input, signer)
}

/// Calls the agent, and does what comes after its answer.
pub(crate) fn turn<
    L: Settings,
    S: AgentStream,
    A: Agent,
    G: LocalSigner,
    P: Pause,
    C: Clock,
    R: Wait,
>(
    rt: &R,
    shared: &AgentShared<L>,
    seat: Seat<L>,
    input: AgentInput,
    stream: &mut S,
    agent: &A,
    signer: &mut G,
    pause: &P,
    clock: &mut C,
) -> (Seat<L>, Next)
    ensures turned { Turned (A.allows agent.now) (A.confirms agent.now) input
        (seen (S.left stream.old) (S.contents stream.old) (S.Source.faults stream.old) (S.Sink.faults stream.old))
        (seen (S.left stream.new) (S.contents stream.new) (S.Source.faults stream.new) (S.Sink.faults stream.new))
        seat result.0 result.1 }
    ensures unread { (S.left stream.new ≡ S.left stream.old)
        × (S.Source.faults stream.new ≡ S.Source.faults stream.old) }
    ensures later { S.Sink.faults stream.old ≤ S.Sink.faults stream.new }
    ensures tick { IsTick (C.told clock.old) (C.told clock.new) seat result.0 }
    ensures signs { Signs (G.calls signer.old) (G.calls signer.new) seat result.0 }
    ensures caused { Caused (G.refusals signer.old) (G.refusals signer.new) seat result.0 }
{
    let (seat, answer) = called(rt, shared, seat, input, signer, pause, clock);
    match answer {
        Err(_) => (seat, Next::Ends(Ended::Refused)),
        Ok(output) => {
            let next = follow(output, stream, agent);
            (seat, next)
        }
    }
}

/// Makes the last call of a connection, after the client closed it.
pub(crate) fn close<L: Settings, G: LocalSigner, P: Pause, C: Clock, R: Wait>(
    rt: &R,
    shared: &AgentShared<L>,
    seat: Seat<L>,
    signer: &mut G,
    pause: &P,
    clock: &mut C,
) -> Seat<L>
    ensures closes { Closes seat result }
    ensures tick { IsTick (C.told clock.old) (C.told clock.new) seat result }
    ensures signs { Signs (G.calls signer.old) (G.calls signer.new) seat result }
    ensures caused { Caused (G.refusals signer.old) (G.refusals signer.new) seat result }
{
    pause.before(seat.conn(), next_number(&seat));
    let now = clock.now();
    let (seat, _answer) = shared.call(rt, seat, now, AgentInput::Close, signer);
    seat
}
