//! One step of the agent, with its record.

ghost use Rattle.std.specs.Prelude.{◌≡◌, ◌≤◌, ◌++◌, IfOk, OnErr, OnOk};
ghost use Rattle.sshc_key.specs.Asking.{Makes, MakesFirst};
ghost use Rattle.sshc_key.specs.Signers.{since};
ghost use Rattle.sshc_wire.specs.Outgoing.{listed};
ghost use Rattle.sshc_run_agent.specs.AgentTurns.{input_turn, records_of};

use sshc_agent_core::{AgentCore, AgentInput, AgentOutput, Cause};
use sshc_key::LocalSigner;
use sshc_wire::{AgentFault, AgentRecord, NoMemory, Record};

/// The record of an output; `None` for no output, and `NoMemory` if the agent closed the connection for lack of memory.
fn record_of(conn: u32, output: AgentOutput) -> Result<Option<Record>, NoMemory>
    ensures ok { IfOk result (λ sent. listed sent ≡ records_of conn output) }
    ensures told { OnOk result (output ≡ AgentOutput.Closed Cause.NoMemory → ⊥) }
{
    let answer = match output {
        AgentOutput::Answer(frame) => AgentRecord::Answer(frame),
        AgentOutput::AskRequest(message) => AgentRecord::AskRequest(message),
        AgentOutput::AskKey(blob) => AgentRecord::AskKey(blob),
        AgentOutput::Nothing => return Ok(None),
        AgentOutput::Closed(Cause::TooLong) => AgentRecord::Closed(AgentFault::TooLong),
        AgentOutput::Closed(Cause::Unreadable) => AgentRecord::Closed(AgentFault::Unreadable),
        AgentOutput::Closed(Cause::SignerRefused) => AgentRecord::Closed(AgentFault::SignerRefused),
        AgentOutput::Closed(Cause::NoMemory) => return Err(NoMemory),
    };
    Ok(Some(Record::Agent { conn, answer }))
}

/// Takes an input of a connection at a moment in milliseconds, and returns the record of its output, if it has one.
#[tactic(auto, using(crate::proofs::Steps::input_made))]
pub fn step_input<G: LocalSigner>(
    core: &mut AgentCore,
    now: u64,
    conn: u32,
    input: &AgentInput,
    signer: &mut G,
) -> Result<Option<Record>, NoMemory>
    // The record and the new state are those of the input's turn, with the calls that were added to the signer's list.
    ensures turn { IfOk result
        (λ sent. Makes (input_turn now conn input.now core.old) (since (G.calls signer.old) (G.calls signer.new))
        (record { records = listed sent; list = core.new })) }
    // The signer's list only grows.
    ensures gained { G.calls signer.new ≡ G.calls signer.old ++ since (G.calls signer.old) (G.calls signer.new) }
    ensures later { G.refusals signer.old ≤ G.refusals signer.new }
    // If memory runs out, these are a prefix of the turn's calls.
    ensures memory { OnErr result
        (MakesFirst (input_turn now conn input.now core.old) (since (G.calls signer.old) (G.calls signer.new))) }
{
    let output = core.step(now, conn, input, signer);
    record_of(conn, output)
}
