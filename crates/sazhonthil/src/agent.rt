//! An agent: the struct of the caller's, and the calls. The caller signs.

ghost use Rattle.std.specs.Prelude.{◌≡◌, ◌≢◌, ◌⊎◌, [], Option, Some, None, IsNone, IsSome, IfSome, option_map};
ghost use Rattle.sshc_agent_core.specs.AgentList.{empty_list, forgotten};
ghost use Rattle.sshc_c_calls.specs.AgentInputs.{input_of};
ghost use Rattle.sshc_c_calls.specs.AgentOutputs.{answer_told, said_as, TakesNumber};
ghost use Rattle.sshc_c_calls.specs.CopiedOut.{CopiedOut};
ghost use Rattle.sshc_c_calls.specs.Questions.{AsksNumber, HasNoParts};
ghost use Rattle.sazhonthil.specs.SettingsKept.{is_yes};
ghost use Rattle.sazhonthil.specs.AskedParts.{part_of};

use crate::held_agent::HeldAgent;
use sshc_c_calls::status::{MISUSE, NO_MEMORY, OK};
use sshc_c_calls::{AgentRun, Question, copy_out};
use std::alloc::Global;
use std::mem::replace;

/// An agent, or nothing: what a caller in C has in its own memory. Zeroed memory holds nothing.
#[repr(C)]
#[derive(Drop)]
pub struct AgentHandle {
    pub live: u32,
    pub held: HeldAgent,
    ghost empty: { live ≡ 0 → IsNone held.run },
    ghost full: { live ≢ 0 → IsSome held.run },
}

impl AgentHandle {
    fn empty(alloc: Global) -> AgentHandle
        ensures { result.held.run ≡ None }
    {
        AgentHandle {
            live: 0,
            held: HeldAgent::empty(alloc),
        }
    }

    fn of_box(run: Box<AgentRun>) -> AgentHandle
        ensures { result.held.run ≡ Some run.value }
    {
        AgentHandle {
            live: 1,
            held: HeldAgent::of_box(run),
        }
    }

    /// Takes out what it holds.
    fn take(&mut self, alloc: Global) -> Option<Box<AgentRun>>
        ensures taken { option_map (λ b. b.value) result ≡ self.old.held.run }
        ensures rest { self.new.held.run ≡ None }
    {
        if self.live == 0 {
            return None;
        }
        let AgentHandle { live: _, held } = replace(self, AgentHandle::empty(alloc));
        Some(held.into_box())
    }
}

/// Makes an agent that holds no keys, where the struct holds nothing. Unless `asks` is 0, the user is asked about each
/// request.
#[unsafe(no_mangle)]
pub extern "C" fn sshc_agent_new(alloc: Global, agent: &mut AgentHandle, asks: u32) -> u32
    ensures made { result ≡ 0 → IfSome agent.new.held.run (λ run. (run.core ≡ empty_list (is_yes asks))
        × (run.last ≡ []) × HasNoParts run.question) }
    ensures held { result ≡ 0 → IsSome agent.new.held.run }
    ensures kept { result ≢ 0 → agent.new.held.run ≡ agent.old.held.run }
    ensures misuse { IsSome agent.old.held.run → result ≡ 2 }
    ensures status { agent.old.held.run ≡ None → (result ≡ 0) ⊎ (result ≡ 20) }
{
    if agent.live != 0 {
        return MISUSE;
    }
    match Box::new(alloc, AgentRun::new(alloc, asks != 0)) {
        Ok(run) => {
            *agent = AgentHandle::of_box(run);
            OK
        }
        Err(_) => NO_MEMORY,
    }
}

/// What a step with this input, at a moment in milliseconds, asks to be signed; its parts are kept for
/// `sshc_agent_asked`. Nothing else changes.
#[unsafe(no_mangle)]
pub extern "C" fn sshc_agent_asks(
    alloc: Global,
    agent: &mut AgentHandle,
    now: u64,
    conn: u32,
    input: u32,
    frame: &[u8],
    hash: &mut u32,
) -> u32
    ensures asks { IfSome agent.old.held.run (λ before. IfSome agent.new.held.run (λ after.
        AsksNumber now conn (input_of input frame.now) before.core after.question result
        × (hash.new ≡ after.question.hash))) }
    // Nothing else changes: neither the agent nor the bytes of its last output.
    ensures same { IfSome agent.old.held.run (λ before. IfSome agent.new.held.run (λ after.
        (after.core ≡ before.core) × (after.last ≡ before.last))) }
    ensures held { IsSome agent.old.held.run → IsSome agent.new.held.run }
    ensures misuse { agent.old.held.run ≡ None →
        (result ≡ 2) × (hash.new ≡ hash.old) × (agent.new.held.run ≡ None) }
{
    match agent.take(alloc) {
        None => MISUSE,
        Some(mut run) => {
            let status = run.ask(alloc, now, conn, input, frame);
            *hash = run.question.hash;
            *agent = AgentHandle::of_box(run);
            status
        }
    }
}

/// A part of the last question: 0 the bytes to sign, 1 the public key's blob, any other the key pair.
fn part_of<'a>(question: &'a Question, part: u32) -> &'a [u8]
    ensures { result.now ≡ part_of question.now part }
{
    match part {
        0 => question.bytes.as_slice(),
        1 => question.key.as_slice(),
        _ => question.pair.as_slice(),
    }
}

/// Copies a part of the last question to the front of the caller's memory, if it fits, and tells how many bytes it has:
/// 0 the bytes to sign, 1 the public key's blob, any other the key pair as ADD_IDENTITY has it.
#[unsafe(no_mangle)]
pub extern "C" fn sshc_agent_asked(
    alloc: Global,
    agent: &mut AgentHandle,
    part: u32,
    to: &mut [u8],
    size: &mut usize,
) -> u32
    ensures copied { IfSome agent.old.held.run (λ run.
        CopiedOut (part_of run.question part) to.old to.new size.new result) }
    ensures kept { agent.new.held.run ≡ agent.old.held.run }
    ensures misuse { agent.old.held.run ≡ None → (result ≡ 2) × (size.new ≡ 0) × (to.new ≡ to.old) }
{
    match agent.take(alloc) {
        None => {
            *size = 0;
            MISUSE
        }
        Some(run) => {
            let status = copy_out(part_of(&run.question, part), to, size);
            *agent = AgentHandle::of_box(run);
            status
        }
    }
}

/// Takes an input of a connection at a moment in milliseconds, with the answer to what it asks to be signed: `told` is
/// 0 where nothing was asked, 1 with the signature, any other where it was refused. `number` is that of a request that
/// the user is asked about.
#[unsafe(no_mangle)]
pub extern "C" fn sshc_agent_take(
    alloc: Global,
    agent: &mut AgentHandle,
    now: u64,
    conn: u32,
    input: u32,
    frame: &[u8],
    told: u32,
    signature: &[u8],
    number: &mut u32,
) -> u32
    ensures takes { IfSome agent.old.held.run (λ before. IfSome agent.new.held.run (λ after.
        TakesNumber now conn (input_of input frame.now) (answer_told told signature.now) before.core after.core
        (said_as after.last number.new result))) }
    ensures held { IsSome agent.old.held.run → IsSome agent.new.held.run }
    ensures misuse { agent.old.held.run ≡ None →
        (result ≡ 2) × (number.new ≡ number.old) × (agent.new.held.run ≡ None) }
{
    match agent.take(alloc) {
        None => MISUSE,
        Some(mut run) => {
            let status = run.take(alloc, now, conn, input, frame, told, signature);
            *number = run.number;
            *agent = AgentHandle::of_box(run);
            status
        }
    }
}

/// Copies the bytes of the last output to the front of the caller's memory, if they fit, and tells how many there are.
#[unsafe(no_mangle)]
pub extern "C" fn sshc_agent_answer(
    alloc: Global,
    agent: &mut AgentHandle,
    to: &mut [u8],
    size: &mut usize,
) -> u32
    ensures copied { IfSome agent.old.held.run (λ run. CopiedOut run.last to.old to.new size.new result) }
    ensures kept { agent.new.held.run ≡ agent.old.held.run }
    ensures misuse { agent.old.held.run ≡ None → (result ≡ 2) × (size.new ≡ 0) × (to.new ≡ to.old) }
{
    match agent.take(alloc) {
        None => {
            *size = 0;
            MISUSE
        }
        Some(run) => {
            let status = copy_out(run.last.as_slice(), to, size);
            *agent = AgentHandle::of_box(run);
            status
        }
    }
}

/// Forgets a connection that ended, and whose number no later one has.
#[unsafe(no_mangle)]
pub extern "C" fn sshc_agent_forget(alloc: Global, agent: &mut AgentHandle, conn: u32) -> u32
    ensures forgets { IfSome agent.old.held.run (λ before. IfSome agent.new.held.run (λ after.
        after.core ≡ forgotten conn before.core)) }
    ensures held { IsSome agent.old.held.run → IsSome agent.new.held.run }
    ensures misuse { agent.old.held.run ≡ None → (result ≡ 2) × (agent.new.held.run ≡ None) }
    ensures done { IsSome agent.old.held.run → result ≡ 0 }
{
    match agent.take(alloc) {
        None => MISUSE,
        Some(mut run) => {
            run.forget(conn);
            *agent = AgentHandle::of_box(run);
            OK
        }
    }
}

/// Frees what the struct holds, which is nothing afterwards.
#[unsafe(no_mangle)]
pub extern "C" fn sshc_agent_free(alloc: Global, agent: &mut AgentHandle)
    ensures { agent.new.held.run ≡ None }
{
    match agent.take(alloc) {
        None => {}
        Some(run) => drop(run),
    }
}
