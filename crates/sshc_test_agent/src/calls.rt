//! Calls of a shared agent, and what each entry of its history holds.

use sshc_agent_core::{AgentInput, AgentOutput, Entry};
use sshc_agent_shared::{AgentShared, CallRefused, Seat, Settings};
use sshc_toy::ToySigner;
use sshc_wire::{NoMemory, Octets};
use std::alloc::Global;
use std::sync::Wait;

/// Lets a value go. A value of many variants goes more cheaply here than where it is used.
pub(crate) fn let_go<T: Drop>(_value: T) {}

/// A call of this seat with a frame, at this moment. Returns the seat, and why the call was refused if it was.
pub(crate) fn called<L: Settings, R: Wait>(
    rt: &R,
    alloc: Global,
    shared: &AgentShared<L>,
    seat: Seat<L>,
    moment: u64,
    frame: Result<Octets, NoMemory>,
) -> (Seat<L>, Result<(), CallRefused>) {
    let Ok(frame) = frame else {
        return (seat, Err(CallRefused::NoMemory));
    };
    let mut signer = ToySigner::new(alloc);
    let (seat, answer) = shared.call(rt, seat, moment, AgentInput::Frame(frame), &mut signer);
    match answer {
        Ok(output) => {
            let_go(output);
            (seat, Ok(()))
        }
        Err(why) => (seat, Err(why)),
    }
}

/// A list of two.
pub(crate) fn two_of<T: Drop>(alloc: Global, one: T, two: T) -> Option<Vec<T>> {
    let mut list = Vec::new(alloc);
    list.push(one).ok()?;
    list.push(two).ok()?;
    Some(list)
}

/// The bytes of an answer; of another output none.
pub(crate) fn bytes_of(entry: &Entry) -> &[u8] {
    match &entry.output {
        AgentOutput::Answer(frame) => frame.as_slice(),
        _ => &[],
    }
}

/// How many calls of the history are of this connection.
pub(crate) fn calls_of(history: &[Entry], conn: u32) -> usize {
    history.iter().filter(|entry| entry.conn == conn).count()
}
