//! The next input of a connection, from the bytes of its stream.

ghost use Rattle.std.specs.Prelude.{◌≡◌, ◌<◌, ◌≤◌, IfOk, Ok, OnErr, length, take, true};
ghost use Rattle.sshc_wire.specs.Contents.{IsAtEnd, prepend};
ghost use Rattle.sshc_wire.specs.Faults.{HasCause};
ghost use Rattle.sshc_agent.specs.Talk.{Fetched, Fetches, ReadsMore, seen};

use sshc_agent_core::{AgentInput, Frames};
use sshc_wire::{AgentStream, Failed, NoMemory};
use std::sync::Wait;

/// How many bytes are read at once.
const PIECE: usize = 4096;

/// Reads into the buffer. Nothing is written to the stream.
fn read_piece<S: AgentStream>(stream: &mut S, buf: &mut [u8]) -> Result<usize, Failed>
    ensures bound { IfOk result (λ n. n ≤ length buf.new) }
    ensures bytes { IfOk result (λ n. S.left stream.old ≡ prepend (take n buf.new) (S.left stream.new)) }
    ensures end { IfOk result (λ n. n ≡ 0 → 0 < length buf.new → IsAtEnd (S.left stream.new)) }
    ensures none { OnErr result (S.left stream.new ≡ S.left stream.old) }
    ensures cause { HasCause (S.Source.faults stream.old) (S.Source.faults stream.new) result }
    ensures unwritten { (S.contents stream.new ≡ S.contents stream.old)
        × (S.Sink.faults stream.new ≡ S.Sink.faults stream.old) }
{
    stream.read(buf)
}

/// Reads more bytes. Returns false if the source ended or failed.
pub(crate) fn read_more<S: AgentStream>(
    stream: &mut S,
    frames: &mut Frames,
) -> Result<bool, NoMemory>
    ensures read { ReadsMore frames.old frames.new
        (seen (S.left stream.old) (S.contents stream.old) (S.Source.faults stream.old) (S.Sink.faults stream.old))
        (seen (S.left stream.new) (S.contents stream.new) (S.Source.faults stream.new) (S.Sink.faults stream.new))
        result }
    ensures later { S.Source.faults stream.old ≤ S.Source.faults stream.new }
    ensures same { result ≡ Ok true → S.Source.faults stream.new ≡ S.Source.faults stream.old }
    ensures unwritten { (S.contents stream.new ≡ S.contents stream.old)
        × (S.Sink.faults stream.new ≡ S.Sink.faults stream.old) }
{
    let mut piece = [0u8; PIECE];
    match read_piece(stream, &mut piece) {
        Ok(0) => Ok(false),
        Ok(count) => {
            frames.push(&piece[..count])?;
            Ok(true)
        }
        Err(Failed::Fault) => Ok(false),
        Err(Failed::NoMemory) => Err(NoMemory),
    }
}

/// The next input in the stream's frames. `None` if the source ended or failed and no whole frame remains.
#[tactic(auto, using(crate::proofs::Reading::ended))]
fn next_input<S: AgentStream, R: Wait>(
    rt: &R,
    stream: &mut S,
    frames: &mut Frames,
) -> Result<Option<AgentInput>, NoMemory>
    ensures fetched { Fetches frames.old frames.new
        (seen (S.left stream.old) (S.contents stream.old) (S.Source.faults stream.old) (S.Sink.faults stream.old))
        (seen (S.left stream.new) (S.contents stream.new) (S.Source.faults stream.new) (S.Sink.faults stream.new))
        result }
    ensures later { S.Source.faults stream.old ≤ S.Source.faults stream.new }
    ensures unwritten { (S.contents stream.new ≡ S.contents stream.old)
        × (S.Sink.faults stream.new ≡ S.Sink.faults stream.old) }
{
    for _ in rt.forever() {
        match frames.next()? {
            Some(input) => return Ok(Some(input)),
            None => match read_more(stream, frames) {
                Ok(true) => {}
                Ok(false) => return Ok(None),
                Err(NoMemory) => return Err(NoMemory),
            },
        }
    }
    unreachable!()
}

/// The input of the next call: the answer to the open question, or the stream's next input.
pub(crate) fn fetch<S: AgentStream, R: Wait>(
    rt: &R,
    stream: &mut S,
    frames: &mut Frames,
    answer: Option<AgentInput>,
) -> Result<Option<AgentInput>, NoMemory>
    ensures fetched { Fetched answer frames.old frames.new
        (seen (S.left stream.old) (S.contents stream.old) (S.Source.faults stream.old) (S.Sink.faults stream.old))
        (seen (S.left stream.new) (S.contents stream.new) (S.Source.faults stream.new) (S.Sink.faults stream.new))
        result }
    ensures later { S.Source.faults stream.old ≤ S.Source.faults stream.new }
    ensures unwritten { (S.contents stream.new ≡ S.contents stream.old)
        × (S.Sink.faults stream.new ≡ S.Sink.faults stream.old) }
{
    match answer {
        Some(input) => Ok(Some(input)),
        None => next_input(rt, stream, frames),
    }
}
