//! Sends a frame and reads its answer (draft-miller-ssh-agent, section 3).

ghost use Rattle.std.specs.Prelude.{◌≡◌, ◌+◌, ◌≤◌, length};
ghost use Rattle.sshc_ask.specs.SourceState.{sink_state, source_state, ReadsAnswer, ReadsLength, ReadsPart};
ghost use Rattle.sshc_ask.specs.SourceState.{WritesFrame};

use sshc_key::Error;
use sshc_key::agent_msg::MAX_AGENT_FRAME_LEN;
use sshc_wire::{Failed, Sink, Source, frame_length, read_up_to, write_whole};
use std::alloc::Global;

/// Writes a frame.
pub(crate) fn send<K: Sink>(sink: &mut K, frame: &[u8]) -> Result<(), Error>
    ensures written { WritesFrame frame.now (sink_state (K.contents sink.old) (K.writes sink.old) (K.faults sink.old))
        (sink_state (K.contents sink.new) (K.writes sink.new) (K.faults sink.new)) result }
    ensures writes { K.writes sink.new ≤ K.writes sink.old + length frame.now + 1 }
    ensures apart { K.beside sink.new ≡ K.beside sink.old }
{
    match write_whole(sink, frame) {
        Ok(()) => Ok(()),
        Err(Failed::Fault) => Err(Error::WriteFault),
        Err(Failed::NoMemory) => Err(Error::NoMemory),
    }
}

/// Reads `count` bytes. A source that ends before them is an unexpected end.
fn read_part<S: Source>(alloc: Global, source: &mut S, count: usize) -> Result<Vec<u8>, Error>
    ensures read { ReadsPart count (source_state (S.left source.old) (S.reads source.old) (S.faults source.old))
        (source_state (S.left source.new) (S.reads source.new) (S.faults source.new)) result }
    ensures apart { S.beside source.new ≡ S.beside source.old }
{
    if count == 0 {
        return Ok(Vec::new(alloc));
    }
    match read_up_to(alloc, source, count) {
        Ok(bytes) => {
            if bytes.len() < count {
                return Err(Error::UnexpectedEnd);
            }
            Ok(bytes)
        }
        Err(Failed::Fault) => Err(Error::ReadFault),
        Err(Failed::NoMemory) => Err(Error::NoMemory),
    }
}

/// Reads the length of an answer.
fn read_length<S: Source>(alloc: Global, source: &mut S) -> Result<u32, Error>
    ensures read { ReadsLength (source_state (S.left source.old) (S.reads source.old) (S.faults source.old))
        (source_state (S.left source.new) (S.reads source.new) (S.faults source.new)) result }
    ensures apart { S.beside source.new ≡ S.beside source.old }
{
    let bytes = read_part(alloc, source, 4)?;
    Ok(frame_length(&bytes))
}

/// Reads an answer. Nothing is allocated for a length above the limit.
pub(crate) fn read_answer<S: Source>(alloc: Global, source: &mut S) -> Result<Vec<u8>, Error>
    ensures read { ReadsAnswer (source_state (S.left source.old) (S.reads source.old) (S.faults source.old))
        (source_state (S.left source.new) (S.reads source.new) (S.faults source.new)) result }
    ensures apart { S.beside source.new ≡ S.beside source.old }
{
    let length = read_length(alloc, source)?;
    if length > MAX_AGENT_FRAME_LEN {
        return Err(Error::AgentProtocolError);
    }
    read_part(alloc, source, length as usize)
}
