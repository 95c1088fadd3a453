//! Reads a frame from a stream (draft-miller-ssh-agent, section 3).

ghost use Rattle.std.specs.Prelude.{◌≡◌, ◌+◌, ◌<◌, ◌≤◌, ℕ, List, OnErr, OnOk, length};
ghost use Rattle.sshc_wire.specs.Contents.{IsAtEnd, prepend};
ghost use Rattle.sshc_wire.specs.Faults.{HasCause};
ghost use Rattle.sshc_proxy.specs.Frames.{LengthIn, ReadsBody, ReadsFrame, ReadsLength, ReadsPiece, stream};

use crate::broken::Broken;
use sshc_key::agent_msg::MAX_AGENT_FRAME_LEN;
use sshc_wire::{AgentStream, Failed, frame_length, read_into};

/// How many bytes a length has.
const LENGTH_BYTES: usize = 4;

/// Reads so many bytes into the buffer, or all that there are. Nothing is written.
fn read_bytes<S: AgentStream>(
    source: &mut S,
    bytes: &mut Vec<u8>,
    count: usize,
) -> Result<(), Failed>
    requires { 0 < count }
    ensures bytes { OnOk result (S.left source.old ≡ prepend bytes.new.items (S.left source.new)) }
    ensures bound { OnOk result (length bytes.new.items ≤ count) }
    ensures end { OnOk result (length bytes.new.items < count → IsAtEnd (S.left source.new)) }
    ensures none { OnErr result ((given : List ℕ) × (length given < count)
        × (S.left source.old ≡ prepend given (S.left source.new))
        × (S.reads source.new ≤ S.reads source.old + length given + 1)) }
    ensures cause { HasCause (S.Source.faults source.old) (S.Source.faults source.new) result }
    ensures unwritten { (S.contents source.new ≡ S.contents source.old)
        × (S.Sink.faults source.new ≡ S.Sink.faults source.old) }
{
    read_into(bytes, source, count)
}

/// The same, as one fact of the stream.
fn read_piece<S: AgentStream>(
    source: &mut S,
    piece: &mut Vec<u8>,
    count: usize,
) -> Result<(), Failed>
    requires { 0 < count }
    ensures read { ReadsPiece count piece.new.items
        (stream (S.left source.old) (S.contents source.old) (S.Source.faults source.old) (S.Sink.faults source.old))
        (stream (S.left source.new) (S.contents source.new) (S.Source.faults source.new) (S.Sink.faults source.new))
        result }
{
    read_bytes(source, piece, count)
}

/// The number in the bytes of a length.
fn length_in(bytes: &[u8]) -> Result<Option<u32>, Broken>
    requires { length bytes.now ≤ 4 }
    ensures { LengthIn bytes.now result }
{
    if bytes.is_empty() {
        return Ok(None);
    }
    if bytes.len() < LENGTH_BYTES {
        return Err(Broken::UnexpectedEnd);
    }
    let length = frame_length(bytes);
    if length > MAX_AGENT_FRAME_LEN {
        return Err(Broken::TooLong);
    }
    Ok(Some(length))
}

/// Reads a frame's length. `None` if the bytes had ended before it.
#[tactic(auto, using(crate::proofs::Hints::read_length))]
fn read_length<S: AgentStream>(source: &mut S, bytes: &mut Vec<u8>) -> Result<Option<u32>, Broken>
    ensures read { ReadsLength
        (stream (S.left source.old) (S.contents source.old) (S.Source.faults source.old) (S.Sink.faults source.old))
        (stream (S.left source.new) (S.contents source.new) (S.Source.faults source.new) (S.Sink.faults source.new))
        result }
{
    match read_piece(source, bytes, LENGTH_BYTES) {
        Ok(()) => length_in(bytes.as_slice()),
        Err(Failed::Fault) => Err(Broken::Fault),
        Err(Failed::NoMemory) => Err(Broken::NoMemory),
    }
}

/// Reads `count` bytes.
#[tactic(auto, using(crate::proofs::FrameLemmas::nothing_read))]
fn read_body<S: AgentStream>(
    source: &mut S,
    frame: &mut Vec<u8>,
    count: usize,
) -> Result<(), Broken>
    ensures read { ReadsBody count frame.new.items
        (stream (S.left source.old) (S.contents source.old) (S.Source.faults source.old) (S.Sink.faults source.old))
        (stream (S.left source.new) (S.contents source.new) (S.Source.faults source.new) (S.Sink.faults source.new))
        result }
{
    if count == 0 {
        frame.clear();
        return Ok(());
    }
    match read_piece(source, frame, count) {
        Ok(()) => {
            if frame.len() < count {
                Err(Broken::UnexpectedEnd)
            } else {
                Ok(())
            }
        }
        Err(Failed::Fault) => Err(Broken::Fault),
        Err(Failed::NoMemory) => Err(Broken::NoMemory),
    }
}

/// Reads a frame into the buffer, without its length. Returns false if the bytes had ended before it. Nothing is
/// allocated for a length above the limit, and no byte behind it is read.
pub fn read_frame<S: AgentStream>(source: &mut S, frame: &mut Vec<u8>) -> Result<bool, Broken>
    ensures read { ReadsFrame frame.new.items
        (stream (S.left source.old) (S.contents source.old) (S.Source.faults source.old) (S.Sink.faults source.old))
        (stream (S.left source.new) (S.contents source.new) (S.Source.faults source.new) (S.Sink.faults source.new))
        result }
{
    match read_length(source, frame) {
        Ok(Some(length)) => match read_body(source, frame, length as usize) {
            Ok(()) => Ok(true),
            Err(broken) => Err(broken),
        },
        Ok(None) => Ok(false),
        Err(broken) => Err(broken),
    }
}
