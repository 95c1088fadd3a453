//! Writes a frame to a stream (draft-miller-ssh-agent, section 3).

ghost use Rattle.std.specs.Prelude.{◌≡◌, OnErr, OnOk};
ghost use Rattle.sshc_wire.specs.Contents.{WroteFront, append};
ghost use Rattle.sshc_wire.specs.Faults.{HasCause};
ghost use Rattle.sshc_proxy.specs.Frames.{WritesFrame, stream};

use sshc_wire::{AgentStream, Failed, write_whole};

/// Writes the frame. Nothing is read.
fn write_bytes<S: AgentStream>(sink: &mut S, frame: &[u8]) -> Result<(), Failed>
    ensures whole { OnOk result (S.contents sink.new ≡ append (S.contents sink.old) frame.now) }
    ensures cut { OnErr result (WroteFront (S.contents sink.old) (S.contents sink.new) frame.now) }
    ensures cause { HasCause (S.Sink.faults sink.old) (S.Sink.faults sink.new) result }
    ensures unread { (S.left sink.new ≡ S.left sink.old)
        × (S.Source.faults sink.new ≡ S.Source.faults sink.old) }
{
    write_whole(sink, frame)
}

/// Writes a frame that has its length already, whole. After an error a front of it is written.
pub fn write_frame<S: AgentStream>(sink: &mut S, frame: &[u8]) -> Result<(), Failed>
    ensures written { WritesFrame frame.now
        (stream (S.left sink.old) (S.contents sink.old) (S.Source.faults sink.old) (S.Sink.faults sink.old))
        (stream (S.left sink.new) (S.contents sink.new) (S.Source.faults sink.new) (S.Sink.faults sink.new))
        result }
{
    write_bytes(sink, frame)
}
