//! What a pair's threads do for each output.

ghost use Rattle.std.specs.Prelude.{◌≡◌};
ghost use Rattle.sshc_forward.specs.Serving.{deed_for};

use sshc_auth::ChannelMsg;
use sshc_forward_core::FwdOutput;
use sshc_wire::Octets;

/// What is done for an output of a pair.
#[derive(Drop)]
pub(crate) enum Deed {
    /// A message of the channel is submitted.
    Submit(ChannelMsg),
    /// Bytes are written to the stream.
    Write(Octets),
    Nothing,
}

/// Bytes, EOF and close of the channel are submitted, bytes for the stream are written. The end of writing and the
/// stream's close are among the ends that were given, by which the thread that writes does them.
pub(crate) fn deed_for(output: FwdOutput) -> Deed
    ensures { result ≡ deed_for output }
{
    match output {
        FwdOutput::SendData { bytes, .. } => Deed::Submit(ChannelMsg::Data { body: bytes }),
        FwdOutput::SendEof { .. } => Deed::Submit(ChannelMsg::Eof),
        FwdOutput::CloseChannel { .. } => Deed::Submit(ChannelMsg::Close),
        FwdOutput::WriteBytes { bytes, .. } => Deed::Write(bytes),
        FwdOutput::OpenChannel { .. }
        | FwdOutput::EndWriting { .. }
        | FwdOutput::CloseStream { .. } => Deed::Nothing,
    }
}
