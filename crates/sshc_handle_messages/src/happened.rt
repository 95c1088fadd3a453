//! What happened on a channel, as its user sees it.

ghost use Rattle.std.specs.Prelude.{◌≡◌};
ghost use Rattle.sshc_handle_messages.specs.Happened.{channel_msg};

use sshc_auth::ChannelMsg;
use sshc_wire::{ChannelId, ChannelRecord};

/// What happened on the channel of this number, as a message of it. The description in a refusal is left out.
pub fn channel_msg(id: ChannelId, happened: ChannelRecord) -> ChannelMsg
    ensures { result ≡ channel_msg id happened }
{
    match happened {
        ChannelRecord::Open {
            max_packet_size,
            window_size,
        } => ChannelMsg::Open {
            id,
            max_packet_size,
            window_size,
        },
        ChannelRecord::Success => ChannelMsg::Success,
        ChannelRecord::Failure => ChannelMsg::Failure,
        ChannelRecord::Close => ChannelMsg::Close,
        ChannelRecord::Eof => ChannelMsg::Eof,
        ChannelRecord::OpenFailure { reason, .. } => ChannelMsg::OpenFailure(reason),
        ChannelRecord::Data { body } => ChannelMsg::Data { body },
        ChannelRecord::ExtendedData { ext, body } => ChannelMsg::ExtendedData { ext, body },
        ChannelRecord::XonXoff { client_can_do } => ChannelMsg::XonXoff { client_can_do },
        ChannelRecord::ExitStatus { exit_status } => ChannelMsg::ExitStatus { exit_status },
        ChannelRecord::ExitSignal {
            signal_name,
            core_dumped,
            error_message,
            lang_tag,
        } => ChannelMsg::ExitSignal {
            signal_name,
            core_dumped,
            error_message,
            lang_tag,
        },
        ChannelRecord::WindowAdjusted { new_size } => ChannelMsg::WindowAdjusted { new_size },
    }
}
