//! Tests of a client's default settings, and of a channel's message as the user's.

use crate::answers::let_go;
use sshc_client::{ChannelMsg, Config, Msg};
use sshc_wire::ChannelId;
use std::test::Fail;

/// Whether these are the settings of a client that is told no others.
fn are_default(config: &Config) -> bool {
    config.client_id.as_str() == "SSH-2.0-russh_0.65.1"
        && config.window_size == 2_097_152
        && config.maximum_packet_size == 32768
        && config.channel_buffer_size == 100
        && config.keepalive_max == 3
        && config.max_events == 8192
        && config.inactivity_timeout.is_none()
        && config.keepalive_interval.is_none()
        && !(config.anonymous || config.nodelay || config.agent_asks)
}

#[test]
fn settings_of_a_client_that_is_told_no_others(rt: HostRuntime) -> Result<(), Fail> {
    let config = Config::default_in(rt.alloc())?;
    assert!(rt; are_default(&config));
    Ok(())
}

fn is_end_of_channel(msg: &Msg) -> bool {
    matches!(msg, Msg::Channel(ChannelId(3), ChannelMsg::Eof))
}

#[test]
fn message_of_a_channel(rt: HostRuntime) {
    let msg = Msg::from((ChannelId(3), ChannelMsg::Eof));
    let is_so = is_end_of_channel(&msg);
    let_go(msg);
    assert!(rt; is_so);
}
