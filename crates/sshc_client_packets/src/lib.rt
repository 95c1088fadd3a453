//! The packets of the connection protocol: what is asked of the peer and on channels, and what the peer asks and
//! answers.
#![tactic(auto)]

mod channel_open;
mod channel_packets;
mod channel_request;
mod error;
mod global_request;
mod host_key_proof;
mod law;
mod peer_global;
mod peer_open;
mod peer_request;
mod putting;
mod replies;
mod taking;

pub use channel_open::{
    ChannelOpen, Confirmation, Sender, channel_open_packet, confirmation_packet,
    open_failure_packet,
};
pub use channel_packets::{
    Data, ExtendedData, OpenRefusal, RequestHead, WindowAdjust, read_channel, read_confirmation,
    read_data, read_extended_data, read_open_failure, read_request_head, read_window_adjust,
};
pub use channel_request::{
    ChannelRequest, TerminalSize, channel_failure_packet, channel_request_packet,
    channel_success_packet,
};
pub use error::PacketError;
pub use global_request::{
    GlobalRequest, global_request_packet, request_failure_packet, request_success_packet,
};
pub use host_key_proof::judge_host_key_proof;
pub use law::packet_grammar;
pub use peer_global::{PeerGlobal, key_blobs, read_global_request};
pub use peer_open::{PeerOpen, read_channel_open, read_server_open};
pub use peer_request::{PeerRequest, read_channel_request};
pub use replies::{forward_port, read_nothing};
