//! The packets by which a user is authenticated, and the bytes that are signed (RFC 4252, RFC 4256, RFC 4462).
#![tactic(auto)]

mod packets;
mod parts;
mod requests;
mod signing;

pub use packets::{
    disconnect_packet, gssapi_complete_packet, gssapi_mic_packet, gssapi_token_packet,
    info_response_packet, service_request_packet,
};
pub use parts::{KeyPart, LentKey, certificate_part, key_part};
pub use requests::{request_packet, write_auth_request};
pub use signing::{mic_data, part_to_sign, signed_packet, to_sign};
