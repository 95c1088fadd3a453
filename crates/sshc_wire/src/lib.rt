//! The data types of the wire, the traits of the outside, and what a session says.
#![tactic(auto)]

mod agent_record;
mod agent_stream;
mod auth_record;
mod channel_id;
mod channel_open_failure;
mod channel_record;
mod clock;
mod cursor;
mod digits;
mod disconnect;
mod error;
mod files;
mod fitting;
mod frame;
mod hash_alg;
mod list;
mod memory;
mod message_type;
mod methods;
pub mod msg;
mod names;
mod octets;
mod outbox;
mod place;
mod pty;
mod put;
mod reading;
mod record;
mod resolution;
mod signal;
mod sink;
mod slow;
mod source;
mod system;
mod text;
mod texts;
mod ticket;

pub use agent_record::{AgentFault, AgentRecord};
pub use agent_stream::AgentStream;
pub use auth_record::{AuthRecord, GssapiRecord, Prompt};
pub use channel_id::ChannelId;
pub use channel_open_failure::ChannelOpenFailure;
pub use channel_record::{ChannelRecord, ServerOpen};
pub use clock::Clock;
pub use cursor::Cursor;
pub use digits::digit_line;
pub use disconnect::Disconnect;
pub use error::{NoMemory, RecordError, WireError};
pub use files::{Files, Found};
pub use frame::{frame_length, framed};
pub use hash_alg::HashAlg;
pub use list::List;
pub use memory::{MemFiles, MemSink, MemSource};
pub use message_type::MessageType;
pub use methods::{MethodKind, MethodSet, put_methods};
pub use names::{Names, put_names};
pub use octets::Octets;
pub use outbox::Outbox;
pub use pty::Pty;
pub use put::{
    begin_string, end_string, put_bool, put_bytes, put_string, put_text, put_u32, put_u64,
    string_size,
};
pub use reading::read_record;
pub use record::{Record, put_record};
pub use resolution::{HostKeysFault, Resolution, put_resolution};
pub use signal::Sig;
pub use sink::{Sink, write_whole};
pub use slow::{PieceSink, PieceSource};
pub use source::{Failed, Source, read_front, read_into, read_up_to};
pub use system::{StdFiles, StdSink, StdSource};
pub use text::Text;
pub use ticket::Ticket;
