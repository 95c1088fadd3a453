//! What a session or an agent reports: packets for the transport, and answers to the user.

ghost use Rattle.std.specs.Prelude.{◌≡◌, ◌<◌, ◌^◌, ◌∷◌, ◌++◌, length, OnErr, OnOk};
ghost use Rattle.std.specs.List.{flat_map};
ghost use Rattle.sshc_wire.specs.Extending.{Extends};
ghost use Rattle.sshc_wire.specs.Records.{agent_text, auth_text, channel_text, gssapi_text, hash_number, open_text};
ghost use Rattle.sshc_wire.specs.Records.{prompt_text, record_text};
ghost use Rattle.sshc_wire.specs.Signals.{signal_name};
ghost use Rattle.sshc_wire.specs.Wire.{bool_text, counted_text, string_text, u32_text};

use crate::agent_record::AgentRecord;
use crate::auth_record::{AuthRecord, GssapiRecord, Prompt};
use crate::channel_id::ChannelId;
use crate::channel_record::{ChannelRecord, ServerOpen};
use crate::error::NoMemory;
use crate::hash_alg::HashAlg;
use crate::list::List;
use crate::octets::Octets;
use crate::put::{put_bool, put_bytes, put_numbered, put_text, put_u32};
use crate::resolution::{Resolution, put_resolution_parts};
use crate::signal::Sig;
use crate::text::Text;
use crate::ticket::Ticket;

/// One thing that a session or an agent reports.
#[derive(PartialEq, Eq, Drop)]
pub enum Record {
    /// A packet for the transport.
    Payload(Octets),
    /// The transport is to begin a key exchange.
    BeginExchange,
    /// The session is open.
    Opened,
    /// A ticket's answer.
    Resolved {
        ticket: Ticket,
        resolution: Resolution,
    },
    /// What the authentication under this ticket asks the user for.
    Auth {
        ticket: Ticket,
        asked: AuthRecord,
    },
    /// A key exchange is done; its method's name.
    KexDone {
        kex: Text,
    },
    /// The server's banner (RFC 4252, section 5.4).
    AuthBanner {
        banner: Text,
    },
    /// What happened on our channel of this number.
    Channel {
        id: ChannelId,
        happened: ChannelRecord,
    },
    /// The server opens a channel, which has this number with us.
    ServerOpened {
        id: ChannelId,
        opened: ServerOpen,
    },
    /// The blobs of the host keys that the server announced and that can be read (OpenSSH's PROTOCOL, section 2.5).
    HostKeysAnnounced {
        keys: List<Octets>,
    },
    /// The agent's answer on a connection.
    Agent {
        conn: u32,
        answer: AgentRecord,
    },
}

/// Writes the record's number and fields, or nothing.
#[tactic(auto, using(crate::proofs::Extended::cut_back))]
pub fn put_record(out: &mut Vec<u8>, output: &Record) -> Result<(), NoMemory>
    ensures ok { OnOk result (out.new.items ≡ out.old.items ++ record_text output.now) }
    ensures err { OnErr result (out.new.items ≡ out.old.items) }
{
    let before = out.len();
    let written = put_parts(out, output);
    if written.is_err() {
        out.truncate(before);
    }
    written
}

/// Writes the record's number and fields. Out of memory, a part of them may be written, as with the functions below.
#[tactic(auto, using(crate::proofs::Hints::extends))]
fn put_parts(out: &mut Vec<u8>, output: &Record) -> Result<(), NoMemory>
    ensures ok { OnOk result (out.new.items ≡ out.old.items ++ record_text output.now) }
    ensures err { OnErr result (Extends out.old.items out.new.items) }
{
    match output {
        Record::Payload(packet) => {
            out.push(0x01)?;
            out.extend_from_slice(packet.as_slice())?;
        }
        Record::BeginExchange => out.push(0x02)?,
        Record::Opened => out.push(0x03)?,
        Record::Resolved { ticket, resolution } => {
            put_numbered(out, 0x04, ticket.0)?;
            put_resolution_parts(out, resolution)?;
        }
        Record::Auth { ticket, asked } => put_auth(out, *ticket, asked)?,
        Record::KexDone { kex } => {
            out.push(0x20)?;
            put_text(out, kex.as_str())?;
        }
        Record::AuthBanner { banner } => {
            out.push(0x21)?;
            put_text(out, banner.as_str())?;
        }
        Record::Channel { id, happened } => put_channel(out, *id, happened)?,
        Record::ServerOpened { id, opened } => {
            put_numbered(out, 0x28, id.0)?;
            put_open(out, opened)?;
        }
        Record::HostKeysAnnounced { keys } => {
            out.push(0x2f)?;
            put_strings(out, keys)?;
        }
        Record::Agent { conn, answer } => put_agent(out, *conn, answer)?,
    }
    Ok(())
}

/// The strings' number, and the strings.
#[tactic(auto, unfolding(crate::specs::Wire::counted_text), using(crate::proofs::Hints::extends))]
fn put_strings(out: &mut Vec<u8>, strings: &List<Octets>) -> Result<(), NoMemory>
    ensures ok { OnOk result (out.new.items ≡ out.old.items ++ counted_text string_text strings.now) }
    ensures err { OnErr result (Extends out.old.items out.new.items) }
{
    let strings = strings.as_slice();
    put_u32(out, strings.len() as u32)?;
    for one in strings {
        put_bytes(out, one.as_slice())?;
    }
    Ok(())
}

#[tactic(auto, using(crate::proofs::Extended::extended, crate::proofs::Extended::unextended))]
fn put_prompt(out: &mut Vec<u8>, prompt: &Prompt) -> Result<(), NoMemory>
    ensures ok { OnOk result (out.new.items ≡ out.old.items ++ prompt_text prompt.now) }
    ensures err { OnErr result (Extends out.old.items out.new.items) }
{
    put_text(out, prompt.prompt.as_str())?;
    put_bool(out, prompt.echo)
}

#[tactic(auto, using(crate::proofs::Hints::extends))]
fn put_each_prompt(out: &mut Vec<u8>, prompts: &[Prompt]) -> Result<(), NoMemory>
    ensures ok { OnOk result (out.new.items ≡ out.old.items ++ flat_map prompt_text prompts.now) }
    ensures err { OnErr result (Extends out.old.items out.new.items) }
{
    for one in prompts {
        put_prompt(out, one)?;
    }
    Ok(())
}

/// The prompts' number, and the prompts.
#[tactic(auto, unfolding(crate::specs::Wire::counted_text), using(crate::proofs::Hints::extends))]
fn put_prompts(out: &mut Vec<u8>, prompts: &List<Prompt>) -> Result<(), NoMemory>
    ensures ok { OnOk result (out.new.items ≡ out.old.items ++ counted_text prompt_text prompts.now) }
    ensures err { OnErr result (Extends out.old.items out.new.items) }
{
    let prompts = prompts.as_slice();
    put_u32(out, prompts.len() as u32)?;
    put_each_prompt(out, prompts)
}

/// The hash's number in one byte.
fn hash_number(hash_alg: Option<HashAlg>) -> u8
    ensures { result ≡ hash_number hash_alg }
{
    match hash_alg {
        None => 0,
        Some(HashAlg::Sha256) => 1,
        Some(HashAlg::Sha512) => 2,
    }
}

/// The blob, the hash and the bytes to be signed.
#[tactic(auto, using(crate::proofs::Extended::extended, crate::proofs::Extended::unextended))]
fn put_sign_request(
    out: &mut Vec<u8>,
    blob: &Octets,
    hash_alg: Option<HashAlg>,
    body: &Octets,
) -> Result<(), NoMemory>
    ensures ok { OnOk result
        (out.new.items ≡ out.old.items ++ string_text blob.now ++ hash_number hash_alg ∷ string_text body.now) }
    ensures err { OnErr result (Extends out.old.items out.new.items) }
{
    put_bytes(out, blob.as_slice())?;
    out.push(hash_number(hash_alg))?;
    put_bytes(out, body.as_slice())
}

/// A number with its kind, and a boolean.
#[tactic(auto, using(crate::proofs::Hints::extends))]
fn put_flag(out: &mut Vec<u8>, kind: u8, n: u32, flag: bool) -> Result<(), NoMemory>
    ensures ok { OnOk result (out.new.items ≡ out.old.items ++ kind ∷ u32_text n ++ bool_text flag) }
    ensures err { OnErr result (Extends out.old.items out.new.items) }
{
    put_numbered(out, kind, n)?;
    put_bool(out, flag)?;
    Ok(())
}

/// A number with its kind, and another number.
#[tactic(auto, using(crate::proofs::Hints::extends))]
fn put_two_numbers(out: &mut Vec<u8>, kind: u8, n: u32, other: u32) -> Result<(), NoMemory>
    ensures ok { OnOk result (out.new.items ≡ out.old.items ++ kind ∷ u32_text n ++ u32_text other) }
    ensures err { OnErr result (Extends out.old.items out.new.items) }
{
    put_numbered(out, kind, n)?;
    put_u32(out, other)?;
    Ok(())
}

/// An address and a port.
#[tactic(auto, using(crate::proofs::Extended::extended, crate::proofs::Extended::unextended))]
fn put_address(out: &mut Vec<u8>, address: &Text, port: u32) -> Result<(), NoMemory>
    ensures ok { OnOk result (out.new.items ≡ out.old.items ++ string_text address.now ++ u32_text port) }
    ensures err { OnErr result (Extends out.old.items out.new.items) }
{
    put_text(out, address.as_str())?;
    put_u32(out, port)
}

/// Two strings.
#[tactic(auto, using(crate::proofs::Extended::extended, crate::proofs::Extended::unextended))]
fn put_two(out: &mut Vec<u8>, first: &[u8], second: &[u8]) -> Result<(), NoMemory>
    requires first { length first.now < 2 ^ 32 }
    requires second { length second.now < 2 ^ 32 }
    ensures ok { OnOk result (out.new.items ≡ out.old.items ++ string_text first.now ++ string_text second.now) }
    ensures err { OnErr result (Extends out.old.items out.new.items) }
{
    put_bytes(out, first)?;
    put_bytes(out, second)
}

#[tactic(auto, unfolding(crate::specs::Records::auth_text), using(crate::proofs::Hints::extends))]
fn put_auth(out: &mut Vec<u8>, ticket: Ticket, asked: &AuthRecord) -> Result<(), NoMemory>
    ensures ok { OnOk result (out.new.items ≡ out.old.items ++ auth_text ticket.0 asked.now) }
    ensures err { OnErr result (Extends out.old.items out.new.items) }
{
    match asked {
        AuthRecord::SignRequest {
            key,
            hash_alg,
            body,
        } => {
            put_numbered(out, 0x05, ticket.0)?;
            put_sign_request(out, key, *hash_alg, body)
        }
        AuthRecord::SignRequestCert {
            cert,
            hash_alg,
            body,
        } => {
            put_numbered(out, 0x06, ticket.0)?;
            put_sign_request(out, cert, *hash_alg, body)
        }
        AuthRecord::AuthInfoRequest {
            name,
            instructions,
            prompts,
        } => {
            put_numbered(out, 0x07, ticket.0)?;
            put_two(
                out,
                name.as_str().as_bytes(),
                instructions.as_str().as_bytes(),
            )?;
            put_prompts(out, prompts)
        }
        AuthRecord::Gssapi(step) => put_gssapi(out, ticket, step),
    }
}

#[tactic(auto, unfolding(crate::specs::Records::gssapi_text), using(crate::proofs::Hints::extends))]
fn put_gssapi(out: &mut Vec<u8>, ticket: Ticket, step: &GssapiRecord) -> Result<(), NoMemory>
    ensures ok { OnOk result (out.new.items ≡ out.old.items ++ gssapi_text ticket.0 step.now) }
    ensures err { OnErr result (Extends out.old.items out.new.items) }
{
    match step {
        GssapiRecord::Response {
            mechanism,
            mic_data,
        } => {
            put_numbered(out, 0x08, ticket.0)?;
            put_two(out, mechanism.as_slice(), mic_data.as_slice())
        }
        GssapiRecord::Token { token, mic_data } => {
            put_numbered(out, 0x09, ticket.0)?;
            put_two(out, token.as_slice(), mic_data.as_slice())
        }
        GssapiRecord::Error {
            major_status,
            minor_status,
            message,
        } => {
            put_numbered(out, 0x0a, ticket.0)?;
            put_u32(out, *major_status)?;
            put_u32(out, *minor_status)?;
            put_text(out, message.as_str())?;
            Ok(())
        }
        GssapiRecord::ErrorToken { token } => {
            put_numbered(out, 0x0b, ticket.0)?;
            put_bytes(out, token.as_slice())?;
            Ok(())
        }
    }
}

/// A number with its kind, and bytes.
#[tactic(auto, using(crate::proofs::Hints::extends))]
fn put_body(out: &mut Vec<u8>, kind: u8, n: u32, body: &Octets) -> Result<(), NoMemory>
    ensures ok { OnOk result (out.new.items ≡ out.old.items ++ kind ∷ u32_text n ++ string_text body.now) }
    ensures err { OnErr result (Extends out.old.items out.new.items) }
{
    put_numbered(out, kind, n)?;
    put_bytes(out, body.as_slice())
}

/// A number with its kind, another number, and two texts.
#[tactic(auto, using(crate::proofs::Hints::extends))]
fn put_told(
    out: &mut Vec<u8>,
    kind: u8,
    n: u32,
    other: u32,
    message: &Text,
    language: &Text,
) -> Result<(), NoMemory>
    ensures ok { OnOk result
        (out.new.items
        ≡ out.old.items ++ kind ∷ u32_text n ++ u32_text other ++ string_text message.now ++ string_text language.now) }
    ensures err { OnErr result (Extends out.old.items out.new.items) }
{
    put_two_numbers(out, kind, n, other)?;
    put_two(
        out,
        message.as_str().as_bytes(),
        language.as_str().as_bytes(),
    )
}

/// A signal that ended a command: its name, whether it left a core, a message in its language.
#[tactic(auto, using(crate::proofs::Hints::extends))]
fn put_exit_signal(
    out: &mut Vec<u8>,
    signal: &Sig,
    core_dumped: bool,
    message: &Text,
    language: &Text,
) -> Result<(), NoMemory>
    ensures ok { OnOk result
        (out.new.items
        ≡ out.old.items ++ string_text (signal_name signal.now) ++ bool_text core_dumped ++ string_text message.now
        ++ string_text language.now) }
    ensures err { OnErr result (Extends out.old.items out.new.items) }
{
    put_text(out, signal.name())?;
    put_bool(out, core_dumped)?;
    put_two(
        out,
        message.as_str().as_bytes(),
        language.as_str().as_bytes(),
    )
}

/// What happened on a channel: the record's number, the channel, the fields.
#[tactic(auto, unfolding(crate::specs::Records::channel_text), using(crate::proofs::Hints::extends))]
fn put_channel(out: &mut Vec<u8>, id: ChannelId, happened: &ChannelRecord) -> Result<(), NoMemory>
    ensures ok { OnOk result (out.new.items ≡ out.old.items ++ channel_text id.0 happened.now) }
    ensures err { OnErr result (Extends out.old.items out.new.items) }
{
    match happened {
        ChannelRecord::Open {
            max_packet_size,
            window_size,
        } => {
            put_two_numbers(out, 0x22, id.0, *max_packet_size)?;
            put_u32(out, *window_size)
        }
        ChannelRecord::Success => put_numbered(out, 0x23, id.0),
        ChannelRecord::Failure => put_numbered(out, 0x24, id.0),
        ChannelRecord::Close => put_numbered(out, 0x25, id.0),
        ChannelRecord::Eof => put_numbered(out, 0x26, id.0),
        ChannelRecord::OpenFailure {
            reason,
            description,
            language,
        } => put_told(out, 0x27, id.0, reason.code(), description, language),
        ChannelRecord::Data { body } => put_body(out, 0x29, id.0, body),
        ChannelRecord::ExtendedData { ext, body } => {
            put_two_numbers(out, 0x2a, id.0, *ext)?;
            put_bytes(out, body.as_slice())
        }
        ChannelRecord::WindowAdjusted { new_size } => put_two_numbers(out, 0x2e, id.0, *new_size),
        ChannelRecord::XonXoff { client_can_do } => put_flag(out, 0x2b, id.0, *client_can_do),
        ChannelRecord::ExitStatus { exit_status } => {
            put_two_numbers(out, 0x2c, id.0, *exit_status)
        }
        ChannelRecord::ExitSignal {
            signal_name,
            core_dumped,
            error_message,
            lang_tag,
        } => {
            put_numbered(out, 0x2d, id.0)?;
            put_exit_signal(out, signal_name, *core_dumped, error_message, lang_tag)
        }
    }
}

/// The number of a type whose one field is a path, and the path.
#[tactic(auto, using(crate::proofs::Hints::extends))]
fn put_path(out: &mut Vec<u8>, number: u8, path: &Text) -> Result<(), NoMemory>
    ensures ok { OnOk result (out.new.items ≡ out.old.items ++ number ∷ string_text path.now) }
    ensures err { OnErr result (Extends out.old.items out.new.items) }
{
    out.push(number)?;
    put_text(out, path.as_str())
}

/// A channel that the server opens: the number of its type, the fields.
#[tactic(auto, unfolding(crate::specs::Records::open_text), using(crate::proofs::Hints::extends))]
fn put_open(out: &mut Vec<u8>, opened: &ServerOpen) -> Result<(), NoMemory>
    ensures ok { OnOk result (out.new.items ≡ out.old.items ++ open_text opened.now) }
    ensures err { OnErr result (Extends out.old.items out.new.items) }
{
    match opened {
        ServerOpen::Session => Ok(out.push(0)?),
        ServerOpen::DirectTcpIp {
            host_to_connect,
            port_to_connect,
            originator_address,
            originator_port,
        } => {
            out.push(1)?;
            put_address(out, host_to_connect, *port_to_connect)?;
            put_address(out, originator_address, *originator_port)
        }
        ServerOpen::DirectStreamLocal { socket_path } => put_path(out, 2, socket_path),
        ServerOpen::X11 {
            originator_address,
            originator_port,
        } => {
            out.push(3)?;
            put_address(out, originator_address, *originator_port)
        }
        ServerOpen::ForwardedTcpIp {
            connected_address,
            connected_port,
            originator_address,
            originator_port,
        } => {
            out.push(4)?;
            put_address(out, connected_address, *connected_port)?;
            put_address(out, originator_address, *originator_port)
        }
        ServerOpen::ForwardedStreamLocal { socket_path } => put_path(out, 5, socket_path),
        ServerOpen::AgentForward => Ok(out.push(6)?),
        ServerOpen::Unknown => Ok(out.push(7)?),
    }
}

#[tactic(auto, unfolding(crate::specs::Records::agent_text), using(crate::proofs::Hints::extends))]
fn put_agent(out: &mut Vec<u8>, conn: u32, answer: &AgentRecord) -> Result<(), NoMemory>
    ensures ok { OnOk result (out.new.items ≡ out.old.items ++ agent_text conn answer.now) }
    ensures err { OnErr result (Extends out.old.items out.new.items) }
{
    match answer {
        AgentRecord::Answer(frame) => {
            put_numbered(out, 0x40, conn)?;
            put_bytes(out, frame.as_slice())?;
        }
        AgentRecord::AskRequest(message) => {
            put_numbered(out, 0x41, conn)?;
            out.push(*message as u8)?;
        }
        AgentRecord::AskKey(key) => {
            put_numbered(out, 0x42, conn)?;
            put_bytes(out, key.as_slice())?;
        }
        AgentRecord::Closed(fault) => {
            put_numbered(out, 0x43, conn)?;
            out.push(*fault as u8)?;
        }
    }
    Ok(())
}
