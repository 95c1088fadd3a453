//! Whether a record's text tells the record.

ghost use Rattle.std.specs.Prelude.{◌≡◌, ◌<◌, ◌^◌, IsTrue, length, map};
ghost use Rattle.std.specs.List.{All, flat_map, join_with_byte, list_all, list_any};
ghost use Rattle.sshc_wire.specs.Methods.{method_name};
ghost use Rattle.sshc_wire.specs.Names.{behind_comma, is_comma};
ghost use Rattle.sshc_wire.specs.Signals.{signal_name, signal_of};
ghost use Rattle.sshc_wire.specs.Wire.{IsShort};
ghost use Rattle.sshc_wire.specs.Fitting.{AreNames, Fits, FitsAgent, FitsAuth, FitsChannel, FitsGssapi, FitsOpen};
ghost use Rattle.sshc_wire.specs.Fitting.{FitsPrompt, FitsResolution, is_listable};

use crate::agent_record::AgentRecord;
use crate::auth_record::{AuthRecord, GssapiRecord, Prompt};
use crate::channel_record::{ChannelRecord, ServerOpen};
use crate::methods::{MethodKind, MethodSet};
use crate::octets::Octets;
use crate::record::Record;
use crate::resolution::Resolution;
use crate::signal::Sig;
use crate::text::Text;

fn has_comma(name: &str) -> bool
    ensures { result ≡ list_any is_comma name.now }
{
    name.as_bytes().contains(&b',')
}

/// Whether a list of names can have this name.
fn is_listable(name: &str) -> bool
    ensures { result ≡ is_listable name.now }
{
    !name.is_empty() && !has_comma(name)
}

fn are_listable(names: &[Text]) -> bool
    ensures { result ≡ list_all is_listable names.now }
{
    names.iter().all(|name| is_listable(name.as_str()))
}

/// Whether a string can hold the names, each with a comma.
fn are_short(names: &[Text]) -> bool
    ensures { IsTrue result → length (flat_map behind_comma names.now) < 2 ^ 32 }
{
    let mut size: u64 = 0;
    for name in names {
        size += name.as_str().len() as u64 + 1;
        if size >= 1 << 32 {
            return false;
        }
    }
    true
}

#[tactic(auto, using(crate::proofs::ToldNames::names_fit))]
fn are_names(names: &[Text]) -> bool
    ensures { IsTrue result → AreNames names.now }
{
    are_listable(names) && are_short(names)
}

/// Whether a string can hold the methods' names.
#[tactic(auto, using(crate::proofs::ToldNames::methods_short))]
fn are_few(methods: &MethodSet) -> bool
    ensures { IsTrue result → IsShort (join_with_byte 44 (map method_name methods.now)) }
{
    methods.as_slice().len() <= MethodKind::ALL.len()
}

/// Whether the signal is the one of its name.
fn names_itself(signal: &Sig) -> bool
    ensures { IsTrue result → signal_of (signal_name signal.now) ≡ signal.now }
{
    match signal {
        Sig::Custom(name) => !matches!(
            name.as_str(),
            "ABRT"
                | "ALRM"
                | "FPE"
                | "HUP"
                | "ILL"
                | "INT"
                | "KILL"
                | "PIPE"
                | "QUIT"
                | "SEGV"
                | "TERM"
                | "USR1"
        ),
        _ => true,
    }
}

fn fits_resolution(resolution: &Resolution) -> bool
    ensures { IsTrue result → FitsResolution resolution.now }
{
    match resolution {
        Resolution::AuthFailure {
            remaining_methods,
            ..
        } => are_few(remaining_methods),
        Resolution::SigAlgs { names, .. } => are_names(names.as_slice()),
        Resolution::ChannelOpened { id } => {
            let _number = id.0;
            true
        }
        Resolution::ForwardPort { port } => {
            let _number = *port;
            true
        }
        Resolution::GlobalReply { body } => {
            let _bytes = body.as_slice();
            true
        }
        _ => true,
    }
}

// What follows does nothing when it runs: the parts' own types say that they fit.

fn fit_prompts(prompts: &[Prompt])
    ensures { All FitsPrompt prompts.now }
{
    for one in prompts {
        let _text = one.prompt.as_str();
    }
}

fn fit_strings(strings: &[Octets])
    ensures { All IsShort strings.now }
{
    for one in strings {
        let _bytes = one.as_slice();
    }
}

fn fit_gssapi(step: &GssapiRecord)
    ensures { FitsGssapi step.now }
{
    match step {
        GssapiRecord::Response {
            mechanism,
            mic_data,
        } => {
            let _mechanism = mechanism.as_slice();
            let _mic = mic_data.as_slice();
        }
        GssapiRecord::Token { token, mic_data } => {
            let _token = token.as_slice();
            let _mic = mic_data.as_slice();
        }
        GssapiRecord::Error {
            major_status,
            minor_status,
            message,
        } => {
            let _major = *major_status;
            let _minor = *minor_status;
            let _message = message.as_str();
        }
        GssapiRecord::ErrorToken { token } => {
            let _token = token.as_slice();
        }
    }
}

fn fit_auth(asked: &AuthRecord)
    ensures { FitsAuth asked.now }
{
    match asked {
        AuthRecord::SignRequest { key, body, .. } => {
            let _key = key.as_slice();
            let _body = body.as_slice();
        }
        AuthRecord::SignRequestCert { cert, body, .. } => {
            let _cert = cert.as_slice();
            let _body = body.as_slice();
        }
        AuthRecord::AuthInfoRequest {
            name,
            instructions,
            prompts,
        } => {
            let _name = name.as_str();
            let _instructions = instructions.as_str();
            fit_prompts(prompts.as_slice());
        }
        AuthRecord::Gssapi(step) => fit_gssapi(step),
    }
}

/// Whether it is one of what has bytes or texts; then their own types say that it fits.
fn fits_with_texts(happened: &ChannelRecord) -> bool
    ensures { IsTrue result → FitsChannel happened.now }
{
    match happened {
        ChannelRecord::Data { body } => {
            let _body = body.as_slice();
            true
        }
        ChannelRecord::ExtendedData { ext, body } => {
            let _ext = *ext;
            let _body = body.as_slice();
            true
        }
        ChannelRecord::OpenFailure {
            description,
            language,
            ..
        } => {
            let _description = description.as_str();
            let _language = language.as_str();
            true
        }
        _ => false,
    }
}

/// Whether it is a signal that its name tells.
fn fits_as_signal(happened: &ChannelRecord) -> bool
    ensures { IsTrue result → FitsChannel happened.now }
{
    match happened {
        ChannelRecord::ExitSignal {
            signal_name,
            error_message,
            lang_tag,
            ..
        } => {
            let _name = signal_name.name();
            let _message = error_message.as_str();
            let _language = lang_tag.as_str();
            names_itself(signal_name)
        }
        _ => false,
    }
}

fn fits_channel(happened: &ChannelRecord) -> bool
    ensures { IsTrue result → FitsChannel happened.now }
{
    match happened {
        ChannelRecord::Open {
            max_packet_size,
            window_size,
        } => {
            let _packet = *max_packet_size;
            let _window = *window_size;
            true
        }
        ChannelRecord::ExitStatus { exit_status } => {
            let _status = *exit_status;
            true
        }
        ChannelRecord::WindowAdjusted { new_size } => {
            let _size = *new_size;
            true
        }
        ChannelRecord::Success
        | ChannelRecord::Failure
        | ChannelRecord::Close
        | ChannelRecord::Eof
        | ChannelRecord::XonXoff { .. } => true,
        _ => fits_with_texts(happened) || fits_as_signal(happened),
    }
}

fn fit_open(opened: &ServerOpen)
    ensures { FitsOpen opened.now }
{
    match opened {
        ServerOpen::DirectTcpIp {
            host_to_connect,
            port_to_connect,
            originator_address,
            originator_port,
        } => {
            let _host = host_to_connect.as_str();
            let _port = *port_to_connect;
            let _originator = originator_address.as_str();
            let _from = *originator_port;
        }
        ServerOpen::DirectStreamLocal { socket_path } => {
            let _path = socket_path.as_str();
        }
        ServerOpen::X11 {
            originator_address,
            originator_port,
        } => {
            let _originator = originator_address.as_str();
            let _from = *originator_port;
        }
        ServerOpen::ForwardedTcpIp {
            connected_address,
            connected_port,
            originator_address,
            originator_port,
        } => {
            let _address = connected_address.as_str();
            let _port = *connected_port;
            let _originator = originator_address.as_str();
            let _from = *originator_port;
        }
        ServerOpen::ForwardedStreamLocal { socket_path } => {
            let _path = socket_path.as_str();
        }
        _ => {}
    }
}

fn fit_agent(answer: &AgentRecord)
    ensures { FitsAgent answer.now }
{
    match answer {
        AgentRecord::Answer(frame) => {
            let _frame = frame.as_slice();
        }
        AgentRecord::AskKey(key) => {
            let _key = key.as_slice();
        }
        _ => {}
    }
}

/// Whether the record's text tells it. It does, but for names that no list of names can have, and for a signal of its
/// own under a standard name. No session reports either.
pub(crate) fn fits(output: &Record) -> bool
    ensures { IsTrue result → Fits output.now }
{
    match output {
        Record::Resolved { ticket, resolution } => {
            let _ticket = ticket.0;
            fits_resolution(resolution)
        }
        Record::Auth { ticket, asked } => {
            let _ticket = ticket.0;
            fit_auth(asked);
            true
        }
        Record::KexDone { kex } => {
            let _kex = kex.as_str();
            true
        }
        Record::AuthBanner { banner } => {
            let _banner = banner.as_str();
            true
        }
        Record::Channel { id, happened } => {
            let _id = id.0;
            fits_channel(happened)
        }
        Record::ServerOpened { id, opened } => {
            let _id = id.0;
            fit_open(opened);
            true
        }
        Record::HostKeysAnnounced { keys } => {
            fit_strings(keys.as_slice());
            true
        }
        Record::Agent { conn, answer } => {
            let _conn = *conn;
            fit_agent(answer);
            true
        }
        _ => true,
    }
}
