//! Requests to the server that are of no channel.

ghost use Rattle.std.specs.Prelude.{None};
ghost use Rattle.sshc_client.specs.declared.message.Msg.TheVariants as msgs;
ghost use Rattle.sshc_handle_tickets.specs.Answers.{algs_answer, done_answer, port_answer, reply_answer};
ghost use Rattle.sshc_handle_messages.specs.Messages.{asked_ticket};
ghost use Rattle.sshc_handle_calls.specs.Asking.{Asked, Asks, Requests, Tells, Told};
ghost use Rattle.sshc_handle_calls.specs.Lines.{submitted};

use crate::line::{Line, ask, tell};
use crate::reader::{Algs, Done, Port, Reply};
use sshc_auth::Error;
use sshc_client::Msg;
use sshc_handle_messages::{
    asked, cancel_forward, cancel_streamlocal, disconnection, forward, global_request, prove_keys,
    streamlocal,
};
use sshc_key::{HashAlg, PublicKey};
use sshc_wire::{Disconnect, Octets};
use std::alloc::Global;
use std::sync::Wait;

/// Asks the server to listen (RFC 4254, section 7.1), and returns the port; 0 if it is the one that was asked for.
pub fn tcpip_forward<L: Line, R: Wait>(
    rt: &R,
    line: &mut L,
    alloc: Global,
    address: &str,
    port: u32,
) -> Result<u32, Error>
    ensures { Asks port_answer (submitted (msgs.TcpIpForward asked_ticket address.now port))
        (L.calls line.old) (L.calls line.new) result }
{
    let msg = forward(alloc, address, port)?;
    ask::<Port, L, R>(rt, line, msg)
}

/// Asks the server to listen no more (RFC 4254, section 7.1).
pub fn cancel_tcpip_forward<L: Line, R: Wait>(
    rt: &R,
    line: &mut L,
    alloc: Global,
    address: &str,
    port: u32,
) -> Result<(), Error>
    ensures { Asks done_answer (submitted (msgs.CancelTcpIpForward asked_ticket address.now port))
        (L.calls line.old) (L.calls line.new) result }
{
    let msg = cancel_forward(alloc, address, port)?;
    ask::<Done, L, R>(rt, line, msg)
}

/// Asks the server to listen on a Unix socket (OpenSSH's PROTOCOL, section 2.4).
pub fn streamlocal_forward<L: Line, R: Wait>(
    rt: &R,
    line: &mut L,
    alloc: Global,
    path: &str,
) -> Result<(), Error>
    ensures { Asks done_answer (submitted (msgs.StreamLocalForward asked_ticket path.now))
        (L.calls line.old) (L.calls line.new) result }
{
    let msg = streamlocal(alloc, path)?;
    ask::<Done, L, R>(rt, line, msg)
}

/// Asks the server to listen on a Unix socket no more (OpenSSH's PROTOCOL, section 2.4).
pub fn cancel_streamlocal_forward<L: Line, R: Wait>(
    rt: &R,
    line: &mut L,
    alloc: Global,
    path: &str,
) -> Result<(), Error>
    ensures { Asks done_answer (submitted (msgs.CancelStreamLocalForward asked_ticket path.now))
        (L.calls line.old) (L.calls line.new) result }
{
    let msg = cancel_streamlocal(alloc, path)?;
    ask::<Done, L, R>(rt, line, msg)
}

/// Disconnects (RFC 4253, section 11.1).
pub fn disconnect<L: Line, R: Wait>(
    rt: &R,
    line: &mut L,
    alloc: Global,
    reason: Disconnect,
    description: &str,
    language_tag: &str,
) -> Result<(), Error>
    ensures { Tells (msgs.Disconnect reason description.now language_tag.now)
        (L.calls line.old) (L.calls line.new) result }
{
    let msg = disconnection(alloc, reason, description, language_tag)?;
    tell(rt, line, msg)
}

/// Asks for a key exchange (RFC 4253, section 9).
pub fn rekey_soon<L: Line, R: Wait>(rt: &R, line: &mut L) -> Result<(), Error>
    ensures { Told msgs.Rekey (L.calls line.old) (L.calls line.new) result }
{
    tell(rt, line, Msg::Rekey)
}

/// Sends a keepalive, without waiting for an answer.
pub fn send_keepalive<L: Line, R: Wait>(rt: &R, line: &mut L, want_reply: bool) -> Result<(), Error>
    ensures { Told (msgs.Keepalive want_reply) (L.calls line.old) (L.calls line.new) result }
{
    tell(rt, line, Msg::Keepalive { want_reply })
}

/// Sends a keepalive, and waits for its answer.
pub fn send_ping<L: Line, R: Wait>(rt: &R, line: &mut L) -> Result<(), Error>
    ensures { Asked done_answer (submitted (msgs.Ping asked_ticket)) (L.calls line.old) (L.calls line.new) result }
{
    ask::<Done, L, R>(rt, line, Msg::Ping { ticket: asked() })
}

/// Announces to the server that no more sessions will be opened (OpenSSH's PROTOCOL, section 2.2).
pub fn no_more_sessions<L: Line, R: Wait>(
    rt: &R,
    line: &mut L,
    want_reply: bool,
) -> Result<(), Error>
    ensures { Told (msgs.NoMoreSessions want_reply) (L.calls line.old) (L.calls line.new) result }
{
    tell(rt, line, Msg::NoMoreSessions { want_reply })
}

/// Asks the server to prove that it holds these keys (OpenSSH's PROTOCOL, section 2.5).
pub fn hostkeys_prove<L: Line, R: Wait>(
    rt: &R,
    line: &mut L,
    keys: Vec<PublicKey>,
) -> Result<(), Error>
    ensures { Asks done_answer (submitted (msgs.HostKeysProve asked_ticket keys.items))
        (L.calls line.old) (L.calls line.new) result }
{
    let msg = prove_keys(keys)?;
    ask::<Done, L, R>(rt, line, msg)
}

fn ask_globally<L: Line, R: Wait>(
    rt: &R,
    line: &mut L,
    alloc: Global,
    name: &str,
    body: &[u8],
) -> Result<Octets, Error>
    ensures { Asks reply_answer (submitted (msgs.SendGlobalRequest name.now body.now asked_ticket))
        (L.calls line.old) (L.calls line.new) result }
{
    let msg = global_request(alloc, name, body, asked())?;
    ask::<Reply, L, R>(rt, line, msg)
}

fn tell_globally<L: Line, R: Wait>(
    rt: &R,
    line: &mut L,
    alloc: Global,
    name: &str,
    body: &[u8],
) -> Result<(), Error>
    ensures { Tells (msgs.SendGlobalRequest name.now body.now None) (L.calls line.old) (L.calls line.new) result }
{
    let msg = global_request(alloc, name, body, None)?;
    tell(rt, line, msg)
}

/// Sends a global request of the user's own (RFC 4254, section 4). If an answer is asked for, it returns the bytes
/// after the answer's number.
pub fn send_global_request<L: Line, R: Wait>(
    rt: &R,
    line: &mut L,
    alloc: Global,
    name: &str,
    body: &[u8],
    want_reply: bool,
) -> Result<Option<Octets>, Error>
    ensures { Requests name.now body.now want_reply (L.calls line.old) (L.calls line.new) result }
{
    if want_reply {
        match ask_globally(rt, line, alloc, name, body) {
            Ok(reply) => Ok(Some(reply)),
            Err(e) => Err(e),
        }
    } else {
        match tell_globally(rt, line, alloc, name, body) {
            Ok(()) => Ok(None),
            Err(e) => Err(e),
        }
    }
}

/// The best hash for RSA by the names that the server announced (RFC 8308, section 3.1); `None` if it announced none.
pub fn best_supported_rsa_hash<L: Line, R: Wait>(
    rt: &R,
    line: &mut L,
) -> Result<Option<Option<HashAlg>>, Error>
    ensures { Asked algs_answer (submitted (msgs.GetServerSigAlgs asked_ticket))
        (L.calls line.old) (L.calls line.new) result }
{
    ask::<Algs, L, R>(rt, line, Msg::GetServerSigAlgs { ticket: asked() })
}
