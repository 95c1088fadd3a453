//! Logins that involve only the server, the local signer and the user.

ghost use Rattle.std.specs.Prelude.{◌≡◌};
ghost use Rattle.sshc_auth_event.specs.declared.method.Method.TheVariants as methods;
ghost use Rattle.sshc_client.specs.declared.message.Msg.TheVariants as msgs;
ghost use Rattle.sshc_handle_tickets.specs.Answers.{auth_answer, prompt_answer};
ghost use Rattle.sshc_handle_messages.specs.Messages.{asked_ticket};
ghost use Rattle.sshc_handle_calls.specs.Asking.{Asks, Responds};
ghost use Rattle.sshc_handle_calls.specs.Lines.{prompts_started, submitted};

use crate::line::{Line, answer, ask};
use crate::reader::{Login, Prompted};
use sshc_auth::{Error, Method};
use sshc_handle_messages::login;
use sshc_handle_tickets::{AuthResult, KeyboardInteractiveAuthResponse};
use sshc_key::{Certificate, PrivateKey, PrivateKeyWithHashAlg};
use sshc_wire::{List, Text};
use std::alloc::Global;
use std::sync::Wait;

/// Logs in by a method (RFC 4252, section 5).
fn log_in<L: Line, R: Wait>(
    rt: &R,
    line: &mut L,
    alloc: Global,
    user: &str,
    method: Method,
) -> Result<AuthResult, Error>
    ensures { Asks auth_answer (submitted (msgs.Authenticate user.now method asked_ticket))
        (L.calls line.old) (L.calls line.new) result }
{
    let msg = login(alloc, user, method)?;
    ask::<Login, L, R>(rt, line, msg)
}

/// Logs in by the method `none`, with only the user's name (RFC 4252, section 5.2).
pub fn authenticate_none<L: Line, R: Wait>(
    rt: &R,
    line: &mut L,
    alloc: Global,
    user: &str,
) -> Result<AuthResult, Error>
    ensures { Asks auth_answer (submitted (msgs.Authenticate user.now methods.None asked_ticket))
        (L.calls line.old) (L.calls line.new) result }
{
    log_in(rt, line, alloc, user, Method::None)
}

/// Logs in by a password (RFC 4252, section 8).
pub fn authenticate_password<L: Line, R: Wait>(
    rt: &R,
    line: &mut L,
    alloc: Global,
    user: &str,
    password: &str,
) -> Result<AuthResult, Error>
    ensures { Asks auth_answer (submitted (msgs.Authenticate user.now (methods.Password password.now) asked_ticket))
        (L.calls line.old) (L.calls line.new) result }
{
    let password = Text::from_str(alloc, password)?;
    log_in(rt, line, alloc, user, Method::Password { password })
}

/// Logs in by a key pair, with which the session's local signer signs (RFC 4252, section 7).
pub fn authenticate_publickey<L: Line, R: Wait>(
    rt: &R,
    line: &mut L,
    alloc: Global,
    user: &str,
    key: PrivateKeyWithHashAlg,
) -> Result<AuthResult, Error>
    ensures { Asks auth_answer (submitted (msgs.Authenticate user.now (methods.PublicKey key) asked_ticket))
        (L.calls line.old) (L.calls line.new) result }
{
    log_in(rt, line, alloc, user, Method::PublicKey { key })
}

/// Logs in by a certificate, with whose pair the session's local signer signs.
pub fn authenticate_openssh_cert<L: Line, R: Wait>(
    rt: &R,
    line: &mut L,
    alloc: Global,
    user: &str,
    key: PrivateKey,
    cert: Certificate,
) -> Result<AuthResult, Error>
    ensures { Asks auth_answer
        (submitted (msgs.Authenticate user.now (methods.OpenSshCertificate key cert) asked_ticket))
        (L.calls line.old) (L.calls line.new) result }
{
    log_in(
        rt,
        line,
        alloc,
        user,
        Method::OpenSshCertificate { key, cert },
    )
}

/// Begins a login with prompts (RFC 4256, section 3.1).
pub fn start_prompts<L: Line, R: Wait>(
    rt: &R,
    line: &mut L,
    alloc: Global,
    user: &str,
    submethods: &str,
) -> Result<KeyboardInteractiveAuthResponse, Error>
    ensures { Asks prompt_answer (prompts_started user.now submethods.now)
        (L.calls line.old) (L.calls line.new) result }
{
    let user = Text::from_str(alloc, user)?;
    let submethods = Text::from_str(alloc, submethods)?;
    match line.start_prompts(rt, user, submethods)? {
        Some(ticket) => answer::<Prompted, L, R>(rt, line, ticket),
        None => unreachable!(),
    }
}

/// Answers the prompts (RFC 4256, section 3.4) of the login with prompts that was begun last, and waits for its result
/// or its next prompts. `RecvError` if no such login is open.
pub fn respond<L: Line, R: Wait>(
    rt: &R,
    line: &mut L,
    responses: Vec<Text>,
) -> Result<KeyboardInteractiveAuthResponse, Error>
    ensures { Responds prompt_answer responses.items (L.calls line.old) (L.calls line.new) result }
{
    let responses = List::from_vec(responses)?;
    let ticket = line.respond(rt, responses)?;
    answer::<Prompted, L, R>(rt, line, ticket)
}
