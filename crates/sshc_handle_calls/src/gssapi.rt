//! Logins whose steps by GSSAPI the caller's own authenticator makes (RFC 4462, section 3).

ghost use Rattle.std.specs.Prelude.{◌≡◌, ◌≤◌, ℕ, List, Option, Some, None, OnErr};
ghost use Rattle.sshc_wire.specs.Faults.{Rose};
ghost use Rattle.sshc_auth_event.specs.declared.method.Method.TheVariants as methods;
ghost use Rattle.sshc_client.specs.declared.message.Msg.TheVariants as msgs;
ghost use Rattle.sshc_handle_messages.specs.Messages.{asked_ticket};
ghost use Rattle.sshc_handle_calls.specs.Lines.{submitted};
ghost use Rattle.sshc_handle_calls.specs.Rounds.{Until, or_record};
ghost use Rattle.sshc_handle_calls.specs.Gssapi.{Authenticates, AuthenticatorCall, Reports, Steps, StepsAndTells};
ghost use Rattle.sshc_handle_calls.specs.Gssapi.{StepsIn, SteppingRound, authenticator_at, completed, gssapi_said};
ghost use Rattle.sshc_handle_calls.specs.Gssapi.{reported, step_in, step_msg, stepped, stepping_at, then_call};

use crate::line::{Line, tell};
use crate::signing::read_login;
use crate::with_error::WithError;
use sshc_auth::{Error, GssapiAuthenticator, GssapiError, GssapiStep, Method};
use sshc_client::Msg;
use sshc_handle_messages::login;
use sshc_handle_tickets::AuthResult;
use sshc_wire::{AuthRecord, GssapiRecord, List as Listed, NoMemory, Octets, Record, Ticket};
use std::alloc::Global;
use std::sync::Wait;

/// An authenticator that keeps the list of its calls with their answers, as far as that is known, and a count of its
/// refusals. Each `GssapiAuthenticator` is one, whose list isn't known.
pub trait LoggedAuthenticator {
    type Refusal;

    ghost calls: { Self → Option (List AuthenticatorCall) };

    ghost refusals: { Self → ℕ };

    /// The next step, as of a `GssapiAuthenticator`. Each error is a refusal that is counted.
    fn step_for_login(
        &mut self,
        selected_mechanism: Option<Octets>,
        token: Option<Octets>,
        mic_data: Octets,
    ) -> Result<GssapiStep, Self::Refusal>
        ensures call { calls self.new ≡ then_call (calls self.old)
            (stepped selected_mechanism token mic_data (step_in result)) }
        ensures cause { OnErr result (Rose (refusals self.old) (refusals self.new)) }
        ensures later { refusals self.old ≤ refusals self.new };

    /// The server reported an error.
    fn report_for_login(&mut self, error: GssapiError)
        ensures call { calls self.new ≡ then_call (calls self.old) (reported error) }
        ensures later { refusals self.old ≤ refusals self.new };
}

impl<G: GssapiAuthenticator> LoggedAuthenticator for G {
    type Refusal = G::Error;

    ghost calls = { λ g. None };

    ghost refusals = { λ g. G.refusals g };

    fn step_for_login(
        &mut self,
        selected_mechanism: Option<Octets>,
        token: Option<Octets>,
        mic_data: Octets,
    ) -> Result<GssapiStep, G::Error> {
        self.gssapi_step(selected_mechanism, token, mic_data)
    }

    fn report_for_login(&mut self, error: GssapiError) {
        self.gssapi_error(error)
    }
}

/// What the server said by GSSAPI, or the record if it is of another kind (RFC 4462, section 3).
fn gssapi_said(output: Record) -> Result<GssapiRecord, Record>
    ensures { result ≡ or_record (gssapi_said output) output }
{
    match output {
        Record::Auth {
            asked: AuthRecord::Gssapi(output),
            ..
        } => Ok(output),
        other => Err(other),
    }
}

/// What a step of an authenticator submits (RFC 4462, sections 3.4 to 3.6).
fn step_msg(step: GssapiStep) -> Msg
    ensures { result ≡ step_msg step }
{
    match step {
        GssapiStep::Continue { token } => Msg::AuthGssapiToken { token },
        GssapiStep::Complete { token, mic } => completed(token, mic),
    }
}

fn completed(token: Option<Octets>, mic: Option<Octets>) -> Msg
    ensures { result ≡ completed token mic }
{
    match mic {
        Some(mic) => Msg::AuthGssapiMic { token, mic },
        None => Msg::AuthGssapiExchangeComplete { token },
    }
}

/// The next step of an authenticator, as what it submits.
fn step<G: LoggedAuthenticator>(
    authenticator: &mut G,
    mechanism: Option<Octets>,
    token: Option<Octets>,
    mic_data: Octets,
) -> Result<Option<Msg>, G::Refusal>
    ensures { Steps mechanism token mic_data
        (authenticator_at (G.calls authenticator.old) (G.refusals authenticator.old))
        (authenticator_at (G.calls authenticator.new) (G.refusals authenticator.new)) result }
{
    match authenticator.step_for_login(mechanism, token, mic_data) {
        Ok(step) => Ok(Some(step_msg(step))),
        Err(e) => Err(e),
    }
}

/// Tells the authenticator of an error.
fn report<G: LoggedAuthenticator>(
    authenticator: &mut G,
    error: GssapiError,
) -> Result<Option<Msg>, G::Refusal>
    ensures { Reports error
        (authenticator_at (G.calls authenticator.old) (G.refusals authenticator.old))
        (authenticator_at (G.calls authenticator.new) (G.refusals authenticator.new)) result }
{
    authenticator.report_for_login(error);
    Ok(None)
}

/// The message to submit after the authenticator was passed what the server said: its step, or `None` if an error was
/// reported.
fn authenticated<G: LoggedAuthenticator>(
    authenticator: &mut G,
    output: GssapiRecord,
) -> Result<Option<Msg>, G::Refusal>
    ensures { Authenticates output
        (authenticator_at (G.calls authenticator.old) (G.refusals authenticator.old))
        (authenticator_at (G.calls authenticator.new) (G.refusals authenticator.new)) result }
{
    match output {
        GssapiRecord::Response {
            mechanism,
            mic_data,
        } => step(authenticator, Some(mechanism), None, mic_data),
        GssapiRecord::Token { token, mic_data } => step(authenticator, None, Some(token), mic_data),
        GssapiRecord::Error {
            major_status,
            minor_status,
            message,
        } => report(
            authenticator,
            GssapiError::Status {
                major_status,
                minor_status,
                message,
            },
        ),
        GssapiRecord::ErrorToken { token } => report(authenticator, GssapiError::ErrorToken(token)),
    }
}

/// Passes the authenticator what the server said, and submits its step, if there is one.
fn step_and_tell<G: LoggedAuthenticator, L: Line, R: Wait>(
    rt: &R,
    line: &mut L,
    output: GssapiRecord,
    authenticator: &mut G,
) -> Result<(), WithError<G::Refusal>>
    ensures { StepsAndTells output
        (stepping_at (L.calls line.old) (G.calls authenticator.old) (G.refusals authenticator.old))
        (stepping_at (L.calls line.new) (G.calls authenticator.new) (G.refusals authenticator.new)) result }
{
    match authenticated(authenticator, output) {
        Ok(Some(msg)) => match tell(rt, line, msg) {
            Ok(()) => Ok(()),
            Err(e) => Err(WithError::Session(e)),
        },
        Ok(None) => Ok(()),
        Err(e) => Err(WithError::Signer(e)),
    }
}

/// Waits for the next record of a login, and deals with it. It returns the login's result if the record has it.
fn step_once<G: LoggedAuthenticator, L: Line, R: Wait>(
    rt: &R,
    line: &mut L,
    ticket: Ticket,
    authenticator: &mut G,
) -> Result<Option<AuthResult>, WithError<G::Refusal>>
    ensures { SteppingRound ticket
        (stepping_at (L.calls line.old) (G.calls authenticator.old) (G.refusals authenticator.old))
        (stepping_at (L.calls line.new) (G.calls authenticator.new) (G.refusals authenticator.new)) result }
{
    match gssapi_said(line.record(rt, ticket)) {
        Ok(output) => match step_and_tell(rt, line, output, authenticator) {
            Ok(()) => Ok(None),
            Err(e) => Err(e),
        },
        Err(output) => read_login(output),
    }
}

/// Waits for the answer to a login, and makes the steps that it asks for.
#[tactic(auto, using(crate::proofs::RoundLemmas::no_round, crate::proofs::RoundLemmas::one_round_more))]
fn step_until_answered<G: LoggedAuthenticator, L: Line, R: Wait>(
    rt: &R,
    line: &mut L,
    ticket: Ticket,
    authenticator: &mut G,
) -> Result<AuthResult, WithError<G::Refusal>>
    ensures { Until (SteppingRound ticket)
        (stepping_at (L.calls line.old) (G.calls authenticator.old) (G.refusals authenticator.old))
        (stepping_at (L.calls line.new) (G.calls authenticator.new) (G.refusals authenticator.new)) result }
{
    for _ in rt.forever() {
        match step_once(rt, line, ticket, authenticator) {
            Ok(Some(answer)) => return Ok(answer),
            Ok(None) => {}
            Err(e) => return Err(e),
        }
    }
    unreachable!()
}

/// Logs in by a method whose steps the authenticator makes.
fn log_in_by_steps<G: LoggedAuthenticator, L: Line, R: Wait>(
    rt: &R,
    line: &mut L,
    alloc: Global,
    user: &str,
    method: Method,
    authenticator: &mut G,
) -> Result<AuthResult, WithError<G::Refusal>>
    ensures { StepsIn (submitted (msgs.Authenticate user.now method asked_ticket))
        (stepping_at (L.calls line.old) (G.calls authenticator.old) (G.refusals authenticator.old))
        (stepping_at (L.calls line.new) (G.calls authenticator.new) (G.refusals authenticator.new)) result }
{
    match login(alloc, user, method) {
        Ok(msg) => match line.submit(rt, msg) {
            Ok(Some(ticket)) => step_until_answered(rt, line, ticket, authenticator),
            Ok(None) => unreachable!(),
            Err(e) => Err(WithError::Session(e)),
        },
        Err(NoMemory) => Err(WithError::Session(Error::NoMemory)),
    }
}

/// Logs in by GSSAPI with one of these mechanisms (RFC 4462, section 3). A refusal of the authenticator is returned as
/// `Signer`, and nothing is submitted for it.
pub fn authenticate_gssapi_with_mic<G: LoggedAuthenticator, L: Line, R: Wait>(
    rt: &R,
    line: &mut L,
    alloc: Global,
    user: &str,
    mechanism_oids: Vec<Octets>,
    authenticator: &mut G,
) -> Result<AuthResult, WithError<G::Refusal>>
    ensures { StepsIn (submitted (msgs.Authenticate user.now (methods.GssapiWithMic mechanism_oids.items) asked_ticket))
        (stepping_at (L.calls line.old) (G.calls authenticator.old) (G.refusals authenticator.old))
        (stepping_at (L.calls line.new) (G.calls authenticator.new) (G.refusals authenticator.new)) result }
{
    match Listed::from_vec(mechanism_oids) {
        Ok(mechanism_oids) => log_in_by_steps(
            rt,
            line,
            alloc,
            user,
            Method::GssapiWithMic { mechanism_oids },
            authenticator,
        ),
        Err(NoMemory) => Err(WithError::Session(Error::NoMemory)),
    }
}
