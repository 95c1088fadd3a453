//! What is asked of a handle in many tests, and how the answers are read.

use sshc_auth::Error;
use sshc_client::Msg;
use sshc_handle::{AuthResult, Handle, HandleCalls, KeyboardInteractiveAuthResponse, done_answer};
use sshc_sample_fakes::Keeper;
use sshc_wire::{Disconnect, NoMemory, Record, Text, Ticket};
use std::alloc::Global;
use std::sync::Wait;

/// Lets a value go. A value of many variants goes more cheaply here than where it is used.
pub(crate) fn let_go<T: Drop>(_value: T) {}

/// Both values, if there is memory for both.
pub(crate) fn together<A: Drop, B: Drop>(
    one: Result<A, NoMemory>,
    other: Result<B, NoMemory>,
) -> Result<(A, B), NoMemory> {
    Ok((one?, other?))
}

/// The result of what the session's end dropped.
pub(crate) const GONE: Result<(), Error> = Err(Error::Disconnect);

pub(crate) fn leave<R: Wait>(rt: &R, handle: &Handle<Keeper>) -> Result<(), Error> {
    handle.disconnect(rt, Disconnect::ByApplication, "", "")
}

/// Submits a ping. Without a ticket it is 0.
pub(crate) fn ping<R: Wait>(rt: &R, handle: &Handle<Keeper>) -> Ticket {
    let asked = handle.submit(
        rt,
        Msg::Ping {
            ticket: Some(Ticket(0)),
        },
    );
    match asked {
        Ok(Some(ticket)) => ticket,
        Ok(None) => Ticket(0),
        Err(_) => Ticket(0),
    }
}

/// What a ping was answered, where it was.
pub(crate) fn done(output: Option<Record>) -> Option<Result<(), Error>> {
    match output {
        Some(record) => done_answer(record),
        None => None,
    }
}

/// How a login continues or ends.
#[derive(Clone, Copy, PartialEq, Eq)]
pub(crate) enum Came {
    In,
    /// The server prompts.
    Prompted,
    /// The server refused it.
    Out,
    /// The caller's signer or authenticator refused it.
    Refused,
    Failed(Error),
}

pub(crate) fn logged_in(answer: Result<AuthResult, Error>) -> Came {
    match answer {
        Ok(AuthResult::Success) => Came::In,
        Ok(AuthResult::Failure { .. }) => Came::Out,
        Err(e) => Came::Failed(e),
    }
}

/// What a login by prompts was answered.
pub(crate) fn prompted(answer: Result<KeyboardInteractiveAuthResponse, Error>) -> Came {
    match answer {
        Ok(KeyboardInteractiveAuthResponse::InfoRequest { .. }) => Came::Prompted,
        Ok(KeyboardInteractiveAuthResponse::Failure { .. }) => Came::Out,
        Ok(KeyboardInteractiveAuthResponse::Success) => Came::In,
        Err(e) => Came::Failed(e),
    }
}

fn one_response(alloc: Global) -> Result<Vec<Text>, NoMemory> {
    let mut responses = Vec::new(alloc);
    responses.push(Text::from_str(alloc, "yes")?)?;
    Ok(responses)
}

/// Responds `yes` to one prompt.
pub(crate) fn respond<R: Wait>(rt: &R, alloc: Global, handle: &Handle<Keeper>) -> Came {
    match one_response(alloc) {
        Ok(responses) => prompted(handle.authenticate_keyboard_interactive_respond(rt, responses)),
        Err(NoMemory) => Came::Failed(Error::NoMemory),
    }
}
