//! The line from a call to its session, and the two ways to use it.

ghost use Rattle.std.specs.Prelude.{◌≡◌, [], ◌∷◌, true, IfErr};
ghost use Rattle.sshc_handle_tickets.specs.Tickets.{is_of};
ghost use Rattle.sshc_handle_state.specs.Submission.{asks_answer};
ghost use Rattle.sshc_handle_calls.specs.Asking.{Asked, Reads, Told};
ghost use Rattle.sshc_handle_calls.specs.Lines.{Calls, CannotRespond, Given, gains, prompts_started, responded};
ghost use Rattle.sshc_handle_calls.specs.Lines.{submitted, taken};

use crate::reader::Reader;
use sshc_auth::Error;
use sshc_client::Msg;
use sshc_wire::{List, Record, Text, Ticket};
use std::sync::Wait;

/// What the calls of a handle need of a session: it takes messages, and returns the records of tickets. It keeps the
/// list of its calls with their results, as far as that is known.
pub trait Line {
    /// The calls so far, in order; `None` if they aren't known.
    ghost calls: { Self → Calls };

    /// Submits a message. It returns a ticket if and only if the message asks for an answer.
    fn submit<R: Wait>(&mut self, rt: &R, msg: Msg) -> Result<Option<Ticket>, Error>
        ensures call { calls self.new ≡ gains (calls self.old) (submitted msg result ∷ []) }
        ensures given { Given (asks_answer msg) result };

    /// Submits a login with prompts (RFC 4256), whose ticket is the one that responses are for.
    fn start_prompts<R: Wait>(
        &mut self,
        rt: &R,
        user: Text,
        submethods: Text,
    ) -> Result<Option<Ticket>, Error>
        ensures call { calls self.new ≡ gains (calls self.old) (prompts_started user submethods result ∷ []) }
        ensures given { Given true result };

    /// Submits responses to prompts, and returns the ticket of the login that asked. `RecvError` if none is open.
    fn respond<R: Wait>(&mut self, rt: &R, responses: List<Text>) -> Result<Ticket, Error>
        ensures call { calls self.new ≡ gains (calls self.old) (responded responses result ∷ []) }
        ensures cause { IfErr result CannotRespond };

    /// Waits for the next record of this ticket, and takes it.
    fn record<R: Wait>(&mut self, rt: &R, ticket: Ticket) -> Record
        ensures call { calls self.new ≡ gains (calls self.old) (taken ticket result ∷ []) }
        ensures of_ticket { is_of ticket.0 result ≡ true };
}

/// Waits for the answer with this ticket; records that the reader doesn't read are passed over.
#[tactic(auto, using(crate::proofs::AskingLemmas::nothing_passed, crate::proofs::AskingLemmas::one_more_passed))]
pub(crate) fn answer<A: Reader, L: Line, R: Wait>(
    rt: &R,
    line: &mut L,
    ticket: Ticket,
) -> Result<A::Answer, Error>
    ensures { Reads A.reads ticket (L.calls line.old) (L.calls line.new) result }
{
    for _ in rt.forever() {
        if let Some(answer) = A::read(line.record(rt, ticket)) {
            return answer;
        }
    }
    unreachable!()
}

/// Submits a message that asks for an answer, and waits for it.
pub(crate) fn ask<A: Reader, L: Line, R: Wait>(
    rt: &R,
    line: &mut L,
    msg: Msg,
) -> Result<A::Answer, Error>
    requires { asks_answer msg ≡ true }
    ensures { Asked A.reads (submitted msg) (L.calls line.old) (L.calls line.new) result }
{
    match line.submit(rt, msg)? {
        Some(ticket) => answer::<A, L, R>(rt, line, ticket),
        None => unreachable!(),
    }
}

/// Submits a message, without waiting for an answer.
pub(crate) fn tell<L: Line, R: Wait>(rt: &R, line: &mut L, msg: Msg) -> Result<(), Error>
    ensures { Told msg (L.calls line.old) (L.calls line.new) result }
{
    let _ticket = line.submit(rt, msg)?;
    Ok(())
}
