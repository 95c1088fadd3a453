//! Rows of the replies to global requests of ours, each for the oldest request (RFC 4254, section 4).

ghost use Rattle.std.specs.Prelude.{◌≡◌, IfOk, option_copied};
ghost use Rattle.sshc_client_packets.specs.HostKeyProof.{proof_judged};
ghost use Rattle.sshc_client_table.specs.SessionTable.Replies.{bare_row, failure_for, failure_of, port_answer};
ghost use Rattle.sshc_client_table.specs.SessionTable.Replies.{proof_answer, replied_row, request_failure_row};
ghost use Rattle.sshc_client_table.specs.SessionTable.Replies.{request_success_row, success_of};
ghost use Rattle.sshc_client_rows.specs.Follows.{Follows, Succeeds};

use crate::flow::RowFlow;
use sshc_auth::Error;
use sshc_client_packets::{forward_port, judge_host_key_proof, read_nothing};
use sshc_client_state::Connection;
use sshc_client_table::{ReplyEntry, ReplyKind};
use sshc_key::{PublicKey, Verifier};
use sshc_wire::{List, NoMemory, Octets, Resolution};
use std::alloc::Global;

/// A port that can't be read counts as a denial.
fn port_answer(port: Option<u32>) -> Resolution
    ensures { result ≡ port_answer port }
{
    match port {
        Some(port) => Resolution::ForwardPort { port },
        None => Resolution::Denied,
    }
}

/// The answer to a request that the server refused.
fn failure_of(kind: ReplyKind) -> Option<Resolution>
    ensures { result ≡ failure_of kind }
{
    match kind {
        ReplyKind::Ping => Some(Resolution::Pong),
        ReplyKind::Keepalive => None,
        ReplyKind::NoMoreSessions => None,
        _ => Some(Resolution::Denied),
    }
}

fn proof_answer<V: Verifier>(
    alloc: Global,
    verifier: &V,
    session_id: &[u8],
    keys: &List<PublicKey>,
    body: &[u8],
) -> Result<Resolution, NoMemory>
    ensures { IfOk result
        (λ r. r ≡ proof_answer (proof_judged (V.accepts verifier.now) session_id.now keys.now body.now)) }
{
    match judge_host_key_proof(alloc, verifier, session_id, keys.as_slice(), body)? {
        Ok(()) => Ok(Resolution::HostKeysProved),
        Err(fault) => Ok(Resolution::HostKeysRefused(fault)),
    }
}

fn replied(session: &mut Connection, resolution: Option<Resolution>) -> Result<RowFlow, Error>
    ensures row { Follows (replied_row resolution) session.old session.new result }
{
    session.reply(resolution)?;
    Ok(RowFlow::Went)
}

/// REQUEST_FAILURE (RFC 4254, section 4).
#[tactic(auto, unfolding(sshc_client_table::specs::SessionTable::Replies::request_failure_row))]
pub fn request_failure(session: &mut Connection, body: &[u8]) -> Result<RowFlow, Error>
    ensures row { Follows (request_failure_row session.old body.now) session.old session.new result }
{
    read_nothing(body)?;
    failed(session)
}

/// The oldest request failed.
fn failed(session: &mut Connection) -> Result<RowFlow, Error>
    ensures row { Follows (failure_for session.old.replies) session.old session.new result }
{
    let answer = match session.first_reply() {
        Some(first) => failure_of(first.kind),
        None => return Ok(RowFlow::Went),
    };
    replied(session, answer)
}

/// REQUEST_SUCCESS (RFC 4254, section 4), by what the oldest request asked. If no request waits, the reply isn't read.
#[tactic(auto, unfolding(sshc_client_table::specs::SessionTable::Replies::request_success_row))]
pub fn request_success<V: Verifier>(
    session: &mut Connection,
    body: &[u8],
    verifier: &V,
) -> Result<RowFlow, Error>
    ensures row { Follows (request_success_row (V.accepts verifier.now) session.old body.now) session.old session.new
        result }
{
    let answer = match session.first_reply() {
        Some(first) => success_of(
            session.alloc(),
            verifier,
            session.opening().session_id(),
            first,
            body,
        ),
        None => return Ok(RowFlow::Went),
    };
    match answer {
        Ok(answer) => replied(session, answer),
        Err(e) => Err(e),
    }
}

/// The answer to a request that the server granted.
fn success_of<V: Verifier>(
    alloc: Global,
    verifier: &V,
    session_id: &[u8],
    first: &ReplyEntry,
    body: &[u8],
) -> Result<Option<Resolution>, Error>
    ensures { Succeeds (success_of (V.accepts verifier.now) session_id.now first.now.kind first.now.keys body.now)
        result }
{
    match first.kind {
        ReplyKind::Forward => Ok(Some(port_answer(forward_port(body)))),
        ReplyKind::Done => bare_answer(body, Some(Resolution::Done)),
        ReplyKind::Ping => bare_answer(body, Some(Resolution::Pong)),
        ReplyKind::Keepalive => bare_answer(body, None),
        ReplyKind::NoMoreSessions => bare_answer(body, None),
        ReplyKind::Proof => Ok(Some(proof_answer(alloc, verifier, session_id, &first.keys, body)?)),
        ReplyKind::Own => Ok(Some(Resolution::GlobalReply {
            body: Octets::from_slice(alloc, body)?,
        })),
    }
}

/// Returns the answer, if no bytes follow.
fn bare_answer(body: &[u8], answer: Option<Resolution>) -> Result<Option<Resolution>, Error>
    ensures { Succeeds (bare_row body.now answer) result }
{
    read_nothing(body)?;
    Ok(answer)
}
