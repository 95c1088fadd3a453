//! Runs the command-line arguments `agent SOCKET`.

ghost use Rattle.std.specs.Prelude.{◌≡◌, ◌≢◌, ◌↔◌, IsSome};
ghost use Rattle.sshc_agent_words.specs.AgentWords.{EndsAgent, IsAgent, error_status};

use crate::clock::SystemClock;
use crate::listener::UnixAgents;
use crate::signer::FreshSigner;
use sshc_agent::{LastingListener, serve};
use sshc_agent_shared::CloseError;
use sshc_wire::Text;
use std::alloc::{AllocGlobal, Global};
use std::net::Net;
use std::rt::Files;
use std::sync::Wait;
use std::thread::Threads;
use std::time::Clock;

/// The greatest weight of an agent's journal: 64 for each connection and each call, and the bytes of each call's frame.
const JOURNAL_LIMIT: u32 = 268_435_456;

/// The server ended because its listener failed.
const ENDED: u8 = 0;

const WRONG_WORDS: u8 = 2;

const NO_MEMORY: u8 = 20;

const NOT_BOUND: u8 = 46;

const TORN: u8 = 47;

const SEATS_OUT: u8 = 48;

/// The path of the socket, if the arguments are `agent` and a path.
fn socket_of(words: &[Text]) -> Option<&str>
    ensures { IsSome result ↔ IsAgent words.now }
{
    match words {
        [agent, socket] => {
            if agent.as_str() == "agent" {
                Some(socket.as_str())
            } else {
                None
            }
        }
        _ => None,
    }
}

/// The exit status for an error of the server.
fn status_of(why: CloseError) -> u8
    ensures status { result ≡ error_status why }
    ensures other { result ≢ 2 }
{
    match why {
        CloseError::NoMemory => NO_MEMORY,
        CloseError::Torn { .. } => TORN,
        CloseError::SeatsOut { .. } => SEATS_OUT,
    }
}

/// Serves an agent at this socket. Each question to its user is answered with yes.
fn serve_at<R: Files + Net + Clock + Threads + Wait + Sync>(rt: &R, alloc: Global, path: &str) -> u8
    ensures ends { EndsAgent result }
    ensures other { result ≢ 2 }
{
    let Ok(socket) = UnixAgents::bind(rt, alloc, path) else {
        return NOT_BOUND;
    };
    let mut listener = LastingListener::new(rt, socket);
    match serve(
        rt,
        alloc,
        &mut listener,
        &(),
        &FreshSigner::new(alloc),
        &(),
        &SystemClock::new(rt),
        JOURNAL_LIMIT,
    ) {
        Ok(_history) => ENDED,
        Err(why) => status_of(why),
    }
}

/// Runs an agent at a Unix socket, if the arguments are `agent` and its path. Returns an exit status: 0 if the listener
/// failed, 2 for invalid arguments, 20 out of memory, 46 if the socket can't be created, 47 and 48 if the history isn't
/// whole.
pub fn serve_words<R: Files + Net + Clock + Threads + Wait + Sync>(
    rt: &R,
    alloc: Global,
    words: &[Text],
) -> u8
    ensures words { (result ≡ 2) ↔ (IsAgent words.now → ⊥) }
    ensures ends { IsAgent words.now → EndsAgent result }
{
    match socket_of(words) {
        Some(path) => serve_at(rt, alloc, path),
        None => WRONG_WORDS,
    }
}
