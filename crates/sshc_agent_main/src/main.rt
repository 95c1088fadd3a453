//! The program `sshc_agent_main SOCKET [WEIGHT]`: an agent at a Unix socket that runs for months. It tells on standard
//! error what happens.
#![tactic(auto)]

use sshc_agent::{CloseError, Keeper, LastingListener, Past, serve_generations};
use sshc_agent_words::{FreshSigner, SystemClock, UnixAgents};
use std::alloc::Global;
use std::env;
use std::net::Net;
use std::process::ExitCode;
use std::rt::Files;
use std::sync::Wait;
use std::thread::Threads;
use std::time::Clock;

const HELP: &str = "sshc_agent_main SOCKET [WEIGHT]

Runs an SSH agent at the Unix socket SOCKET until it is stopped. The folder of
SOCKET has to be one that only you enter; the socket's mode is 0600.

The agent keeps a history of all its calls. When the history weighs WEIGHT
(64 for each connection and each call, and the bytes of each call's frame;
16777216 if it isn't given), it is compared, call by call, with what the agent
keeps of each connection, and a new one begins. Keys, their lifetimes, the lock,
and open connections with their questions stay as they are.

It signs by toy pairs, which a real server refuses, and answers yes to each
question.

Status: 0 the socket is gone, 2 wrong arguments, 20 out of memory, 46 the socket
can't be made, 47 or 48 the history isn't whole.";

/// The weight of a generation, if none is given.
const WEIGHT: u32 = 16_777_216;

const WRONG_WORDS: u8 = 2;

const NO_MEMORY: u8 = 20;

const NOT_BOUND: u8 = 46;

const TORN: u8 = 47;

const SEATS_OUT: u8 = 48;

/// What the arguments ask for.
#[derive(Drop)]
enum Asked {
    Help,
    Agent { socket: String, weight: u32 },
    Wrong,
}

/// What the arguments after the program's name ask for.
fn words_of(rt: &HostRuntime) -> Asked {
    let Ok(mut words) = env::args(rt) else {
        return Asked::Wrong;
    };
    let _program = words.next();
    let first = words.next();
    let second = words.next();
    match (first, second, words.next()) {
        (Some(word), None, None) => {
            if word.as_str() == "--help" {
                Asked::Help
            } else {
                Asked::Agent {
                    socket: word,
                    weight: WEIGHT,
                }
            }
        }
        (Some(socket), Some(weight), None) => match weight.as_str().parse::<u32>() {
            Ok(weight) => Asked::Agent { socket, weight },
            Err(_) => Asked::Wrong,
        },
        _ => Asked::Wrong,
    }
}

/// Why a history isn't whole, in words.
fn reason(why: &CloseError) -> &'static str {
    match why {
        CloseError::NoMemory => "out of memory",
        CloseError::SeatsOut { .. } => "connections are missing",
        CloseError::Torn { .. } => "a connection's calls differ from the history",
    }
}

/// Tells of each generation on standard error.
#[derive(Drop)]
struct Reports<'a, R> {
    rt: &'a R,
}

impl<'a, R: Eprint + Sync> Keeper for Reports<'a, R> {
    fn keep(&self, past: Past) {
        let calls = past.len();
        let _ = eprintln!(self.rt;
            "history closed: {calls} calls, each compared with its connection's; a new one begins"
        );
    }

    fn keeps_on(&self, why: CloseError) {
        let reason = reason(&why);
        let _ = eprintln!(self.rt;
            "the history is full and can't be closed: {reason}; a request is refused"
        );
    }
}

fn status_of(why: &CloseError) -> u8 {
    match why {
        CloseError::NoMemory => NO_MEMORY,
        CloseError::Torn { .. } => TORN,
        CloseError::SeatsOut { .. } => SEATS_OUT,
    }
}

/// Serves an agent at this socket. Each question to its user is answered with yes.
fn serve<R: Files + Net + Clock + Threads + Wait + Eprint + Sync>(
    rt: &R,
    alloc: Global,
    path: &str,
    weight: u32,
) -> u8 {
    let socket = match UnixAgents::bind(rt, alloc, path) {
        Ok(socket) => socket,
        Err(error) => {
            let _ = eprintln!(rt; "no agent at {path}: {error}");
            return NOT_BOUND;
        }
    };
    let _ = eprintln!(rt; "agent at {path}");
    let mut listener = LastingListener::new(rt, socket);
    match serve_generations(
        rt,
        alloc,
        &mut listener,
        &(),
        &FreshSigner::new(alloc),
        &Reports { rt },
        &SystemClock::new(rt),
        weight,
    ) {
        Ok(past) => {
            let calls = past.len();
            let _ = eprintln!(rt;
                "the socket is gone; history closed: {calls} calls, each compared with its connection's"
            );
            0
        }
        Err(why) => {
            let reason = reason(&why);
            let _ = eprintln!(rt; "the agent ended: {reason}");
            status_of(&why)
        }
    }
}

fn main(rt: HostRuntime) -> ExitCode {
    match words_of(&rt) {
        Asked::Help => {
            let _ = println!(&rt; "{HELP}");
            ExitCode::from(0)
        }
        Asked::Agent { socket, weight } => ExitCode::from(serve(
            &rt,
            rt.alloc(),
            socket.as_str(),
            weight,
        )),
        Asked::Wrong => {
            let _ = eprintln!(&rt; "sshc_agent_main SOCKET [WEIGHT], or --help");
            ExitCode::from(WRONG_WORDS)
        }
    }
}
