//! The program `sshc_proxy_main UPSTREAM POLICY`: it passes standard input and output as the client, real files, Unix
//! sockets and the toy verifier to `proxy_words`. `sshc_proxy_main session UPSTREAM POLICY KNOWN_HOSTS` is the mode that
//! ties each signature to its session.
#![tactic(auto)]

mod naming;
mod session;

use naming::{NoPolicy, policy_at};
use session::SessionRelay;
use sshc_ask::{AgentClient, Duplex, OpenFailed, Opener, UnixOpener};
use sshc_proxy::{ProxyError, proxy_words};
use sshc_toy::ToyVerifier;
use sshc_wire::{AgentStream, NoMemory, StdFiles, StdSink, StdSource, Text};
use std::io::ErrorKind;
use std::process::ExitCode;
use std::{env, io};

/// The status for out of memory.
const NO_MEMORY: u8 = 20;

/// The status for a policy or a known hosts file that can't be read.
const UNREAD_POLICY: u8 = 3;

/// The status for a policy with a bad line.
const BAD_POLICY: u8 = 5;

/// The status for an agent that can't be opened, or whose stream failed.
const AGENT_FAULT: u8 = 22;

/// The arguments after the program's own name; no arguments if one of them isn't text.
fn words_of(rt: &HostRuntime) -> Result<Vec<Text>, NoMemory> {
    let mut words = Vec::new(rt.alloc());
    let mut given = match env::args(rt) {
        Ok(given) => given,
        Err(error) => {
            return match error.kind() {
                ErrorKind::OutOfMemory => Err(NoMemory),
                _ => Ok(words),
            };
        }
    };
    let _program = given.next();
    for word in given {
        words.push(Text::from_string(word)?)?;
    }
    Ok(words)
}

/// The arguments of the mode by session.
#[derive(Clone, Copy)]
struct Places<'a> {
    upstream: &'a str,
    policy: &'a str,
    known_hosts: &'a str,
}

fn session_places(words: &[Text]) -> Option<Places<'_>> {
    match words {
        [mode, upstream, policy, known_hosts] if mode.as_str() == "session" => Some(Places {
            upstream: upstream.as_str(),
            policy: policy.as_str(),
            known_hosts: known_hosts.as_str(),
        }),
        _ => None,
    }
}
/// The status of a run.
fn run_status(ended: Result<(), ProxyError>) -> u8 {
    match ended {
        Ok(()) => 0,
        Err(ProxyError::NoMemory) => NO_MEMORY,
        Err(ProxyError::ClientFault) => 21,
        Err(ProxyError::AgentFault) => AGENT_FAULT,
        Err(ProxyError::TooLong) => 24,
        Err(ProxyError::UnexpectedEnd) => 25,
    }
}

/// The status where there is no policy, which is told on standard error.
fn no_policy(rt: &HostRuntime, why: NoPolicy) -> u8 {
    match why {
        NoPolicy::NoMemory => NO_MEMORY,
        NoPolicy::Unread => {
            let _ = eprintln!(rt; "error unread-policy");
            UNREAD_POLICY
        }
        NoPolicy::NoKeys => AGENT_FAULT,
        NoPolicy::BadLine { line, fault } => {
            let name = fault.name();
            let _ = eprintln!(rt; "error policy {line} {name}");
            BAD_POLICY
        }
    }
}

/// Serves the client by session, with the agent at UPSTREAM.
fn serve_session<S: AgentStream>(rt: &HostRuntime, places: &Places<'_>, client: &mut S) -> u8 {
    let alloc = rt.alloc();
    let mut files = StdFiles::new(rt);
    let mut opener = UnixOpener::new(rt);
    let agent = match opener.open(places.upstream) {
        Ok(agent) => agent,
        Err(OpenFailed::NoMemory) => return NO_MEMORY,
        Err(_) => return AGENT_FAULT,
    };
    let mut asked = AgentClient::connect(alloc, agent);
    match policy_at(
        alloc,
        &mut files,
        &mut asked,
        places.policy,
        places.known_hosts,
    ) {
        Ok(policy) => {
            let mut agent = asked.into_inner();
            let mut relay = SessionRelay::new(alloc, &policy);
            run_status(relay.run(rt, client, &mut agent))
        }
        Err(why) => no_policy(rt, why),
    }
}

fn run(rt: &HostRuntime) -> Result<u8, NoMemory> {
    let words = words_of(rt)?;
    let mut client = Duplex {
        source: StdSource::new(rt.alloc(), rt.reader())?,
        sink: StdSink::new(io::writer(rt)),
    };
    if let Some(places) = session_places(words.as_slice()) {
        return Ok(serve_session(rt, &places, &mut client));
    }
    let mut files = StdFiles::new(rt);
    let mut opener = UnixOpener::new(rt);
    Ok(proxy_words(
        rt.alloc(),
        words.as_slice(),
        &mut files,
        &mut opener,
        &mut client,
        &ToyVerifier::new(rt.alloc()),
    ))
}

fn main(rt: HostRuntime) -> ExitCode {
    match run(&rt) {
        Ok(status) => ExitCode::from(status),
        Err(NoMemory) => ExitCode::from(NO_MEMORY),
    }
}
