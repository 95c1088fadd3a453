//! Runs the command-line arguments `UPSTREAM POLICY`.

ghost use Rattle.std.specs.Prelude.{◌≡◌, ◌≢◌, ◌∷◌, [], IfOk, IfSome, IsNone, string_bytes};
ghost use Rattle.sshc_proxy.specs.Frames.{stream};
ghost use Rattle.sshc_proxy.specs.Policy.{Rule};
ghost use Rattle.sshc_proxy.specs.ProxyRun.{terms};
ghost use Rattle.sshc_proxy.specs.ProxyWords.{AreTwo, IsPolicyAt, Proxying, ProxyEnds, Says, Serving, opened, outside};
ghost use Rattle.sshc_proxy.specs.ProxyWords.{policy_line, run_status};

use crate::error::{PolicyError, ProxyError};
use crate::policy::Policy;
use crate::policy_text::parse_policy;
use crate::relay::proxy_run;
use crate::writing::write_frame;
use sshc_ask::{OpenFailed, Opener};
use sshc_key::Verifier;
use sshc_wire::{AgentStream, Failed, Files, Found, NoMemory, Text};
use std::alloc::Global;

/// The client's bytes were read to their end.
const SERVED: u8 = 0;

const WRONG_WORDS: u8 = 2;

const UNREAD_POLICY: u8 = 3;

const BAD_POLICY: u8 = 5;

const NO_MEMORY: u8 = 20;

const CLIENT_FAULT: u8 = 21;

const AGENT_FAULT: u8 = 22;

const TOO_LONG: u8 = 24;

const UNEXPECTED_END: u8 = 25;

/// The two arguments.
#[derive(Clone, Copy)]
struct Places<'a> {
    /// The path of the agent's socket.
    upstream: &'a str,
    /// The path of the policy.
    policy: &'a str,
}

/// Why there is no policy.
#[derive(Clone, Copy, PartialEq, Eq)]
enum NoPolicy {
    NoMemory,
    /// The file wasn't opened, isn't text, or a read failed.
    Unread,
    /// The first bad line.
    BadLine { line: u64 },
}

/// The arguments, if there are two.
fn two_words<'a>(words: &'a [Text]) -> Option<Places<'a>>
    ensures some { IfSome result (λ places. words.now ≡ places.upstream.now ∷ places.policy.now ∷ []) }
    ensures none { IsNone result → AreTwo words.now → ⊥ }
{
    if words.len() == 2 {
        Some(Places {
            upstream: words[0].as_str(),
            policy: words[1].as_str(),
        })
    } else {
        None
    }
}

/// The policy in the file at the path.
fn policy_at<F: Files>(alloc: Global, files: &mut F, path: &str) -> Result<Policy, NoPolicy>
    ensures policy { IsPolicyAt (F.contents files.old) path.now
        (F.read_faults files.old) (F.read_faults files.new) result }
    ensures same { F.contents files.new ≡ F.contents files.old }
{
    match files.read_text(path) {
        Ok(Found::Text(text)) => match parse_policy(alloc, text.as_str()) {
            Ok(policy) => Ok(policy),
            Err(PolicyError::BadLine { line }) => Err(NoPolicy::BadLine { line }),
            Err(PolicyError::NoMemory) => Err(NoPolicy::NoMemory),
        },
        Ok(Found::NotOpened) => Err(NoPolicy::Unread),
        Ok(Found::NotText) => Err(NoPolicy::Unread),
        Err(Failed::Fault) => Err(NoPolicy::Unread),
        Err(Failed::NoMemory) => Err(NoPolicy::NoMemory),
    }
}

/// Writes a line to the client, and returns its status, or that of a failed write.
fn say<S: AgentStream>(client: &mut S, line: &str, status: u8) -> u8
    ensures says { Says line.now status
        (stream (S.left client.old) (S.contents client.old) (S.Source.faults client.old) (S.Sink.faults client.old))
        (stream (S.left client.new) (S.contents client.new) (S.Source.faults client.new) (S.Sink.faults client.new))
        result }
{
    match write_frame(client, line.as_bytes()) {
        Ok(()) => status,
        Err(Failed::Fault) => CLIENT_FAULT,
        Err(Failed::NoMemory) => NO_MEMORY,
    }
}

/// The line for a policy whose first bad line this is.
fn policy_line(alloc: Global, line: u64) -> Result<String, NoMemory>
    ensures { IfOk result (λ text. string_bytes text ≡ policy_line line) }
{
    Ok(format!(in alloc; "error policy {line}\n")?)
}

/// Writes the line for a policy whose first bad line this is.
fn say_bad_line<S: AgentStream>(alloc: Global, client: &mut S, line: u64) -> u8
    ensures says { Says (policy_line line) 5
        (stream (S.left client.old) (S.contents client.old) (S.Source.faults client.old) (S.Sink.faults client.old))
        (stream (S.left client.new) (S.contents client.new) (S.Source.faults client.new) (S.Sink.faults client.new))
        result }
{
    match policy_line(alloc, line) {
        Ok(text) => say(client, text.as_str(), BAD_POLICY),
        Err(NoMemory) => NO_MEMORY,
    }
}

/// The status of a run.
fn run_status(ended: Result<(), ProxyError>) -> u8
    ensures { result ≡ run_status ended }
{
    match ended {
        Ok(()) => SERVED,
        Err(ProxyError::NoMemory) => NO_MEMORY,
        Err(ProxyError::ClientFault) => CLIENT_FAULT,
        Err(ProxyError::AgentFault) => AGENT_FAULT,
        Err(ProxyError::TooLong) => TOO_LONG,
        Err(ProxyError::UnexpectedEnd) => UNEXPECTED_END,
    }
}

/// Serves the client with the agent at the path.
fn serve<S: AgentStream, O: Opener, V: Verifier>(
    policy: Policy,
    upstream: &str,
    opener: &mut O,
    client: &mut S,
    verifier: &V,
) -> u8
where
    O::Stream: Drop,
    ensures serving { Serving (terms (V.accepts verifier.now) policy) upstream.now
        (opened (O.paths opener.old) (O.missing opener.old) (O.failures opener.old))
        (opened (O.paths opener.new) (O.missing opener.new) (O.failures opener.new))
        (stream (S.left client.old) (S.contents client.old) (S.Source.faults client.old) (S.Sink.faults client.old))
        (stream (S.left client.new) (S.contents client.new) (S.Source.faults client.new) (S.Sink.faults client.new))
        result }
{
    match opener.open(upstream) {
        Ok(agent) => {
            let mut agent = agent;
            let ended = proxy_run(policy, client, &mut agent, verifier);
            run_status(ended)
        }
        Err(OpenFailed::NotFound) => AGENT_FAULT,
        Err(OpenFailed::Other) => AGENT_FAULT,
        Err(OpenFailed::NoMemory) => NO_MEMORY,
    }
}

/// Runs the program with its two arguments.
fn proxy_places<F: Files, S: AgentStream, O: Opener, V: Verifier>(
    alloc: Global,
    places: Places<'_>,
    files: &mut F,
    opener: &mut O,
    client: &mut S,
    verifier: &V,
) -> u8
where
    O::Stream: Drop,
    ensures same { F.contents files.new ≡ F.contents files.old }
    ensures ends { Proxying (V.accepts verifier.now) places.entry.upstream.now places.entry.policy.now
        (outside (F.contents files.old) (F.read_faults files.old)
        (opened (O.paths opener.old) (O.missing opener.old) (O.failures opener.old))
        (stream (S.left client.old) (S.contents client.old) (S.Source.faults client.old) (S.Sink.faults client.old)))
        (outside (F.contents files.new) (F.read_faults files.new)
        (opened (O.paths opener.new) (O.missing opener.new) (O.failures opener.new))
        (stream (S.left client.new) (S.contents client.new) (S.Source.faults client.new) (S.Sink.faults client.new)))
        result }
    ensures two { result ≢ 2 }
{
    match policy_at(alloc, files, places.policy) {
        Ok(policy) => serve(policy, places.upstream, opener, client, verifier),
        Err(NoPolicy::BadLine { line }) => say_bad_line(alloc, client, line),
        Err(NoPolicy::Unread) => UNREAD_POLICY,
        Err(NoPolicy::NoMemory) => NO_MEMORY,
    }
}

/// Serves the client with the agent at UPSTREAM, by the policy in the file POLICY, where these are the arguments.
/// Returns an exit status: 0 at the end of the client's bytes; 2 for other arguments, with the line `error words`; 3
/// where the policy can't be read; 5 for a bad line of it, with the line `error policy LINE`; 20 out of memory; 21
/// where the client's stream failed; 22 where the agent's failed or couldn't be opened; 24 at a length above 262144; 25
/// where a stream ended too early. The lines go to the client.
pub fn proxy_words<F: Files, S: AgentStream, O: Opener, V: Verifier>(
    alloc: Global,
    words: &[Text],
    files: &mut F,
    opener: &mut O,
    client: &mut S,
    verifier: &V,
) -> u8
where
    O::Stream: Drop,
    ensures same { F.contents files.new ≡ F.contents files.old }
    ensures ends { ProxyEnds (V.accepts verifier.now) words.now
        (outside (F.contents files.old) (F.read_faults files.old)
        (opened (O.paths opener.old) (O.missing opener.old) (O.failures opener.old))
        (stream (S.left client.old) (S.contents client.old) (S.Source.faults client.old) (S.Sink.faults client.old)))
        (outside (F.contents files.new) (F.read_faults files.new)
        (opened (O.paths opener.new) (O.missing opener.new) (O.failures opener.new))
        (stream (S.left client.new) (S.contents client.new) (S.Source.faults client.new) (S.Sink.faults client.new)))
        result }
    ensures words { result ≡ 2 → AreTwo words.now → ⊥ }
{
    match two_words(words) {
        Some(places) => proxy_places(alloc, places, files, opener, client, verifier),
        None => say(client, "error words\n", WRONG_WORDS),
    }
}
