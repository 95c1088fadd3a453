//! Opens streams to agents by the path of the agent's socket.

ghost use Rattle.std.specs.Prelude.{◌≡◌, ◌↔◌, ◌⊎◌, ℕ, List, Option, None, Err, IfErr, IfOk, option_copied};
ghost use Rattle.sshc_ask.specs.Opens.{Counts, and_path, and_path_in};

use crate::client::AgentClient;
use sshc_key::Error;
use sshc_wire::AgentStream;
use std::alloc::Global;

/// Why a path could not be opened.
#[derive(Clone, Copy, PartialEq, Eq)]
pub enum OpenFailed {
    /// Nothing has this path.
    NotFound,
    /// Opening failed for another reason.
    Other,
    /// Memory ran out.
    NoMemory,
}

/// Opens streams by path, and counts its failures: paths that were not found, and all others except out of memory.
pub trait Opener {
    type Stream: AgentStream;

    /// The paths that it was asked to open, in order; None if contracts can't see them.
    ghost paths: { Self → Option (List (List ℕ)) };

    /// How many of them were not found.
    ghost missing: { Self → ℕ };

    /// How many of them could not be opened for another reason.
    ghost failures: { Self → ℕ };

    fn open(&mut self, path: &str) -> Result<Self::Stream, OpenFailed>
        ensures asked { paths self.new ≡ and_path (paths self.old) path.now }
        ensures not_found { Counts OpenFailed.NotFound (missing self.old) (missing self.new) result }
        ensures other { Counts OpenFailed.Other (failures self.old) (failures self.new) result }
        // A stream that was opened has been neither read nor written to.
        ensures unused { IfOk result (λ s. (Self.Stream.reads s ≡ 0) × (Self.Stream.writes s ≡ 0)) };
}

/// A client of the agent at this path, which is opened once.
pub fn connect_uds<O: Opener>(
    alloc: Global,
    path: &str,
    opener: &mut O,
) -> Result<AgentClient<O::Stream>, Error>
    ensures asked { O.paths opener.new ≡ and_path (O.paths opener.old) path.now }
    ensures fresh { IfOk result (λ client. client.refusals ≡ 0) }
    ensures not_found { Counts Error.BadAuthSock (O.missing opener.old) (O.missing opener.new) result }
    ensures other { Counts Error.ReadFault (O.failures opener.old) (O.failures opener.new) result }
    ensures errors { IfErr result (λ e. (e ≡ Error.BadAuthSock) ⊎ ((e ≡ Error.ReadFault) ⊎ (e ≡ Error.NoMemory))) }
    // The agent has not been asked anything yet.
    ensures unused { IfOk result (λ client. (client.reads ≡ 0) × (client.writes ≡ 0)) }
{
    match opener.open(path) {
        Ok(stream) => Ok(AgentClient::connect(alloc, stream)),
        Err(OpenFailed::NotFound) => Err(Error::BadAuthSock),
        Err(OpenFailed::Other) => Err(Error::ReadFault),
        Err(OpenFailed::NoMemory) => Err(Error::NoMemory),
    }
}

/// A client of the agent whose path is the value of an environment variable such as SSH_AUTH_SOCK; `var` is that value.
/// Without one, nothing is opened, and the result is `EnvVar`.
pub fn connect_env<O: Opener>(
    alloc: Global,
    var: Option<&str>,
    opener: &mut O,
) -> Result<AgentClient<O::Stream>, Error>
    ensures asked { O.paths opener.new ≡ and_path_in (O.paths opener.old) (option_copied var.entry) }
    ensures fresh { IfOk result (λ client. client.refusals ≡ 0) }
    ensures unset { (result ≡ Err Error.EnvVar) ↔ (option_copied var.entry ≡ None) }
    ensures not_found { Counts Error.BadAuthSock (O.missing opener.old) (O.missing opener.new) result }
    ensures other { Counts Error.ReadFault (O.failures opener.old) (O.failures opener.new) result }
    ensures errors { IfErr result
        (λ e. (e ≡ Error.EnvVar) ⊎ ((e ≡ Error.BadAuthSock) ⊎ ((e ≡ Error.ReadFault) ⊎ (e ≡ Error.NoMemory)))) }
    ensures unused { IfOk result (λ client. (client.reads ≡ 0) × (client.writes ≡ 0)) }
{
    match var {
        Some(path) => connect_uds(alloc, path, opener),
        None => Err(Error::EnvVar),
    }
}
