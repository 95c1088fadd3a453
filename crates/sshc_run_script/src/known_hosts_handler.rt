//! The handler of a script: it judges host keys by a known hosts text, and keeps all other defaults.

ghost use Rattle.std.specs.Prelude.{◌≡◌, ◌≤◌, ◌∷◌, [], ℕ, List, IfOk, OnErr};
ghost use Rattle.sshc_hosts.specs.HostText.{host_text};
ghost use Rattle.sshc_client.specs.Handling.{ended_by};
ghost use Rattle.sshc_run_script.specs.declared.known_hosts_handler.HandlerError.TheVariants as errors;

use sshc_client::{DisconnectReason, Error, Handler};
use sshc_hosts::judge_text;
use sshc_key::PublicKeyOrCertificate;
use sshc_wire::{NoMemory, Text};
use std::alloc::Global;
use std::marker::Model;

/// Why the handler refuses.
#[derive(Clone, Copy, PartialEq, Eq)]
pub enum HandlerError {
    /// An error of the session.
    Client(Error),
    /// The known hosts text refuses the key, or can't be read.
    Key(sshc_key::Error),
}

/// Judges plain keys by a known hosts text, and refuses certificates. Contracts see what it judges by, and a count of
/// its refusals.
#[derive(Drop)]
pub struct KnownHostsHandler {
    alloc: Global,
    host: Text,
    port: u16,
    known: Text,
    refusals: u64,
}

impl Model for KnownHostsHandler {
    ghost use Rattle.sshc_run_script.specs.Handled.{Handled};
    ghost use Rattle.sshc_hosts.specs.HostText.{host_text};

    ghost Value = { Handled };

    ghost view = { λ h. record { host = host_text h.host h.port; known = h.known; refusals = h.refusals } };
}

impl KnownHostsHandler {
    /// A handler for the host at the port, by the known hosts text.
    pub fn new(
        alloc: Global,
        host: &str,
        port: u16,
        known: &str,
    ) -> Result<KnownHostsHandler, NoMemory>
        ensures { IfOk result (λ h. h ≡ record { host = host_text host.now port; known = known.now; refusals = 0 }) }
    {
        Ok(KnownHostsHandler {
            alloc,
            host: Text::from_str(alloc, host)?,
            port,
            known: Text::from_str(alloc, known)?,
            refusals: 0,
        })
    }
}

impl Handler for KnownHostsHandler {
    type Error = HandlerError;

    ghost use Rattle.std.specs.Prelude.{◌≡◌, ◌∷◌, []};
    ghost use Rattle.sshc_run_script.specs.KnownHosts.{Judges};

    ghost at = { λ h. record { refusals = h.refusals; setting = h.host ∷ h.known ∷ []; heard = [] } };

    ghost judges = { λ h key answer. Judges (record { host = h.host; known = h.known }) key answer };

    ghost told_as = { λ e. errors.Client e };

    ghost keeps_defaults = { Unit {0} };

    #[tactic(auto, unfolding(crate::specs::KnownHosts::verdict))]
    fn check_server_key(&mut self, key: &PublicKeyOrCertificate) -> Result<bool, HandlerError> {
        match key {
            PublicKeyOrCertificate::Certificate(_) => Ok(false),
            PublicKeyOrCertificate::PublicKey { key, .. } => {
                match judge_text(
                    self.alloc,
                    self.known.as_str(),
                    self.host.as_str(),
                    self.port,
                    key,
                ) {
                    Ok(accepted) => Ok(accepted),
                    Err(error) => {
                        self.refusals = self.refusals.saturating_add(1);
                        Err(HandlerError::Key(error))
                    }
                }
            }
        }
    }

    fn disconnected(&mut self, reason: DisconnectReason<HandlerError>) -> Result<(), HandlerError>
        ensures default { result ≡ ended_by reason }
    {
        match reason {
            DisconnectReason::ReceivedDisconnect(_) => Ok(()),
            DisconnectReason::Error(e) => Err(e),
        }
    }

    fn from_client(e: Error) -> HandlerError
        ensures { result ≡ errors.Client e }
    {
        HandlerError::Client(e)
    }
}
