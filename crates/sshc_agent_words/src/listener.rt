//! A Unix socket at which streams are accepted. Contracts can't see their contents; that a real socket behaves as its
//! trait says is not proved.

ghost use Rattle.std.specs.Prelude.{◌≡◌, IfOk};

use crate::folder::{keep_to_owner, owner_of_folder};
use sshc_agent::{Acceptor, NotAccepted};
use sshc_ask::{UnixAgentStream, socket_stream};
use sshc_wire::NoMemory;
use std::alloc::Global;
use std::marker::Model;
use std::net::Net;
use std::os::unix::net::UnixListener;
use std::rt::Files;
use std::time::{Clock, Duration};
use std::{fs, io};

/// How many milliseconds no stream is accepted after one that couldn't be made.
const WAIT: u64 = 50;

// Errors of accept(2) after which no later call can accept a stream: the descriptor isn't that of a listening socket.
const EBADF: i32 = 9;

const EINVAL: i32 = 22;

const ENOTSOCK: i32 = 88;

const EOPNOTSUPP: i32 = 95;

/// A listening socket, and how often it failed for good.
#[derive(Drop)]
pub struct UnixAgents<'a, R> {
    system: &'a R,
    inner: UnixListener,
    alloc: Global,
    faults: u64,
}

impl<'a, R> Model for UnixAgents<'a, R> {
    ghost use Rattle.std.specs.Prelude.{ℕ};

    ghost Value = { ℕ };

    ghost view = { λ a. a.faults };
}

impl<'a, R: Files + Net> UnixAgents<'a, R> {
    /// Creates a socket at the path, and listens. The socket's mode is 0600, whatever the process's umask. An error if
    /// others than its owner enter the folder of the path, or if that owner isn't the process's user.
    pub fn bind(system: &'a R, alloc: Global, path: &str) -> io::Result<UnixAgents<'a, R>>
        ensures { IfOk result (λ a. a ≡ 0) }
    {
        let owner = owner_of_folder(system, path)?;
        let inner = UnixListener::bind(system, path)?;
        if let Err(error) = keep_to_owner(system, path, owner) {
            let _ = fs::remove_file(system, path);
            return Err(error);
        }
        Ok(UnixAgents {
            system,
            inner,
            alloc,
            faults: 0,
        })
    }
}

/// Whether the error says that the listening socket isn't one any more.
fn is_over(error: &io::Error) -> bool {
    matches!(
        error.raw_os_error(),
        Some(EBADF | EINVAL | ENOTSOCK | EOPNOTSUPP)
    )
}

impl<'a, R: Clock> Acceptor for UnixAgents<'a, R> {
    type Stream = UnixAgentStream;

    ghost faults = { λ a. a };

    fn try_accept(&mut self) -> Result<UnixAgentStream, NotAccepted> {
        match self.inner.accept() {
            Ok((socket, _address)) => match socket_stream(self.alloc, socket) {
                Ok(stream) => Ok(stream),
                Err(NoMemory) => Err(NotAccepted::NotNow),
            },
            Err(error) => {
                if !is_over(&error) {
                    return Err(NotAccepted::NotNow);
                }
                self.faults = self.faults.saturating_add(1);
                Err(NotAccepted::Over)
            }
        }
    }

    fn wait(&mut self) {
        self.system.sleep(Duration::from_millis(WAIT))
    }
}
