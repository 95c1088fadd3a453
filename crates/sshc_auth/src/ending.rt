//! How a row ends a session, kept in two words.

ghost use Rattle.std.specs.Prelude.{◌≡◌, IfOk};
ghost use Rattle.sshc_auth.specs.declared.ended.Ended.TheVariants as ends;

use crate::ended::{Ended, RemoteDisconnectInfo};
use sshc_wire::NoMemory;
use std::alloc::Global;
use std::marker::Model;

/// How a session ends. What the peer says is behind a pointer.
#[derive(Drop)]
enum SmallEnd {
    RemoteDisconnect(Box<RemoteDisconnectInfo>),
    Disconnected,
    Closed,
}

/// How a row ends a session, so small that the results of rows are. Contracts see the end.
#[derive(Drop)]
pub struct Ending {
    end: SmallEnd,
}

impl Model for Ending {
    ghost use Rattle.sshc_auth.specs.declared.ended.Ended.{Ended as End};

    ghost Value = { End };

    ghost use Rattle.sshc_auth.specs.Endings.{end_in};

    ghost view = { λ e. end_in e.end };
}

impl Ending {
    /// The peer disconnected.
    pub fn remote(alloc: Global, info: RemoteDisconnectInfo) -> Result<Ending, NoMemory>
        ensures { IfOk result (λ e. e ≡ ends.RemoteDisconnect info) }
    {
        match Box::new(alloc, info) {
            Ok(info) => Ok(Ending {
                end: SmallEnd::RemoteDisconnect(info),
            }),
            Err(refused) => {
                drop(refused);
                Err(NoMemory)
            }
        }
    }

    /// The user disconnected.
    pub fn disconnected() -> Ending
        ensures { result ≡ ends.Disconnected }
    {
        Ending {
            end: SmallEnd::Disconnected,
        }
    }

    /// No user is left.
    pub fn closed() -> Ending
        ensures { result ≡ ends.Closed }
    {
        Ending {
            end: SmallEnd::Closed,
        }
    }

    /// The end itself.
    pub fn into_ended(self) -> Ended
        ensures { result ≡ self }
    {
        match self.end {
            SmallEnd::RemoteDisconnect(info) => Ended::RemoteDisconnect(Box::into_inner(info)),
            SmallEnd::Disconnected => Ended::Disconnected,
            SmallEnd::Closed => Ended::Closed,
        }
    }
}
