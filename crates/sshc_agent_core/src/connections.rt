//! The connections that an agent has seen.

ghost use Rattle.std.specs.Prelude.{◌≡◌, [], IfOk, IsSome, None, OnOk, OnErr, Some, option_copied};

use sshc_wire::{NoMemory, Octets};
use std::alloc::Global;
use std::collections::BTreeMap;
use std::marker::Model;

/// The state of a connection. At most one question is open, with the frame that it is about.
#[derive(Drop)]
pub enum Standing {
    Open,
    /// The user is asked whether the request is allowed.
    RequestAsked(Octets),
    /// The user is asked whether the key may sign.
    KeyAsked(Octets),
    Closed,
}

/// The connections seen so far, ordered by number, which contracts see as a list.
#[derive(Drop)]
pub(crate) struct Connections {
    standings: BTreeMap<u32, Standing>,
}

impl Model for Connections {
    ghost use Rattle.std.specs.Prelude.{List, ℕ};
    ghost use Rattle.sshc_agent_core.specs.declared.connections.Standing.{Standing as Stands};

    ghost Value = { List (ℕ × Stands) };

    ghost view = { λ c. c.standings.entries };
}

impl Connections {
    ghost use Rattle.sshc_agent_core.specs.Connections.{is_new, seen_in, standing_of, with_standing, without};

    pub(crate) fn new(alloc: Global) -> Connections
        ensures { result ≡ [] }
    {
        Connections {
            standings: BTreeMap::new(alloc),
        }
    }

    /// The state of the connection, if it was seen.
    pub(crate) fn standing(&self, conn: u32) -> Option<&Standing>
        ensures { option_copied result ≡ standing_of self.now conn }
    {
        self.standings.get(&conn)
    }

    /// Records the connection as seen, and returns whether it is new.
    pub(crate) fn see(&mut self, conn: u32) -> Result<bool, NoMemory>
        ensures ok { OnOk result (self.new ≡ seen_in self.old conn) }
        ensures new { IfOk result (λ new. new ≡ is_new self.old conn) }
        ensures there { OnOk result (IsSome (standing_of self.new conn)) }
        ensures err { OnErr result (self.new ≡ self.old) }
        ensures absent { OnErr result (standing_of self.old conn ≡ None) }
    {
        if self.standing(conn).is_some() {
            return Ok(false);
        }
        self.standings.insert(conn, Standing::Open)?;
        Ok(true)
    }

    /// Sets the state of a connection that was seen.
    pub(crate) fn set(&mut self, conn: u32, standing: Standing)
        requires { IsSome (standing_of self.old conn) }
        ensures { self.new ≡ with_standing self.old conn standing }
    {
        match self.standings.insert(conn, standing) {
            Ok(_) => {}
            Err(_) => unreachable!(),
        }
    }

    /// Setting a connection to the state that it has changes nothing.
    #[tactic(auto, using(crate::proofs::Standings::stays))]
    pub(crate) fn stays(&self, conn: u32, _standing: &Standing)
        requires { standing_of self.now conn ≡ Some _standing.now }
        ensures { with_standing self.now conn _standing.now ≡ self.now }
    {
        let _count = self.standings.len();
        let _conn = conn;
    }

    /// Forgets the connection.
    pub(crate) fn forget(&mut self, conn: u32)
        ensures { self.new ≡ without self.old conn }
    {
        let _ = self.standings.remove(&conn);
    }
}
