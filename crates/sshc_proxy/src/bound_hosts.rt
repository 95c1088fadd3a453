//! Which hosts are bound, by connection.

ghost use Rattle.std.specs.Prelude.{◌≡◌, ◌==◌, ◌++◌, ◌∷◌, [], OnOk, OnErr, ℕ, if◌then◌else◌};
ghost use Rattle.sshc_proxy.specs.ProxyTable.{bound_at};

use sshc_wire::{List, NoMemory, Octets};
use std::alloc::Global;
use std::collections::BTreeMap;
use std::marker::Model;

/// The blobs of the host keys that are bound on each connection, in order, which contracts see as a list.
#[derive(Drop)]
pub(crate) struct BoundHosts {
    alloc: Global,
    hosts: BTreeMap<u32, List<Octets>>,
}

impl Model for BoundHosts {
    ghost use Rattle.std.specs.Prelude.{List as Items, ℕ};

    ghost Value = { Items (ℕ × Items (Items ℕ)) };

    ghost view = { λ b. b.hosts.entries };
}

impl BoundHosts {
    pub(crate) fn new(alloc: Global) -> BoundHosts
        ensures { result ≡ [] }
    {
        BoundHosts {
            alloc,
            hosts: BTreeMap::new(alloc),
        }
    }

    /// The hosts that are bound on the connection, in order.
    pub(crate) fn hosts(&self, conn: u32) -> &[Octets]
        ensures { result.now ≡ bound_at self.now conn }
    {
        match self.hosts.get(&conn) {
            Some(hosts) => hosts.as_slice(),
            None => &[],
        }
    }

    /// Binds one more host.
    pub(crate) fn bind(&mut self, conn: u32, host: Octets) -> Result<(), NoMemory>
        ensures ok { OnOk result ((c : ℕ) → bound_at self.new c
            ≡ (if conn == c then bound_at self.old conn ++ host ∷ [] else bound_at self.old c)) }
        ensures err { OnErr result (self.new ≡ self.old) }
    {
        match self.hosts.get_mut(&conn) {
            Some(hosts) => hosts.push(host),
            None => {
                let mut hosts = List::new(self.alloc);
                hosts.push(host)?;
                self.hosts.insert(conn, hosts)?;
                Ok(())
            }
        }
    }

    /// No host is bound on the connection any more.
    pub(crate) fn forget(&mut self, conn: u32)
        ensures { (c : ℕ) → bound_at self.new c ≡ (if conn == c then [] else bound_at self.old c) }
    {
        let _ = self.hosts.remove(&conn);
    }
}
