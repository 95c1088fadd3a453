//! How many entries each connection has.

ghost use Rattle.std.specs.Prelude.{◌≡◌, ◌+◌, ◌<◌, ◌^◌, ◌==◌, ℕ, IsSome, OnOk, if◌then◌else◌};
ghost use Rattle.std.specs.BTreeMap.{get};
ghost use Rattle.std.specs.Ordering.{nat_cmp};
ghost use Rattle.sshc_agent_shared.specs.Counting.{count_in};

use sshc_wire::NoMemory;
use std::alloc::Global;
use std::collections::BTreeMap;

/// A count for each connection that has one.
#[derive(Drop)]
pub(crate) struct Counts {
    of: BTreeMap<u32, u32>,
}

impl Counts {
    /// All counts are 0.
    pub(crate) fn new(alloc: Global) -> Counts
        ensures { (conn : ℕ) → count_in result conn ≡ 0 }
    {
        Counts {
            of: BTreeMap::new(alloc),
        }
    }

    pub(crate) fn at(&self, conn: u32) -> u32
        ensures { result ≡ count_in self.now conn }
    {
        self.of.get(&conn).copied().unwrap_or(0)
    }

    /// Adds a count of 0 for the connection, if it has none.
    pub(crate) fn open(&mut self, conn: u32) -> Result<(), NoMemory>
        ensures same { (c : ℕ) → count_in self.new c ≡ count_in self.old c }
        ensures there { OnOk result (IsSome (get nat_cmp self.new.of conn)) }
    {
        if !self.of.contains_key(&conn) {
            self.of.insert(conn, 0)?;
        }
        Ok(())
    }

    /// Adds one to the connection's count.
    pub(crate) fn raise(&mut self, conn: u32)
        requires there { IsSome (get nat_cmp self.old.of conn) }
        requires fits { count_in self.old conn + 1 < 2 ^ 32 }
        ensures { (c : ℕ) → count_in self.new c ≡ count_in self.old c + (if conn == c then 1 else 0) }
    {
        if let Some(count) = self.of.get_mut(&conn) {
            *count += 1;
        }
    }
}
