//! The entries of each connection, found by one pass over the journal.

ghost use Rattle.std.specs.Prelude.{◌≡◌, ◌≢◌, ◌<◌, ◌^◌, ◌==◌, ◌++◌, ℕ, IfOk, MatchOption, OnOk, [], ◌∷◌, filter};
ghost use Rattle.std.specs.Prelude.{if◌then◌else◌, length, map, option_copied, slice_get};
ghost use Rattle.std.specs.BTreeMap.{get};
ghost use Rattle.std.specs.Ordering.{nat_cmp};
ghost use Rattle.sshc_agent_shared.specs.Calls.{call_in};
ghost use Rattle.sshc_agent_shared.specs.Groups.{entries_at};

use crate::kept::{KeptCall, KeptEntry};
use crate::tear::{Tear, first_tear};
use sshc_wire::NoMemory;
use std::alloc::Global;
use std::collections::BTreeMap;

/// The entries of each connection that has some, in their order.
#[derive(Drop)]
pub(crate) struct Groups<'a> {
    of: BTreeMap<u32, Vec<&'a KeptEntry>>,
}

impl<'a> Groups<'a> {
    /// The entries of the journal by their connections.
    pub(crate) fn new(alloc: Global, journal: &'a [KeptEntry]) -> Result<Groups<'a>, NoMemory>
        ensures { IfOk result
            (λ g. (conn : ℕ) → entries_at g conn ≡ filter (λ e. e.conn == conn) journal.now) }
    {
        let mut groups = Groups {
            of: BTreeMap::new(alloc),
        };
        for e in journal {
            groups.add(alloc, e)?;
        }
        Ok(groups)
    }

    /// Adds an entry behind those of its connection.
    fn add(&mut self, alloc: Global, e: &'a KeptEntry) -> Result<(), NoMemory>
        ensures { OnOk result
            ((conn : ℕ) → entries_at self.new conn
            ≡ entries_at self.old conn ++ (if e.now.conn == conn then e.now ∷ [] else [])) }
    {
        let conn = e.conn();
        if let Some(entries) = self.of.get_mut(&conn) {
            entries.push(e)?;
            return Ok(());
        }
        let mut entries = Vec::new(alloc);
        entries.push(e)?;
        self.of.insert(conn, entries)?;
        Ok(())
    }

    /// The entries of a connection that has some.
    fn at(&self, conn: u32) -> Option<&Vec<&'a KeptEntry>>
        ensures { option_copied result ≡ get nat_cmp self.now.of conn }
    {
        self.of.get(&conn)
    }

    /// The first index at which a connection's entries and these calls differ, with both calls.
    pub(crate) fn first_tear(
        &self,
        alloc: Global,
        conn: u32,
        calls: &[KeptCall],
    ) -> Result<Option<Tear>, NoMemory>
        requires { length (entries_at self.now conn) < 2 ^ 32 }
        ensures { IfOk result (λ r. MatchOption r (map call_in (entries_at self.now conn) ≡ calls.now)
            (λ t. (t.got ≡ slice_get calls.now t.at)
            × (t.kept ≡ slice_get (map call_in (entries_at self.now conn)) t.at)
            × (t.got ≢ t.kept))) }
    {
        match self.at(conn) {
            Some(entries) => first_tear(alloc, entries.as_slice(), calls),
            None => first_tear(alloc, &[], calls),
        }
    }
}
