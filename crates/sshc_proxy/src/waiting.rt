//! Which answers are awaited, by connection.

ghost use Rattle.std.specs.Prelude.{◌≡◌, ◌==◌, [], None, OnOk, OnErr, Some, ℕ, if◌then◌else◌};
ghost use Rattle.sshc_proxy.specs.ProxyTable.{awaited_at};

use sshc_wire::NoMemory;
use std::alloc::Global;
use std::collections::BTreeMap;
use std::marker::Model;

/// What the agent was asked for.
#[derive(Clone, Copy, PartialEq, Eq)]
pub enum Awaited {
    Listing,
    Signature,
}

/// The answer that is awaited on each connection, which contracts see as a list.
#[derive(Drop)]
pub(crate) struct Waiting {
    answers: BTreeMap<u32, Awaited>,
}

impl Model for Waiting {
    ghost use Rattle.std.specs.Prelude.{List, ℕ};
    ghost use Rattle.sshc_proxy.specs.declared.waiting.Awaited.{Awaited as Kind};

    ghost Value = { List (ℕ × Kind) };

    ghost view = { λ w. w.answers.entries };
}

impl Waiting {
    pub(crate) fn new(alloc: Global) -> Waiting
        ensures { result ≡ [] }
    {
        Waiting {
            answers: BTreeMap::new(alloc),
        }
    }

    /// The answer that is awaited on the connection.
    pub(crate) fn awaited(&self, conn: u32) -> Option<Awaited>
        ensures { result ≡ awaited_at self.now conn }
    {
        self.answers.get(&conn).copied()
    }

    /// An answer is awaited on the connection from now on.
    pub(crate) fn begin(&mut self, conn: u32, answer: Awaited) -> Result<(), NoMemory>
        ensures ok { OnOk result ((c : ℕ) → awaited_at self.new c
            ≡ (if conn == c then Some answer else awaited_at self.old c)) }
        ensures err { OnErr result (self.new ≡ self.old) }
    {
        self.answers.insert(conn, answer)?;
        Ok(())
    }

    /// No answer is awaited on the connection any more.
    pub(crate) fn end(&mut self, conn: u32)
        ensures { (c : ℕ) → awaited_at self.new c ≡ (if conn == c then None else awaited_at self.old c) }
    {
        let _ = self.answers.remove(&conn);
    }
}
