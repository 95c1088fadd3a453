//! What a session's struct of the caller's holds.

ghost use Rattle.std.specs.Prelude.{◌≡◌, Option, Some, None, IsSome};
ghost use Rattle.sazhonthil.specs.Taking.{Taking};
ghost use Rattle.sazhonthil.specs.HoldingSession.{held_owns, run_coded};

use crate::parts::Parts;
use crate::session_run::SessionRun;
use std::alloc::Global;
use std::marker::Model;
use std::ptr::null_mut;

/// A session in memory of its own, or nothing. To drop it frees nothing: `SessionHandle` drops one only where it holds
/// nothing.
#[repr(C)]
#[derive(Drop)]
pub struct HeldSession {
    at: *mut u8,
    alloc: Global,
    pub ghost run: { Option Taking } by { run_coded },
}

impl Model for HeldSession {
    ghost also_owns = { λ h. held_owns h.alloc h.at h.run };
}

impl HeldSession {
    fn of_parts(parts: Parts<SessionRun, Global>) -> HeldSession
        ensures { result.run ≡ Some parts.value }
    {
        let Parts { ptr, alloc } = parts;
        HeldSession {
            at: ptr as *mut u8,
            alloc,
        }
    }

    fn into_parts(self) -> Parts<SessionRun, Global>
        requires { IsSome self.run }
        ensures { self.run ≡ Some result.value }
    {
        let HeldSession { at, alloc } = self;
        Parts {
            ptr: at as *mut SessionRun,
            alloc,
        }
    }

    /// Nothing.
    pub fn empty(alloc: Global) -> HeldSession
        ensures { result.run ≡ None }
    {
        HeldSession {
            at: null_mut(),
            alloc,
        }
    }

    /// The box of what it holds.
    pub fn into_box(self) -> Box<SessionRun>
        requires { IsSome self.run }
        ensures { self.run ≡ Some result.value }
    {
        self.into_parts().into_box()
    }

    /// What the box has.
    pub fn of_box(run: Box<SessionRun>) -> HeldSession
        ensures { result.run ≡ Some run.value }
    {
        HeldSession::of_parts(Parts::of(run))
    }
}
