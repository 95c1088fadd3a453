//! What an agent's struct of the caller's holds.

ghost use Rattle.std.specs.Prelude.{◌≡◌, Option, Some, None, IsSome};
ghost use Rattle.sshc_c_calls.specs.declared.agent.AgentRun.{AgentRun};
ghost use Rattle.sazhonthil.specs.HoldingAgent.{held_owns, run_coded};

use crate::parts::Parts;
use sshc_c_calls::AgentRun;
use std::alloc::Global;
use std::marker::Model;
use std::ptr::null_mut;

/// An agent in memory of its own, or nothing. To drop it frees nothing: `AgentHandle` drops one only where it holds
/// nothing.
#[repr(C)]
#[derive(Drop)]
pub struct HeldAgent {
    at: *mut u8,
    alloc: Global,
    pub ghost run: { Option AgentRun } by { run_coded },
}

impl Model for HeldAgent {
    ghost also_owns = { λ h. held_owns h.alloc h.at h.run };
}

impl HeldAgent {
    fn of_parts(parts: Parts<AgentRun, Global>) -> HeldAgent
        ensures { result.run ≡ Some parts.value }
    {
        let Parts { ptr, alloc } = parts;
        HeldAgent {
            at: ptr as *mut u8,
            alloc,
        }
    }

    fn into_parts(self) -> Parts<AgentRun, Global>
        requires { IsSome self.run }
        ensures { self.run ≡ Some result.value }
    {
        let HeldAgent { at, alloc } = self;
        Parts {
            ptr: at as *mut AgentRun,
            alloc,
        }
    }

    /// Nothing.
    pub fn empty(alloc: Global) -> HeldAgent
        ensures { result.run ≡ None }
    {
        HeldAgent {
            at: null_mut(),
            alloc,
        }
    }

    /// The box of what it holds.
    pub fn into_box(self) -> Box<AgentRun>
        requires { IsSome self.run }
        ensures { self.run ≡ Some result.value }
    {
        self.into_parts().into_box()
    }

    /// What the box has.
    pub fn of_box(run: Box<AgentRun>) -> HeldAgent
        ensures { result.run ≡ Some run.value }
    {
        HeldAgent::of_parts(Parts::of(run))
    }
}
