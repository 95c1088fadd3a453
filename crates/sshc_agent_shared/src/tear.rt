//! Where a seat's calls and the journal differ.

ghost use Rattle.std.specs.Prelude.{◌≡◌, ◌≢◌, ◌<◌, ◌^◌, IfOk, MatchOption, length, map, slice_get};
ghost use Rattle.sshc_agent_shared.specs.Calls.{call_in};

use crate::call::Call;
use crate::kept::{KeptCall, KeptEntry};
use sshc_wire::NoMemory;
use std::alloc::Global;

/// An index, the seat's call there, and the journal's.
#[derive(Drop)]
pub(crate) struct Tear {
    pub(crate) at: u32,
    pub(crate) got: Option<Call>,
    pub(crate) kept: Option<Call>,
}

/// The call at an index, with bytes of its own.
fn call_at(alloc: Global, calls: &[KeptCall], at: usize) -> Result<Option<Call>, NoMemory>
    ensures { IfOk result (λ c. c ≡ slice_get calls.now at) }
{
    match calls.get(at) {
        Some(call) => Ok(Some(call.copy(alloc)?)),
        None => Ok(None),
    }
}

/// The first index at which a connection's entries and these calls differ, with both calls.
pub(crate) fn first_tear(
    alloc: Global,
    entries: &[&KeptEntry],
    calls: &[KeptCall],
) -> Result<Option<Tear>, NoMemory>
    requires { length entries.now < 2 ^ 32 }
    ensures { IfOk result (λ r. MatchOption r (map (λ e. call_in e.now) entries.now ≡ calls.now)
        (λ t. (t.got ≡ slice_get calls.now t.at) × (t.kept ≡ slice_get (map (λ e. call_in e.now) entries.now) t.at)
        × (t.got ≢ t.kept))) }
{
    let mut at: u32 = 0;
    for e in entries {
        match calls.get(at as usize) {
            Some(call) => {
                if !e.call().is_same(call) {
                    return Ok(Some(Tear {
                        at,
                        got: Some(call.copy(alloc)?),
                        kept: Some(e.call().copy(alloc)?),
                    }));
                }
                at += 1;
            }
            None => {
                return Ok(Some(Tear {
                    at,
                    got: None,
                    kept: Some(e.call().copy(alloc)?),
                }));
            }
        }
    }
    match call_at(alloc, calls, at as usize)? {
        Some(call) => Ok(Some(Tear {
            at,
            got: Some(call),
            kept: None,
        })),
        None => Ok(None),
    }
}
