//! A handle that two threads use.

use crate::handle::Handle;
use sshc_client::Handler;
use std::thread;
use std::thread::Threads;

/// Uses a handle in another thread and in this one at once, and returns what each use returned, once both have. That a
/// handle may be sent is proved here, so a caller has to show it only of what else the first use holds: numbers, texts,
/// what is lent by a runtime and the like need no proof of their own.
pub fn at_once<
    H: Handler,
    A: Send,
    B,
    F: FnOnce(&Handle<H>) -> A + Send,
    G: FnOnce(&Handle<H>) -> B,
    R: Threads,
>(rt: &R, handle: &Handle<H>, first: F, second: G) -> (A, B)
where
    H::Error: Send,
    requires first { F.IsAlwaysCallable first }
    requires second { G.IsAlwaysCallable second }
    ensures first { F.post first handle.entry result.0 }
    ensures second { G.post second handle.entry result.1 }
{
    thread::join(rt, || first(handle), || second(handle))
}
