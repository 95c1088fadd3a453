//! Calls of two threads.

ghost use Rattle.std.specs.Prelude.{◌≡◌, false};

use crate::calls::{called, calls_of, two_of};
use crate::frames::LISTS;
use sshc_agent_shared::{AgentShared, Seat, Settings};
use sshc_wire::Octets;
use std::alloc::Global;
use std::marker::Brand;
use std::sync::Wait;
use std::sync::ledger::Blank;
use std::test::*;
use std::thread;
use std::thread::Threads;

/// A hundred listings by one seat. Returns the seat, and whether each was answered.
fn hundred<L: Settings, R: Wait>(
    rt: &R,
    alloc: Global,
    shared: &AgentShared<L>,
    seat: Seat<L>,
) -> (Seat<L>, bool) {
    let mut seat = seat;
    let mut is_answered = true;
    for moment in 0..100u64 {
        let listing = Octets::from_slice(alloc, LISTS);
        let (next, answer) = called(rt, alloc, shared, seat, moment, listing);
        seat = next;
        is_answered = is_answered && answer.is_ok();
    }
    (seat, is_answered)
}

/// A hundred listings by each of two threads, with a seat each. Returns the seats if each call was answered.
fn both<L: Settings + Send, R: Threads + Wait + Sync>(
    rt: &R,
    alloc: Global,
    shared: &AgentShared<L>,
) -> Option<Vec<Seat<L>>> {
    let one = shared.connect(rt).ok()?;
    let two = shared.connect(rt).ok()?;
    let ((one, first), (two, second)) = thread::join(
        rt,
        move || hundred(rt, alloc, shared, one),
        move || hundred(rt, alloc, shared, two),
    );
    let seats = two_of(alloc, one, two);
    if first && second { seats } else { None }
}

/// How many calls the history of two threads has, and how many of these are of connection 1.
fn two_threads<L: Settings + Send, R: Threads + Wait + Sync>(
    rt: &R,
    alloc: Global,
    blank: Blank,
) -> Option<(usize, usize)>
    requires parts { blank.parts ≡ 67108864 }
    requires ledger { (blank.name ≡ L.name) × (blank.parts ≡ L.parts) }
    requires settings { (L.asks ≡ false) × (L.limit ≡ 1000000) }
{
    let shared = AgentShared::<L>::new(alloc, blank, false, 1_000_000).ok()?;
    let seats = both(rt, alloc, &shared)?;
    let history = shared.close(seats).ok()?;
    Some((history.len(), calls_of(&history, 1)))
}

#[test]
fn two_threads_have_one_history(rt: HostRuntime) {
    let calls = two_threads::<Brand, _>(&rt, rt.alloc(), Blank::new(67_108_864));
    assert_eq!(rt; calls, Some((200, 100)));
}
