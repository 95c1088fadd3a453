//! Calls whose signatures are made outside the lock: what happens meanwhile decides the answer.

ghost use Rattle.std.specs.Prelude.{◌≡◌, ◌≤◌, false, IfOk, Err};

use crate::calls::let_go;
use crate::frames::{LISTS, LOCKS, SIGNS, SIGNS_OTHER, adds};
use sshc_agent_core::{AgentInput, AgentOutput, Cause};
use sshc_agent_shared::{AgentLasting, LastingBegun, LastingState, Settings};
use sshc_key::{Asker, HashAlg, LocalSigner, PrivateKey, SignRefused};
use sshc_toy::ToySigner;
use sshc_wire::Octets;
use std::alloc::Global;
use std::marker::Brand;
use std::sync::Wait;
use std::sync::ledger::Blank;
use std::test::*;

/// How many parts the ledger has.
const PARTS: u64 = 67_108_864;

/// A frame that removes all keys.
const REMOVES_ALL: &[u8] = b"\x13";

/// Signs by the toy pair, and before that sends a frame to the agent on a connection of its own.
#[derive(Drop)]
struct Meddler<'a, L: Settings, R: Wait> {
    rt: &'a R,
    alloc: Global,
    shared: &'a AgentLasting<L>,
    conn: u32,
    frame: &'static [u8],
    toy: ToySigner,
}

impl<'a, L: Settings, R: Wait> Meddler<'a, L, R> {
    /// Sends the frame, and returns whether it was taken.
    fn meddles(&self) -> bool {
        let Ok(frame) = Octets::from_slice(self.alloc, self.frame) else {
            return false;
        };
        let mut signer = ToySigner::new(self.alloc);
        self.shared
            .call(
                self.rt,
                self.conn,
                7,
                AgentInput::Frame(frame),
                &mut signer,
                &(),
            )
            .is_ok()
    }
}

impl<'a, L: Settings, R: Wait> LocalSigner for Meddler<'a, L, R> {
    ghost calls = { λ s. s.toy.calls };

    ghost refusals = { λ s. s.toy.refusals };

    fn sign(
        &mut self,
        by: Asker,
        key: &PrivateKey,
        hash: Option<HashAlg>,
        bytes: &[u8],
    ) -> Result<Vec<u8>, SignRefused> {
        let _is_taken = self.meddles();
        self.toy.sign(by, key, hash, bytes)
    }
}

/// The number of an answer; of another output 0.
fn number_of(output: &AgentOutput) -> u8 {
    match output {
        AgentOutput::Answer(frame) => frame.as_slice().get(4).copied().unwrap_or(0),
        _ => 0,
    }
}

/// The number of the answer to a sign request, if another connection sends this frame while it is signed.
fn answered_beside<L: Settings, R: Wait>(
    rt: &R,
    alloc: Global,
    blank: Blank,
    frame: &'static [u8],
) -> Option<u8>
    requires parts { blank.parts ≡ 67108864 }
    requires ledger { (blank.name ≡ L.name) × (blank.parts ≡ L.parts) }
    requires settings { (L.asks ≡ false) × (L.limit ≡ 100000) }
{
    let shared = AgentLasting::<L>::new(alloc, blank, false, 100_000);
    let one = shared.connect(rt, &()).ok()?;
    let conn = shared.connect(rt, &()).ok()?;
    let mut signer = Meddler {
        rt,
        alloc,
        shared: &shared,
        conn,
        frame,
        toy: ToySigner::new(alloc),
    };
    let adds = AgentInput::Frame(adds(alloc).ok()?);
    let added = shared.call_apart(rt, one, 3, adds, &mut signer, &()).ok()?;
    if number_of(&added) != 6 {
        return None;
    }
    let signs = AgentInput::Frame(Octets::from_slice(alloc, SIGNS).ok()?);
    let signed = shared.call_apart(rt, one, 5, signs, &mut signer, &()).ok()?;
    Some(number_of(&signed))
}

#[test]
fn a_listing_meanwhile_changes_nothing(rt: HostRuntime) {
    let number = answered_beside::<Brand, _>(&rt, rt.alloc(), Blank::new(PARTS), LISTS);
    assert!(rt; number == Some(14));
}

#[test]
fn a_lock_meanwhile_holds(rt: HostRuntime) {
    let number = answered_beside::<Brand, _>(&rt, rt.alloc(), Blank::new(PARTS), LOCKS);
    assert!(rt; number == Some(5));
}

#[test]
fn a_key_that_was_removed_meanwhile_signs_nothing(rt: HostRuntime) {
    let number = answered_beside::<Brand, _>(&rt, rt.alloc(), Blank::new(PARTS), REMOVES_ALL);
    assert!(rt; number == Some(5));
}

/// Whether a signature over other bytes than those of the request closes the connection.
fn closed_by_another<L: Settings>(alloc: Global, blank: Blank) -> Option<bool>
    requires parts { blank.parts ≡ 67108864 }
    requires ledger { (blank.name ≡ L.name) × (blank.parts ≡ L.parts) }
    requires settings { (L.asks ≡ false) × (L.limit ≡ 100000) }
{
    let mut state = LastingState::<L>::new(alloc, blank, false, 100_000);
    let conn = state.connect().ok()?;
    let mut signer = ToySigner::new(alloc);
    let adds = AgentInput::Frame(adds(alloc).ok()?);
    let added = state.call(conn, 3, adds, &mut signer).ok()?;
    let_go(added);
    let signs = AgentInput::Frame(Octets::from_slice(alloc, SIGNS).ok()?);
    match state.begin(conn, 5, signs) {
        LastingBegun::Asks(input, question) => {
            let_go(input);
            let signed = question.ask(&mut signer);
            let other = AgentInput::Frame(Octets::from_slice(alloc, SIGNS_OTHER).ok()?);
            let (answer, _seam) = state.finish(conn, 5, other, signed);
            Some(matches!(answer.ok()?, AgentOutput::Closed(Cause::NoMemory)))
        }
        LastingBegun::Made(..) => None,
    }
}

#[test]
fn a_signature_over_other_bytes_is_not_taken(rt: HostRuntime) {
    let closed = closed_by_another::<Brand>(rt.alloc(), Blank::new(PARTS));
    assert!(rt; closed == Some(true));
}
