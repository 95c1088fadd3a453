//! The seam between two generations: a journal is closed, and the next one begins with the agent as it is.

ghost use Rattle.std.specs.Prelude.{◌≡◌, ◌≤◌, ◌+◌, ◌++◌, [], All, IfErr, IfOk, OnErr, OnOk, length, map, sum_by};
ghost use Rattle.std.specs.Prelude.{vec_capacity};
ghost use Rattle.sshc_agent_shared.specs.Calls.{calls_of};
ghost use Rattle.sshc_agent_shared.specs.Closing.{AccountsFrom, LockedCause};
ghost use Rattle.sshc_agent_shared.specs.Generations.{CarriesOn, conns_of, forgotten_all, next_of, renewed};
ghost use Rattle.sshc_agent_shared.specs.Kept.{new_seat};

use crate::closing::gather;
use crate::counts::Counts;
use crate::error::CloseError;
use crate::generation::{ENTRY_WEIGHT, Generation};
use crate::past::Past;
use crate::seat::Seat;
use crate::settings::Settings;
use sshc_agent_core::AgentCore;
use sshc_wire::NoMemory;
use std::alloc::Global;
use std::mem;
use std::snapshot::Snapshot;
use std::sync::ledger::{Ledger, Share};

/// The numbers of the seats' connections.
fn numbers<L: Settings>(alloc: Global, seats: &[Seat<L>]) -> Result<Vec<u32>, NoMemory>
    ensures { IfOk result (λ v. v.items ≡ conns_of seats.now) }
{
    let mut numbers = Vec::new(alloc);
    for seat in seats {
        numbers.push(seat.conn)?;
    }
    Ok(numbers)
}

/// Forgets these connections.
fn forget_all(agent: &mut AgentCore, conns: &[u32])
    ensures { agent.new ≡ forgotten_all conns.now agent.old }
{
    for conn in conns {
        agent.forget(*conn);
    }
}

/// Puts a seat without calls for each of these connections into the empty list, which has room.
fn seat_all<L: Settings>(
    alloc: Global,
    spare: &mut Share<L>,
    seats: &mut Vec<Seat<L>>,
    conns: &[u32],
)
    requires none { seats.old.items ≡ [] }
    requires room { length conns.now ≤ vec_capacity seats.old }
    requires parts { length conns.now ≤ spare.old.parts }
    requires spare { spare.old.amount ≡ 0 }
    ensures seats { seats.new.items ≡ map new_seat conns.now }
    ensures parts { spare.new.parts + length conns.now ≡ spare.old.parts }
    ensures spare { spare.new.amount ≡ 0 }
{
    for conn in conns {
        let part = spare.split_off(1, 0);
        seats.push_reserved(Seat {
            conn: *conn,
            calls: Vec::new(alloc),
            refused: 0,
            part,
        });
    }
}

/// What is made ready before a generation is closed: the connections that go on, those that are gone, and room for the
/// new seats.
#[derive(Drop)]
struct Plan<L: Ledger> {
    staying: Vec<u32>,
    gone: Vec<u32>,
    fresh: Vec<Seat<L>>,
}

fn make_plan<L: Settings>(
    alloc: Global,
    live: &[Seat<L>],
    ended: &[Seat<L>],
) -> Result<Plan<L>, NoMemory>
    ensures staying { IfOk result (λ p. p.staying.items ≡ conns_of live.now) }
    ensures gone { IfOk result (λ p. p.gone.items ≡ conns_of ended.now) }
    ensures fresh { IfOk result (λ p. (p.fresh.items ≡ []) × (length live.now ≤ vec_capacity p.fresh)) }
{
    let staying = numbers(alloc, live)?;
    let gone = numbers(alloc, ended)?;
    let mut fresh = Vec::new(alloc);
    fresh.reserve(live.len())?;
    Ok(Plan {
        staying,
        gone,
        fresh,
    })
}

impl<L: Settings> Generation<L> {
    /// What differs between these seats and the journal, if anything does; else the plan for the next generation.
    fn planned(&self, live: &[Seat<L>], ended: &[Seat<L>]) -> Result<Plan<L>, CloseError>
        ensures each { OnOk result (All (λ p. calls_of p.conn self.now.of.journal ≡ p.calls) (live.now ++ ended.now)) }
        ensures staying { IfOk result (λ p. p.staying.items ≡ conns_of live.now) }
        ensures gone { IfOk result (λ p. p.gone.items ≡ conns_of ended.now) }
        ensures fresh { IfOk result (λ p. (p.fresh.items ≡ []) × (length live.now ≤ vec_capacity p.fresh)) }
        ensures cause { IfErr result (λ e. LockedCause self.now.of (live.now ++ ended.now) e) }
    {
        match self.torn(live) {
            Err(NoMemory) => return Err(CloseError::NoMemory),
            Ok(Some(why)) => return Err(why),
            Ok(None) => {}
        }
        match self.torn(ended) {
            Err(NoMemory) => return Err(CloseError::NoMemory),
            Ok(Some(why)) => return Err(why),
            Ok(None) => {}
        }
        match make_plan(self.alloc, live, ended) {
            Ok(plan) => Ok(plan),
            Err(NoMemory) => Err(CloseError::NoMemory),
        }
    }

    /// Closes the journal and begins the next generation. Takes no memory.
    fn pass_on(&mut self, live: &mut Vec<Seat<L>>, ended: &mut Vec<Seat<L>>, plan: Plan<L>) -> Past
        requires all { length live.old.items + length ended.old.items ≡ self.old.of.made }
        requires staying { plan.staying.items ≡ conns_of live.old.items }
        requires gone { plan.gone.items ≡ conns_of ended.old.items }
        requires fresh { (plan.fresh.items ≡ []) × (length live.old.items ≤ vec_capacity plan.fresh) }
        ensures past { result
            ≡ record { start = self.old.start; last = self.old.of.list; entries = self.old.of.journal } }
        ensures together { length self.old.of.journal
            ≡ sum_by (λ p. length p.calls) (live.old.items ++ ended.old.items) }
        ensures next { self.new ≡ next_of self.old (conns_of ended.old.items) (length live.old.items) }
        ensures seats { live.new.items ≡ renewed live.old.items }
        ensures none { ended.new.items ≡ [] }
    {
        let Plan {
            staying,
            gone,
            fresh,
        } = plan;
        gather(&mut self.spare, mem::replace(live, fresh));
        gather(&mut self.spare, mem::replace(ended, Vec::new(self.alloc)));
        self.book.audit(&mut self.spare);
        self.book.sub(&mut self.spare, self.journal.len() as u64);
        seat_all(self.alloc, &mut self.spare, live, staying.as_slice());
        let last = Snapshot::of(&self.agent);
        forget_all(&mut self.agent, gone.as_slice());
        let start = mem::replace(&mut self.start, Snapshot::of(&self.agent));
        self.counts = Counts::new(self.alloc);
        self.made = staying.len() as u32;
        self.weight = ENTRY_WEIGHT * u64::from(self.made);
        let entries = mem::replace(&mut self.journal, Vec::new(self.alloc));
        Past {
            start,
            last,
            entries,
        }
    }

    /// Closes the journal, if the seats' calls are in it, and begins the next generation: with the agent as it is, of
    /// which only the connections of the ended seats are forgotten, and with a seat without calls for each connection
    /// that goes on. Otherwise nothing changes.
    #[tactic(auto, using(crate::proofs::Seams::carries_on))]
    pub(crate) fn renew(
        &mut self,
        live: &mut Vec<Seat<L>>,
        ended: &mut Vec<Seat<L>>,
    ) -> Result<Past, CloseError>
        requires all { length live.old.items + length ended.old.items ≡ self.old.of.made }
        ensures past { IfOk result
            (λ p. p ≡ record { start = self.old.start; last = self.old.of.list; entries = self.old.of.journal }) }
        ensures accounts { OnOk result (AccountsFrom
            self.old.start self.old.of.list L.limit self.old.of.journal (live.old.items ++ ended.old.items)) }
        // Keys, deadlines, constraints, the lock and the questions of the connections that go on are the same.
        ensures carries { OnOk result (CarriesOn (conns_of ended.old.items) self.old.of.list self.new.of.list) }
        ensures next { OnOk result (self.new ≡ next_of self.old (conns_of ended.old.items) (length live.old.items)) }
        ensures seats { OnOk result ((live.new.items ≡ renewed live.old.items) × (ended.new.items ≡ [])) }
        ensures same { OnErr result
            ((self.new ≡ self.old) × (live.new.items ≡ live.old.items) × (ended.new.items ≡ ended.old.items)) }
        ensures cause { IfErr result (λ e. LockedCause self.old.of (live.old.items ++ ended.old.items) e) }
    {
        self.is_legal();
        self.is_as_named();
        self.is_within();
        match self.planned(live.as_slice(), ended.as_slice()) {
            Ok(plan) => Ok(self.pass_on(live, ended, plan)),
            Err(why) => Err(why),
        }
    }
}
