//! The agent, the journal of its calls, a count for each connection, and the ledger: a generation of an agent's
//! history.

ghost use Rattle.std.specs.Prelude.{◌≡◌, ◌≢◌, ◌≤◌, ◌+◌, ◌++◌, ◌<◌, ◌↔◌, [], IfErr, IfOk, IsTrue, MatchOption, OnErr};
ghost use Rattle.std.specs.Prelude.{OnOk};
ghost use Rattle.sshc_agent_core.specs.AgentList.{empty_list};
ghost use Rattle.sshc_key.specs.Signers.{since};
ghost use Rattle.sshc_wire.specs.Faults.{Rose};
ghost use Rattle.sshc_agent_shared.specs.Calls.{entry_weight};
ghost use Rattle.sshc_agent_shared.specs.Kept.{Adds, IsHistoryFrom, due, new_seat, weight_of};

use crate::counts::Counts;
use crate::error::CallRefused;
use crate::kept::{KeptEntry, frame_length};
use crate::room::Rooms;
use crate::seat::Seat;
use crate::settings::{Given, Settings};
use sshc_agent_core::{AgentCore, AgentInput, AgentOutput, Cause};
use sshc_key::LocalSigner;
use sshc_wire::NoMemory;
use std::alloc::Global;
use std::marker::{Model, PhantomData};
use std::snapshot::Snapshot;
use std::sync::ledger::{Blank, Book, Ledger, Share};

/// The weight of a seat in the journal, and that of an entry without its frame.
pub(crate) const ENTRY_WEIGHT: u64 = 64;

/// Proves that the ledger has this many parts in all.
#[derive(Drop)]
pub(crate) struct Whole<L: Ledger> {
    pub(crate) of: PhantomData<L>,
    ghost whole: { L.parts ≡ 67108864 },
}

/// An agent with the history of its calls since `start`, the agent at which the journal begins.
#[derive(Drop)]
pub(crate) struct Generation<L: Settings> {
    pub(crate) alloc: Global,
    pub(crate) given: Given<L>,
    pub(crate) agent: AgentCore,
    pub(crate) journal: Vec<KeptEntry>,
    pub(crate) counts: Counts,
    pub(crate) made: u32,
    /// The greatest number of a connection so far.
    pub(crate) last: u32,
    pub(crate) weight: u64,
    pub(crate) book: Book<L>,
    pub(crate) spare: Share<L>,
    pub(crate) whole: Whole<L>,
    pub(crate) rooms: Rooms,
    pub(crate) start: Snapshot<AgentCore>,
}

impl<L: Settings> Model for Generation<L> {
    ghost use Rattle.std.specs.Coded.{codes};
    ghost use Rattle.sshc_key.specs.PairCode.{key_pair_code};
    ghost use Rattle.sshc_agent_shared.specs.Kept.{GenerationState, IsKept, SharedState};

    ghost Value = { GenerationState };

    ghost coded = { Prim.hlevel (codes, key_pair_code) };

    ghost view = { λ s. record {
      start = s.start.value;
      last = s.last;
      of = record {
        asks = s.given.asks;
        list = s.agent;
        journal = s.journal.items;
        made = s.made;
        limit = s.given.limit;
      };
    } };

    ghost invariant = { λ s. IsKept s.start.value s.agent s.journal.items s.counts s.book.total s.spare.amount
        s.spare.parts s.made s.weight s.given.limit };
}

impl<L: Settings> Generation<L> {
    /// No calls yet, and an agent that holds nothing. If `asks`, the user is asked about each request. The ledger has
    /// 2^26 parts.
    pub(crate) fn new(alloc: Global, blank: Blank, asks: bool, journal_limit: u32) -> Generation<L>
        requires parts { blank.parts ≡ 67108864 }
        requires ledger { (blank.name ≡ L.name) × (blank.parts ≡ L.parts) }
        requires settings { (asks ≡ L.asks) × (journal_limit ≡ L.limit) }
        ensures start { result.start ≡ empty_list asks }
        ensures last { result.last ≡ 0 }
        ensures of { result.of ≡ record
            { asks = asks; list = empty_list asks; journal = []; made = 0; limit = journal_limit } }
    {
        let (book, spare) = blank.open::<L>();
        let agent = AgentCore::new(alloc, asks);
        let start = Snapshot::of(&agent);
        Generation {
            alloc,
            given: Given {
                asks,
                limit: journal_limit,
                of: PhantomData,
            },
            agent,
            journal: Vec::new(alloc),
            counts: Counts::new(alloc),
            made: 0,
            last: 0,
            weight: 0,
            book,
            spare,
            whole: Whole { of: PhantomData },
            rooms: Rooms::new(),
            start,
        }
    }

    /// The journal is a history that leads from the start to the agent's keys, lock and connections.
    pub(crate) fn is_legal(&self)
        ensures { IsHistoryFrom self.now.start self.now.of.journal self.now.of.list }
    {
        let _journal = &self.journal;
    }

    /// Its `asks` and its limit are those of its settings.
    pub(crate) fn is_as_named(&self)
        ensures asks { self.now.of.asks ≡ L.asks }
        ensures limit { self.now.of.limit ≡ L.limit }
    {
        let _given = &self.given;
    }

    /// The journal weighs at most its limit.
    pub(crate) fn is_within(&self)
        ensures { weight_of self.now.of ≤ self.now.of.limit }
    {
        let _weight = &self.weight;
    }

    /// The ledger has a part for each seat that was made.
    pub(crate) fn is_parted(&self)
        ensures { self.now.of.made ≤ 67108864 }
    {
        let _spare = &self.spare;
    }

    /// The greatest number of a connection so far.
    pub(crate) fn last(&self) -> u32
        ensures { result ≡ self.now.last }
    {
        self.last
    }

    /// Whether the journal has room for one more seat.
    pub(crate) fn has_seat(&self) -> bool
        ensures { IsTrue result ↔ (weight_of self.now.of + 64 ≤ self.now.of.limit) }
    {
        self.weight + ENTRY_WEIGHT <= self.given.limit as u64
    }

    /// Whether the journal has room for an entry with this input.
    pub(crate) fn has_room(&self, input: &AgentInput) -> bool
        ensures { IsTrue result ↔ (weight_of self.now.of + entry_weight input.now ≤ self.now.of.limit) }
    {
        let left = self.given.limit as u64 - self.weight;
        let heavy = frame_length(input) as u64;
        heavy <= left && ENTRY_WEIGHT <= left - heavy
    }

    /// Makes the seat of the next connection.
    pub(crate) fn seat(&mut self) -> Result<Seat<L>, CallRefused>
        requires few { self.old.last < 4294967295 }
        ensures seat { IfOk result (λ s. s ≡ new_seat (self.old.last + 1)) }
        ensures made { IfOk result (λ s. self.new ≡ record self.old
            { last = self.old.last + 1; of = record self.old.of { made = self.old.of.made + 1 } }) }
        ensures room { IfOk result (λ s. weight_of self.old.of + 64 ≤ self.old.of.limit) }
        // If it is refused, the journal would weigh more than its limit, and nothing changes.
        ensures full { IfErr result
            (λ e. (e ≡ CallRefused.JournalFull) × (self.old.of.limit < weight_of self.old.of + 64)) }
        ensures same { OnErr result (self.new ≡ self.old) }
    {
        if self.weight + ENTRY_WEIGHT > self.given.limit as u64 {
            return Err(CallRefused::JournalFull);
        }
        let part = self.spare.split_off(1, 0);
        self.made += 1;
        self.last += 1;
        self.weight += ENTRY_WEIGHT;
        Ok(Seat {
            conn: self.last,
            calls: Vec::new(self.alloc),
            refused: 0,
            part,
        })
    }

    /// One step of the agent, with its entry in the journal and its call in the seat.
    pub(crate) fn try_call<G: LocalSigner>(
        &mut self,
        seat: &mut Seat<L>,
        now: u64,
        input: AgentInput,
        signer: &mut G,
    ) -> Result<AgentOutput, CallRefused>
        ensures ok { IfOk result
            (λ out. Adds
            self.old.of self.new.of seat.old seat.new now input (since (G.calls signer.old) (G.calls signer.new)) out) }
        ensures start { (self.new.start ≡ self.old.start) × (self.new.last ≡ self.old.last) }
        ensures err { OnErr result ((self.new ≡ self.old) × (seat.new ≡ seat.old)) }
        ensures due { MatchOption (due self.old.of seat.old input) (IfErr result (λ e. e ≡ CallRefused.NoMemory))
            (λ e. result ≡ Err e) }
        ensures asked { OnOk result
            (G.calls signer.new ≡ G.calls signer.old ++ since (G.calls signer.old) (G.calls signer.new)) }
        ensures unasked { OnErr result (G.calls signer.new ≡ G.calls signer.old) }
        ensures cause { IfOk result (λ out. out ≡ AgentOutput.Closed Cause.SignerRefused
            → Rose (G.refusals signer.old) (G.refusals signer.new)) }
        ensures later { G.refusals signer.old ≤ G.refusals signer.new }
    {
        let conn = seat.conn;
        let kept = self.counts.at(conn);
        self.book.audit(&mut seat.part);
        let own = seat.calls.len();
        if own != kept as usize {
            return Err(CallRefused::Miscounted {
                seat: own as u32,
                kept,
            });
        }
        let left = self.given.limit as u64 - self.weight;
        let heavy = frame_length(&input) as u64;
        if left < heavy || left - heavy < ENTRY_WEIGHT {
            return Err(CallRefused::JournalFull);
        }
        let Ok(inputs) = self.rooms.make(
            self.alloc,
            &input,
            conn,
            &mut self.journal,
            &mut seat.calls,
            &mut self.counts,
        )
        else {
            return Err(CallRefused::NoMemory);
        };
        let output = self.agent.step(now, conn, &input, signer);
        let (entry, call) = self
            .rooms
            .entries(self.alloc, conn, kept, now, &input, inputs, &output);
        self.journal.push_reserved(entry);
        seat.calls.push_reserved(call);
        self.counts.raise(conn);
        self.weight += heavy + ENTRY_WEIGHT;
        self.book.add(&mut seat.part, 1);
        Ok(output)
    }
}
