//! The state behind the mutex of an agent that lasts: its generation, and the seats of all its connections.

ghost use Rattle.std.specs.Prelude.{◌≡◌, ◌≤◌, ◌++◌, ◌<◌, ◌⊎◌, [], IfErr, IfOk, IfSome, OnErr, OnOk, length};
ghost use Rattle.sshc_key.specs.Signers.{since};
ghost use Rattle.sshc_wire.specs.Faults.{Rose};
ghost use Rattle.sshc_agent_core.specs.AgentList.{empty_list};
ghost use Rattle.sshc_agent_shared.specs.Calls.{call_of};
ghost use Rattle.sshc_agent_shared.specs.Generations.{IsLastingStep, IsReached};
ghost use Rattle.sshc_agent_shared.specs.Kept.{Adds};
ghost use Rattle.sshc_agent_shared.specs.Lasting.{Called, Connects, HasSeat, Leaves, RefusesSeat, Renews};

use crate::error::{CallRefused, CloseError, LastingRefused};
use crate::generation::Generation;
use crate::past::Past;
use crate::seat::Seat;
use crate::settings::Settings;
use sshc_agent_core::{AgentInput, AgentOutput, Cause};
use sshc_key::LocalSigner;
use std::alloc::Global;
use std::marker::Model;
use std::sync::ledger::Blank;

/// An agent whose history is kept in generations, with the seats of all its connections. A connection is a number.
#[derive(Drop)]
pub struct LastingState<L: Settings> {
    pub(crate) generation: Generation<L>,
    live: Vec<Seat<L>>,
    ended: Vec<Seat<L>>,
}

impl<L: Settings> Model for LastingState<L> {
    ghost use Rattle.std.specs.Prelude.{◌≡◌, ◌+◌, length};
    ghost use Rattle.std.specs.Coded.{codes};
    ghost use Rattle.sshc_key.specs.PairCode.{key_pair_code};
    ghost use Rattle.sshc_agent_shared.specs.Generations.{IsReached, LastingView};

    ghost Value = { LastingView };

    ghost coded = { Prim.hlevel (codes, key_pair_code) };

    ghost view = { λ s. record { generation = s.generation; live = s.live.items; ended = s.ended.items } };

    ghost invariant = { λ s. IsReached s.generation.of.asks s.generation.start
        × (length s.live.items + length s.ended.items ≡ s.generation.of.made) };
}

/// The index of the connection's seat, if it is there: seats are in the order of their numbers.
fn place_of<L: Settings>(seats: &[Seat<L>], conn: u32) -> Option<usize>
    ensures { IfSome result (λ at. (at < length seats.now) × HasSeat seats.now conn at) }
{
    let at = seats.binary_search_by_key(&conn, |seat| seat.conn).ok()?;
    let seat = &seats[at];
    if seat.conn == conn { Some(at) } else { None }
}

/// A call of a seat, with the reason as this agent's where it is refused.
fn call_by<L: Settings, G: LocalSigner>(
    generation: &mut Generation<L>,
    seat: &mut Seat<L>,
    now: u64,
    input: AgentInput,
    signer: &mut G,
) -> Result<AgentOutput, LastingRefused>
    ensures adds { IfOk result
        (λ out. Adds generation.old.of generation.new.of seat.old seat.new now input
        (since (G.calls signer.old) (G.calls signer.new)) out) }
    ensures start { (generation.new.start ≡ generation.old.start) × (generation.new.last ≡ generation.old.last) }
    ensures err { OnErr result ((generation.new ≡ generation.old) × (seat.new ≡ seat.old)) }
    ensures asked { OnOk result
        (G.calls signer.new ≡ G.calls signer.old ++ since (G.calls signer.old) (G.calls signer.new)) }
    ensures unasked { OnErr result (G.calls signer.new ≡ G.calls signer.old) }
    ensures cause { IfOk result (λ out. out ≡ AgentOutput.Closed Cause.SignerRefused
        → Rose (G.refusals signer.old) (G.refusals signer.new)) }
    ensures later { G.refusals signer.old ≤ G.refusals signer.new }
{
    match generation.try_call(seat, now, input, signer) {
        Ok(output) => Ok(output),
        Err(refused) => Err(LastingRefused::Call(refused)),
    }
}

impl<L: Settings> LastingState<L> {
    /// No calls yet, and an agent that holds nothing. If `asks`, the user is asked about each request. The ledger has
    /// 2^26 parts.
    pub fn new(alloc: Global, blank: Blank, asks: bool, journal_limit: u32) -> LastingState<L>
        requires parts { blank.parts ≡ 67108864 }
        requires ledger { (blank.name ≡ L.name) × (blank.parts ≡ L.parts) }
        requires settings { (asks ≡ L.asks) × (journal_limit ≡ L.limit) }
        ensures list { result.generation.of.list ≡ empty_list asks }
        ensures none { (result.live ≡ []) × (result.ended ≡ []) }
    {
        LastingState {
            generation: Generation::new(alloc, blank, asks, journal_limit),
            live: Vec::new(alloc),
            ended: Vec::new(alloc),
        }
    }

    /// Generations lead to the begin of this one from an agent that holds nothing.
    pub fn is_reached(&self)
        ensures { IsReached L.asks self.now.generation.start }
    {
        self.generation.is_as_named();
    }

    /// The number of a new connection. If it is refused, the journal would weigh more than its limit, or memory ran out.
    pub fn connect(&mut self) -> Result<u32, LastingRefused>
        ensures connects { Connects self.old self.new result }
        ensures refused { IfErr result (λ e. RefusesSeat self.old e) }
    {
        if self.live.reserve(1).is_err() || self.generation.last() == u32::MAX {
            return Err(LastingRefused::Call(CallRefused::NoMemory));
        }
        match self.generation.seat() {
            Ok(seat) => {
                let conn = seat.conn;
                self.live.push_reserved(seat);
                Ok(conn)
            }
            Err(refused) => Err(LastingRefused::Call(refused)),
        }
    }

    /// Takes an input of a connection at a moment in milliseconds: one step of the agent, with its entry in the journal
    /// and its call in the connection's seat. A refused call changes nothing.
    pub fn call<G: LocalSigner>(
        &mut self,
        conn: u32,
        now: u64,
        input: AgentInput,
        signer: &mut G,
    ) -> Result<AgentOutput, LastingRefused>
        ensures called { Called self.old self.new conn now input
            (since (G.calls signer.old) (G.calls signer.new)) result }
        // The output is that of a step of an agent to which generations lead.
        ensures tells { IfOk result
            (λ out. IsLastingStep L.asks conn (call_of now input out)
            (since (G.calls signer.old) (G.calls signer.new))) }
        ensures asked { OnOk result
            (G.calls signer.new ≡ G.calls signer.old ++ since (G.calls signer.old) (G.calls signer.new)) }
        ensures unasked { OnErr result (G.calls signer.new ≡ G.calls signer.old) }
        // The connection is closed because the signer refused only where its count rose.
        ensures cause { IfOk result (λ out. out ≡ AgentOutput.Closed Cause.SignerRefused
            → Rose (G.refusals signer.old) (G.refusals signer.new)) }
        ensures later { G.refusals signer.old ≤ G.refusals signer.new }
    {
        self.generation.is_legal();
        self.generation.is_as_named();
        let Some(at) = place_of(self.live.as_slice(), conn) else {
            return Err(LastingRefused::NotConnected);
        };
        call_by(&mut self.generation, &mut self.live[at], now, input, signer)
    }

    /// Whether a connection that goes on has this number.
    pub(crate) fn is_connected(&self, conn: u32) -> bool {
        place_of(self.live.as_slice(), conn).is_some()
    }

    /// The connection ended: its seat is kept with those of the ended ones, and the agent forgets it with the next
    /// generation. Nothing changes where no connection has this number, or memory runs out.
    pub fn leave(&mut self, conn: u32)
        ensures leaves { Leaves self.old self.new conn ⊎ (self.new ≡ self.old) }
    {
        let Some(at) = place_of(self.live.as_slice(), conn) else {
            return;
        };
        if self.ended.reserve(1).is_err() {
            return;
        }
        let seat = self.live.remove(at);
        self.ended.push_reserved(seat);
    }

    /// Closes the journal, if the calls of all seats are in it, and begins the next generation: with the agent as it
    /// is, of which only connections that ended are forgotten, and a seat without calls for each connection that goes
    /// on. Otherwise nothing changes.
    pub fn renew(&mut self) -> Result<Past, CloseError>
        ensures renews { Renews L.limit self.old self.new result }
    {
        self.generation.is_legal();
        self.generation.renew(&mut self.live, &mut self.ended)
    }
}
