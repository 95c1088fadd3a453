//! Closing a shared agent: all seats are back, and their calls are those of the journal.

ghost use Rattle.std.specs.Prelude.{◌≡◌, ◌≤◌, ◌+◌, All, IfErr, IfOk, MatchOption, OnOk, length, sum_by};
ghost use Rattle.sshc_agent_shared.specs.Calls.{calls_of, journal_weight};
ghost use Rattle.sshc_agent_shared.specs.Closing.{Accounts, AccountsFrom, LockedCause, TornCause};
ghost use Rattle.sshc_agent_shared.specs.Kept.{IsHistoryFrom};
ghost use Rattle.sshc_agent_core.specs.AgentHistory.{IsTold};
ghost use Rattle.sshc_agent_core.specs.LockLaw.{LocksHold};
ghost use Rattle.sshc_agent_core.specs.SignedEntries.{SignaturesArePermitted};

use crate::error::CloseError;
use crate::generation::Generation;
use crate::groups::Groups;
use crate::seat::Seat;
use crate::settings::Settings;
use crate::state::AgentState;
use sshc_agent_core::Entry;
use sshc_wire::NoMemory;
use std::sync::ledger::Share;

/// How many parts the ledger has. Each seat has one.
const PARTS: usize = 67_108_864;

impl<L: Settings> Generation<L> {
    /// The first call in which a seat and the journal differ. The journal is passed over once, however many seats there
    /// are.
    pub(crate) fn torn(&self, seats: &[Seat<L>]) -> Result<Option<CloseError>, NoMemory>
        ensures { IfOk result
            (λ r. MatchOption r (All (λ p. calls_of p.conn self.now.of.journal ≡ p.calls) seats.now)
            (λ e. TornCause self.now.of seats.now e)) }
    {
        let groups = Groups::new(self.alloc, self.journal.as_slice())?;
        for seat in seats {
            if let Some(tear) = groups.first_tear(self.alloc, seat.conn, seat.calls.as_slice())? {
                return Ok(Some(CloseError::Torn {
                    conn: seat.conn,
                    at: tear.at,
                    got: tear.got,
                    kept: tear.kept,
                }));
            }
        }
        Ok(None)
    }

    /// The journal, with bytes of its own.
    fn history(&self) -> Result<Vec<Entry>, NoMemory>
        ensures { IfOk result (λ h. h.items ≡ self.now.of.journal) }
    {
        let mut history = Vec::new(self.alloc);
        for e in self.journal.as_slice() {
            history.push(e.copy(self.alloc)?)?;
        }
        Ok(history)
    }

    /// How many seats there are: at most as many as the ledger has parts.
    fn counted(self, seats: Vec<Seat<L>>) -> (Generation<L>, Vec<Seat<L>>, u32)
        ensures state { result.0 ≡ self }
        ensures seats { result.1.items ≡ seats.items }
        ensures count { result.2 ≡ length seats.items }
    {
        let count = seats.len();
        if count <= PARTS {
            return (self, seats, count as u32);
        }
        let Generation {
            mut spare,
            whole,
            ..
        } = self;
        let mut seats = seats;
        let _of = &whole.of;
        while let Some(seat) = seats.pop() {
            let Seat { part, .. } = seat;
            spare.merge(part);
        }
        unreachable!()
    }

    /// Every part is back, so the seats' calls are all the entries of the journal, of which this is the history.
    fn settle(self, seats: Vec<Seat<L>>, history: Vec<Entry>) -> Vec<Entry>
        requires made { length seats.items ≡ self.of.made }
        requires whole { history.items ≡ self.of.journal }
        ensures journal { result.items ≡ self.of.journal }
        ensures leads { IsHistoryFrom self.start result.items self.of.list }
        ensures within { journal_weight self.of.made result.items ≤ L.limit }
        ensures together { length result.items ≡ sum_by (λ p. length p.calls) seats.items }
    {
        let Generation {
            mut book,
            mut spare,
            whole,
            ..
        } = self;
        let _of = &whole.of;
        gather(&mut spare, seats);
        book.audit(&mut spare);
        history
    }

    /// The journal, if every seat is back and its calls are in the journal. Otherwise returns the generation and the
    /// seats with the error.
    #[tactic(auto, using(crate::proofs::Seams::torn_locked))]
    pub(crate) fn close(
        self,
        seats: Vec<Seat<L>>,
    ) -> Result<Vec<Entry>, (Generation<L>, Vec<Seat<L>>, CloseError)>
        ensures journal { IfOk result (λ h. h.items ≡ self.of.journal) }
        ensures accounts { IfOk result (λ h. AccountsFrom self.start self.of.list L.limit h.items seats.items) }
        // Every seat is back.
        ensures whole { OnOk result (self.of.made ≡ length seats.items) }
        ensures same { IfErr result (λ r. (r.0 ≡ self) × (r.1.items ≡ seats.items)) }
        ensures cause { IfErr result (λ r. LockedCause self.of seats.items r.2) }
    {
        let (generation, seats, given) = self.counted(seats);
        if given != generation.made {
            let made = generation.made;
            return Err((generation, seats, CloseError::SeatsOut { made, given }));
        }
        match generation.torn(seats.as_slice()) {
            Err(NoMemory) => Err((generation, seats, CloseError::NoMemory)),
            Ok(Some(why)) => Err((generation, seats, why)),
            Ok(None) => match generation.history() {
                Err(NoMemory) => Err((generation, seats, CloseError::NoMemory)),
                Ok(history) => Ok(generation.settle(seats, history)),
            },
        }
    }
}

/// Takes the parts of the seats back.
pub(crate) fn gather<L: Settings>(spare: &mut Share<L>, seats: Vec<Seat<L>>)
    ensures parts { spare.new.parts ≡ spare.old.parts + length seats.items }
    ensures amount { spare.new.amount ≡ spare.old.amount + sum_by (λ p. length p.calls) seats.items }
{
    let mut seats = seats;
    while let Some(seat) = seats.pop() {
        let Seat { part, .. } = seat;
        spare.merge(part);
    }
}

impl<L: Settings> AgentState<L> {
    /// The journal, if every seat is back and its calls are in the journal. Otherwise returns the state and the seats
    /// with the error.
    pub fn close(
        self,
        seats: Vec<Seat<L>>,
    ) -> Result<Vec<Entry>, (AgentState<L>, Vec<Seat<L>>, CloseError)>
        ensures journal { IfOk result (λ h. h.items ≡ self.journal) }
        ensures accounts { IfOk result (λ h. Accounts L.asks L.limit h.items seats.items) }
        // From each acknowledged lock to the unlock with its passphrase, nothing is signed, listed or acknowledged.
        ensures locks { IfOk result (λ h. LocksHold h.items) }
        // Each signature is by a sign request to an unlocked agent, by a key that was held, and confirmed if it wants
        // that.
        ensures signed { IfOk result (λ h. SignaturesArePermitted h.items) }
        // An entry has a signature exactly with an answer of type 14, and it is the one in that frame.
        ensures told { IfOk result (λ h. All IsTold h.items) }
        // Every seat is back.
        ensures whole { OnOk result (self.made ≡ length seats.items) }
        ensures same { IfErr result (λ r. (r.0 ≡ self) × (r.1.items ≡ seats.items)) }
        ensures cause { IfErr result (λ r. LockedCause self seats.items r.2) }
    {
        self.is_legal();
        self.is_as_named();
        let AgentState { generation } = self;
        match generation.close(seats) {
            Ok(history) => Ok(history),
            Err((generation, seats, why)) => Err((AgentState { generation }, seats, why)),
        }
    }
}
