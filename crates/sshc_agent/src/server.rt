//! Serves many connections concurrently, each in a thread of its own.

ghost use Rattle.std.specs.Prelude.{◌≡◌, ◌≤◌, All, IfErr, IfOk, OnOk, true};
ghost use Rattle.std.specs.Thread.{IsSend, IsSync};
ghost use Rattle.sshc_agent_core.specs.AgentHistory.{IsTold};
ghost use Rattle.sshc_agent_core.specs.LockLaw.{LocksHold};
ghost use Rattle.sshc_agent_core.specs.SignedEntries.{SignaturesArePermitted};
ghost use Rattle.sshc_agent_shared.specs.Calls.{journal_weight};
ghost use Rattle.sshc_agent_shared.specs.Closing.{IsLegalBy};
ghost use Rattle.sshc_wire.specs.Faults.{Rose};
ghost use Rattle.sshc_agent.specs.Ends.{Differs};

use crate::outside::{Agent, Listener, Pause};
use crate::seats::Seats;
use crate::serving::serve_one;
use sshc_agent_core::Entry;
use sshc_agent_shared::{AgentShared, CloseError, Seat, Settings};
use sshc_key::LocalSigner;
use sshc_wire::{AgentStream, Clock, Failed, NoMemory};
use std::alloc::Global;
use std::marker::Brand;
use std::sync::ledger::{Blank, Ledger};
use std::sync::{Mutex, Wait};
use std::thread;
use std::thread::Threads;

/// How many parts the ledger has that counts an agent's entries.
const PARTS: u64 = 67_108_864;

/// The parts that belong to one connection.
#[derive(Drop)]
struct Connection<L: Ledger, S: AgentStream + Drop, G: LocalSigner + Drop, C: Clock + Drop> {
    seat: Seat<L>,
    stream: S,
    signer: G,
    clock: C,
}

/// The parts that all connections share: the agent with its user, and the seats.
#[derive(Drop)]
struct Server<'a, L: Settings, A: Agent, P: Pause> {
    alloc: Global,
    shared: AgentShared<L>,
    seats: Mutex<Seats<L>>,
    agent: &'a A,
    pause: &'a P,
}

impl<'a, L: Settings, A: Agent, P: Pause> Server<'a, L, A, P> {
    /// Makes a connection of the stream, with a seat, a signer and a clock of its own. The stream is closed if one of
    /// them can't be made.
    fn seated<S: AgentStream + Drop, G: LocalSigner + Clone, C: Clock + Clone, R: Wait>(
        &self,
        rt: &R,
        stream: S,
        signer: &G,
        clock: &C,
    ) -> Option<Connection<L, S, G, C>> {
        let signer: Result<G, _> = signer.clone();
        let signer = signer.ok()?;
        let clock: Result<C, _> = clock.clone();
        let clock = clock.ok()?;
        let seat = self.seats.lock(rt).connect(rt, &self.shared)?;
        Some(Connection {
            seat,
            stream,
            signer,
            clock,
        })
    }

    /// Serves a connection to its end, and takes its seat back.
    fn serve<S: AgentStream + Drop, G: LocalSigner + Drop, C: Clock + Drop, R: Wait>(
        &self,
        rt: &R,
        connection: Connection<L, S, G, C>,
    ) {
        let Connection {
            seat,
            stream,
            signer,
            clock,
        } = connection;
        let mut stream = stream;
        let mut signer = signer;
        let mut clock = clock;
        let (seat, _ended) = serve_one(
            rt,
            self.alloc,
            &self.shared,
            seat,
            &mut stream,
            self.agent,
            &mut signer,
            self.pause,
            &mut clock,
        );
        self.seats.lock(rt).take_back(seat);
    }
}

/// Serves each accepted stream in a thread of its own, or in the current thread if none can be started, until the
/// listener fails or memory runs out. Returns the listener once all connections have ended.
fn serve_all<
    'l,
    L: Settings + Send,
    I: Listener,
    A: Agent,
    G: LocalSigner + Clone + Send,
    P: Pause,
    C: Clock + Clone + Send,
    R: Threads + Wait + Sync,
>(
    rt: &R,
    server: &Server<'_, L, A, P>,
    listener: &'l mut I,
    signer: &G,
    clock: &C,
) -> (&'l mut I, Result<(), NoMemory>)
    ensures same { result.0.ghost_name ≡ listener.entry.ghost_name }
    ensures fault { OnOk result.1 (Rose (I.faults listener.entry.now) (I.faults result.0.now)) }
{
    thread::scope(
        thread::scope_env(),
        rt,
        move |scope| -> (&mut I, Result<(), NoMemory>)
            requires handle { IsSync R.row
                × (IsSend L.row
                × (IsSend A.row
                × (IsSync A.row × (IsSync P.row × (IsSend G.row × (IsSend C.row × IsSend I.Stream.row)))))) }
            ensures same { result.0.ghost_name ≡ listener.entry.ghost_name }
            ensures fault { OnOk result.1 (Rose (I.faults listener.entry.now) (I.faults result.0.now)) }
        {
            for _ in rt.forever() {
                match listener.accept() {
                    Err(Failed::Fault) => return (listener, Ok(())),
                    Err(Failed::NoMemory) => return (listener, Err(NoMemory)),
                    Ok(stream) => {
                        if let Some(connection) = server.seated(rt, stream, signer, clock) {
                            if let Err(refused) = scope.spawn(move || server.serve(
                                rt, connection,
                            )) {
                                (refused.value)();
                            }
                        }
                    }
                }
            }
            unreachable!()
        },
    )
}

/// Serves the streams of the listener, with the ledger of one agent.
fn serve_by<
    'a,
    L: Settings + Send,
    I: Listener,
    A: Agent,
    G: LocalSigner + Clone + Send,
    P: Pause,
    C: Clock + Clone + Send,
    R: Threads + Wait + Sync,
>(
    rt: &R,
    alloc: Global,
    blank: Blank,
    listener: &mut I,
    agent: &'a A,
    signer: &G,
    pause: &'a P,
    clock: &C,
    journal_limit: u32,
) -> Result<Vec<Entry>, CloseError>
    requires parts { blank.parts ≡ 67108864 }
    requires ledger { (blank.name ≡ L.name) × (blank.parts ≡ L.parts) }
    requires settings { (L.asks ≡ true) × (L.limit ≡ journal_limit) }
    ensures fault { OnOk result (Rose (I.faults listener.old) (I.faults listener.new)) }
    ensures legal { IfOk result (λ h. IsLegalBy true h.items) }
    ensures within { IfOk result (λ h. journal_weight 0 h.items ≤ journal_limit) }
    ensures locks { IfOk result (λ h. LocksHold h.items) }
    ensures signed { IfOk result (λ h. SignaturesArePermitted h.items) }
    ensures told { IfOk result (λ h. All IsTold h.items) }
    ensures differs { IfErr result (λ e. Differs e) }
{
    let Ok(shared) = AgentShared::<L>::new(alloc, blank, true, journal_limit) else {
        return Err(CloseError::NoMemory);
    };
    let server = Server {
        alloc,
        shared,
        seats: Mutex::new(Seats::new(alloc)),
        agent,
        pause,
    };
    let (listener, ended) = serve_all(rt, &server, listener, signer, clock);
    if ended.is_err() {
        return Err(CloseError::NoMemory);
    }
    let _listener = listener;
    let Server { shared, seats, .. } = server;
    match shared.close(seats.into_inner().into_back()) {
        Ok(history) => Ok(history),
        Err((_shared, _seats, why)) => Err(why),
    }
}

/// Serves each stream that the listener accepts, concurrently: an agent that asks about each request, with a signer and
/// a clock of its own for each connection. The end of one connection doesn't affect the others. Once the listener has
/// failed and all connections have ended, returns the history of all calls.
///
/// Errors: `NoMemory`, also where the listener ran out of memory, which ends the serving; else what differs between the
/// connections' calls and the agent's history.
pub fn serve<
    I: Listener,
    A: Agent,
    G: LocalSigner + Clone + Send,
    P: Pause,
    C: Clock + Clone + Send,
    R: Threads + Wait + Sync,
>(
    rt: &R,
    alloc: Global,
    listener: &mut I,
    agent: &A,
    signer: &G,
    pause: &P,
    clock: &C,
    journal_limit: u32,
) -> Result<Vec<Entry>, CloseError>
    // The history is returned only if the listener failed.
    ensures fault { OnOk result (Rose (I.faults listener.old) (I.faults listener.new)) }
    // It is a history of an agent that asks, and weighs at most the limit.
    ensures legal { IfOk result (λ h. IsLegalBy true h.items) }
    ensures within { IfOk result (λ h. journal_weight 0 h.items ≤ journal_limit) }
    // From each acknowledged lock to the unlock with its passphrase, nothing is signed, listed or acknowledged.
    ensures locks { IfOk result (λ h. LocksHold h.items) }
    // Each signature is by a sign request to an unlocked agent, by a key that was held, and confirmed if it wants that.
    ensures signed { IfOk result (λ h. SignaturesArePermitted h.items) }
    // An entry has a signature exactly with an answer of type 14, and it is the one in that frame.
    ensures told { IfOk result (λ h. All IsTold h.items) }
    ensures differs { IfErr result (λ e. Differs e) }
{
    serve_by::<Brand, I, A, G, P, C, R>(
        rt,
        alloc,
        Blank::new(PARTS),
        listener,
        agent,
        signer,
        pause,
        clock,
        journal_limit,
    )
}
