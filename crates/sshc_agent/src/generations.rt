//! Serves many connections of an agent that lasts, each in a thread of its own.

ghost use Rattle.std.specs.Prelude.{◌≡◌, ◌≤◌, IfOk, OnOk, true};
ghost use Rattle.std.specs.Thread.{IsSend, IsSync};
ghost use Rattle.sshc_agent_shared.specs.Calls.{journal_weight};
ghost use Rattle.sshc_agent_shared.specs.LongHistory.{IsLastOf};
ghost use Rattle.sshc_wire.specs.Faults.{Rose};

use crate::lasting::serve_lasting_one;
use crate::outside::{Agent, Listener};
use sshc_agent_shared::{AgentLasting, CloseError, Keeper, Past, Settings};
use sshc_key::LocalSigner;
use sshc_wire::{AgentStream, Clock, Failed, NoMemory};
use std::alloc::Global;
use std::marker::Brand;
use std::sync::Wait;
use std::sync::ledger::Blank;
use std::thread;
use std::thread::Threads;

/// How many parts the ledger has that counts an agent's entries.
const PARTS: u64 = 67_108_864;

/// The parts that belong to one connection.
#[derive(Drop)]
struct Line<S: AgentStream + Drop, G: LocalSigner + Drop, C: Clock + Drop> {
    conn: u32,
    stream: S,
    signer: G,
    clock: C,
}

/// The parts that all connections share: the agent with its user, and the keeper of its generations.
#[derive(Drop)]
struct LastingServer<'a, L: Settings, A: Agent, K: Keeper> {
    alloc: Global,
    shared: AgentLasting<L>,
    agent: &'a A,
    keeper: &'a K,
}

impl<'a, L: Settings, A: Agent, K: Keeper> LastingServer<'a, L, A, K> {
    /// Makes a connection of the stream, with a number, a signer and a clock of its own. The stream is closed if one of
    /// them can't be made.
    fn line<S: AgentStream + Drop, G: LocalSigner + Clone, C: Clock + Clone, R: Wait>(
        &self,
        rt: &R,
        stream: S,
        signer: &G,
        clock: &C,
    ) -> Option<Line<S, G, C>> {
        let signer: Result<G, _> = signer.clone();
        let signer = signer.ok()?;
        let clock: Result<C, _> = clock.clone();
        let clock = clock.ok()?;
        let conn = self.shared.connect(rt, self.keeper).ok()?;
        Some(Line {
            conn,
            stream,
            signer,
            clock,
        })
    }

    /// Serves a connection to its end.
    fn serve<S: AgentStream + Drop, G: LocalSigner + Drop, C: Clock + Drop, R: Wait>(
        &self,
        rt: &R,
        line: Line<S, G, C>,
    ) {
        let Line {
            conn,
            stream,
            signer,
            clock,
        } = line;
        let mut stream = stream;
        let mut signer = signer;
        let mut clock = clock;
        let _ended = serve_lasting_one(
            rt,
            self.alloc,
            &self.shared,
            conn,
            &mut stream,
            self.agent,
            &mut signer,
            &mut clock,
            self.keeper,
        );
        self.shared.leave(rt, conn);
    }
}

/// Serves each accepted stream in a thread of its own, or in the current thread if none can be started, until the
/// listener fails or memory runs out. Returns the listener once all connections have ended.
fn serve_lines<
    'l,
    L: Settings + Send,
    I: Listener,
    A: Agent,
    G: LocalSigner + Clone + Send,
    K: Keeper,
    C: Clock + Clone + Send,
    R: Threads + Wait + Sync,
>(
    rt: &R,
    server: &LastingServer<'_, L, A, K>,
    listener: &'l mut I,
    signer: &G,
    clock: &C,
) -> (&'l mut I, Result<(), NoMemory>)
    ensures same { result.0.ghost_name ≡ listener.entry.ghost_name }
    ensures fault { OnOk result.1 (Rose (I.faults listener.entry.now) (I.faults result.0.now)) }
{
    thread::scope(
        thread::scope_env(),
        rt,
        move |scope| -> (&mut I, Result<(), NoMemory>)
            requires handle { IsSync R.row
                × (IsSend L.row
                × (IsSend A.row
                × (IsSync A.row × (IsSync K.row × (IsSend G.row × (IsSend C.row × IsSend I.Stream.row)))))) }
            ensures same { result.0.ghost_name ≡ listener.entry.ghost_name }
            ensures fault { OnOk result.1 (Rose (I.faults listener.entry.now) (I.faults result.0.now)) }
        {
            for _ in rt.forever() {
                match listener.accept() {
                    Err(Failed::Fault) => return (listener, Ok(())),
                    Err(Failed::NoMemory) => return (listener, Err(NoMemory)),
                    Ok(stream) => {
                        if let Some(line) = server.line(rt, stream, signer, clock) {
                            if let Err(refused) = scope.spawn(move || server.serve(rt, line)) {
                                (refused.value)();
                            }
                        }
                    }
                }
            }
            unreachable!()
        },
    )
}

/// Serves the streams of the listener, with the ledger of one agent.
fn serve_generations_by<
    'a,
    L: Settings + Send,
    I: Listener,
    A: Agent,
    G: LocalSigner + Clone + Send,
    K: Keeper,
    C: Clock + Clone + Send,
    R: Threads + Wait + Sync,
>(
    rt: &R,
    alloc: Global,
    blank: Blank,
    listener: &mut I,
    agent: &'a A,
    signer: &G,
    keeper: &'a K,
    clock: &C,
    journal_limit: u32,
) -> Result<Past, CloseError>
    requires parts { blank.parts ≡ 67108864 }
    requires ledger { (blank.name ≡ L.name) × (blank.parts ≡ L.parts) }
    requires settings { (L.asks ≡ true) × (L.limit ≡ journal_limit) }
    ensures fault { OnOk result (Rose (I.faults listener.old) (I.faults listener.new)) }
    ensures lasts { IfOk result (λ past. IsLastOf true past) }
    ensures within { IfOk result (λ past. journal_weight 0 past.entries ≤ journal_limit) }
{
    let server = LastingServer {
        alloc,
        shared: AgentLasting::<L>::new(alloc, blank, true, journal_limit),
        agent,
        keeper,
    };
    let (listener, ended) = serve_lines(rt, &server, listener, signer, clock);
    if ended.is_err() {
        return Err(CloseError::NoMemory);
    }
    let _listener = listener;
    let LastingServer { shared, .. } = server;
    shared.close()
}

/// Serves each stream that the listener accepts, as `serve` does, for months: an agent that asks about each request,
/// and whose history is kept in generations. When a journal is full and no call runs, its history is closed and
/// compared with the calls of the connections, and handed to the keeper; the next one begins with the agent as it is.
/// Once the listener has failed and all connections have ended, returns the last generation.
///
/// Errors: `NoMemory`, also where the listener ran out of memory, which ends the serving; else what differs between the
/// connections' calls and the agent's history.
pub fn serve_generations<
    I: Listener,
    A: Agent,
    G: LocalSigner + Clone + Send,
    K: Keeper,
    C: Clock + Clone + Send,
    R: Threads + Wait + Sync,
>(
    rt: &R,
    alloc: Global,
    listener: &mut I,
    agent: &A,
    signer: &G,
    keeper: &K,
    clock: &C,
    journal_limit: u32,
) -> Result<Past, CloseError>
    // The last generation is returned only if the listener failed.
    ensures fault { OnOk result (Rose (I.faults listener.old) (I.faults listener.new)) }
    // Generations lead to its begin from an agent that asks and holds nothing, its history is a legal one, and over all
    // that happened to the agent, seams included, locks hold and signatures are permitted.
    ensures lasts { IfOk result (λ past. IsLastOf true past) }
    ensures within { IfOk result (λ past. journal_weight 0 past.entries ≤ journal_limit) }
{
    serve_generations_by::<Brand, I, A, G, K, C, R>(
        rt,
        alloc,
        Blank::new(PARTS),
        listener,
        agent,
        signer,
        keeper,
        clock,
        journal_limit,
    )
}
