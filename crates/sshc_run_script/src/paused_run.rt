//! A run whose events come one at a time.

ghost use Rattle.std.specs.Prelude.{◌≡◌, ◌++◌, [], Ok, false, IfOk, OnErr, Err};
ghost use Rattle.sshc_auth.specs.declared.ended.Ended.TheVariants.{ScriptEnd};
ghost use Rattle.sshc_wire.specs.Faults.{Rose};
ghost use Rattle.sshc_client_packets.specs.HostKeyProof.{Accepts};
ghost use Rattle.sshc_hosts.specs.HostText.{host_text};
ghost use Rattle.sshc_key.specs.Signers.{since};
ghost use Rattle.sshc_run_script.specs.LoopInvariant.{Pauses};
ghost use Rattle.sshc_run_script.specs.Outcome.{streams, Ends};
ghost use Rattle.sshc_run_script.specs.Paused.{is_stopped, paused, spot_of, started, table_from};
ghost use Rattle.sshc_run_script.specs.PausedRuns.{nothing_yet, step_of, text_since, HasRun, IsRun, Takes};
ghost use Rattle.sshc_run_script.specs.Ready.{IsReady};
ghost use Rattle.sshc_run_script.specs.RecordLines.{text_lines};
ghost use Rattle.sshc_run_script.specs.RunFaults.{SignerCounted};
ghost use Rattle.sshc_run_script.specs.RunOutside.{run_outside, sink_state, source_state, CountsMoved};
ghost use Rattle.sshc_run_script.specs.RunPromises.{run_asked};
ghost use Rattle.sshc_run_script.specs.TurnContracts.{hosts_of};

use crate::error::RunError;
use crate::kept_records::KeptRecords;
use crate::known_hosts_handler::KnownHostsHandler;
use crate::laws::run_laws;
use crate::lent::{LentBytes, LineSink};
use crate::point::Point;
use crate::record_sink::RecordSink;
use crate::run_step::RunStep;
use crate::turns::take_turns;
use sshc_auth::Ended;
use sshc_client::Config;
use sshc_key::{LocalSigner, Verifier};
use sshc_wire::{NoMemory, Source};
use std::alloc::Global;
use std::marker::Model;
use std::mem;

/// A run of a script between two of its events, which contracts see as plain data: for a program that gets its events
/// one by one.
#[derive(Drop)]
pub struct PausedRun {
    alloc: Global,
    gate: KnownHostsHandler,
    at: Point,
    memory: Vec<u8>,
    remaining: u32,
    over: bool,
}

impl Model for PausedRun {
    ghost use Rattle.sshc_run_script.specs.Paused.{paused, paused_code, CanGoOn, Paused};
    ghost use Rattle.sshc_run_script.specs.TurnContracts.{hosts_of};

    ghost Value = { Paused };

    ghost coded = { paused_code };

    ghost view = { λ r. paused (hosts_of r.gate) r.at.session r.at.agents r.at.place r.at.last r.remaining r.over };

    ghost invariant = { λ r. CanGoOn r.over r.at.session r.at.place r.remaining };
}

/// What became of the events, by how the run over them ended.
fn step_of(answer: Result<Ended, RunError>) -> RunStep
    ensures { result ≡ step_of answer }
{
    match answer {
        Ok(Ended::ScriptEnd) => RunStep::Went,
        Ok(Ended::Disconnected) => RunStep::Ended(Ended::Disconnected),
        Ok(Ended::Closed) => RunStep::Ended(Ended::Closed),
        Ok(Ended::RemoteDisconnect(info)) => RunStep::Ended(Ended::RemoteDisconnect(info)),
        Err(error) => RunStep::Refused(error),
    }
}

/// A run that is ready at the first place, of at most so many events.
fn paused_at(alloc: Global, gate: KnownHostsHandler, at: Point, remaining: u32) -> PausedRun
    requires ready { IsReady at.session }
    requires place { at.place ≡ 0 }
    ensures { result ≡ paused (hosts_of gate) at.session at.agents at.place at.last remaining false }
{
    PausedRun {
        alloc,
        gate,
        at,
        memory: Vec::new(alloc),
        remaining,
        over: false,
    }
}

impl PausedRun {
    /// The run before its first event: host keys are judged by the known hosts text, for the host at the port.
    pub fn start(
        alloc: Global,
        config: &Config,
        host: &str,
        port: u16,
        known: &str,
    ) -> Result<PausedRun, NoMemory>
        ensures start { IfOk result (λ r. r ≡ started (host_text host.now port) known.now config.now) }
        // It is the run of no event, by the tables.
        ensures run { IfOk result (λ r. (accepts : Accepts) →
            IsRun (run_asked host.now port known.now accepts config.now) nothing_yet r) }
        ensures none { OnErr result ((accepts : Accepts) →
            HasRun (run_asked host.now port known.now accepts config.now) nothing_yet [] (Err RunError.NoMemory)) }
    {
        run_laws();
        let gate = KnownHostsHandler::new(alloc, host, port, known)?;
        let at = Point::at_start(alloc, config)?;
        Ok(paused_at(alloc, gate, at, config.max_events))
    }

    /// Whether an event ended the run, or was refused.
    pub fn is_over(&self) -> bool
        ensures { result ≡ self.now.over }
    {
        self.over
    }

    /// Takes the events of a source, until one of them stops the run or the source ends.
    pub(crate) fn run_on<S: Source, G: LocalSigner, V: Verifier, K: RecordSink>(
        &mut self,
        source: &mut S,
        signer: &mut G,
        verifier: &V,
        sink: &mut K,
    ) -> Result<Ended, RunError>
        requires going { self.old.over ≡ false }
        ensures run { Ends self.old.remaining self.old.place self.old.last
            (table_from self.old (V.accepts verifier.now) self.old.remaining (spot_of self.old))
            (streams (S.left source.old) (K.contents sink.old) (S.reads source.old) (G.calls signer.old))
            (streams (S.left source.new) (K.contents sink.new) (S.reads source.new) (G.calls signer.new)) result }
        ensures paused { result ≡ Ok ScriptEnd → Pauses (table_from self.old (V.accepts verifier.now))
            (spot_of self.old) self.old.remaining (spot_of self.new) self.new.remaining
            (streams (S.left source.old) (K.contents sink.old) (S.reads source.old) (G.calls signer.old))
            (streams (S.left source.new) (K.contents sink.new) (S.reads source.new) (G.calls signer.new)) }
        ensures over { self.new.over ≡ is_stopped result }
        ensures same { self.new.hosts ≡ self.old.hosts }
        ensures counts { CountsMoved
            (run_outside
            (source_state (S.left source.old) (S.reads source.old) (S.empty_reads source.old) (S.faults source.old))
            (sink_state (K.contents sink.old) (K.writes sink.old) (K.empty_writes sink.old) (K.faults sink.old))
            (G.calls signer.old))
            (run_outside
            (source_state (S.left source.new) (S.reads source.new) (S.empty_reads source.new) (S.faults source.new))
            (sink_state (K.contents sink.new) (K.writes sink.new) (K.empty_writes sink.new) (K.faults sink.new))
            (G.calls signer.new))
            result }
        ensures signer { SignerCounted (G.refusals signer.old) (G.refusals signer.new) result }
    {
        let answer = take_turns(
            self.alloc,
            &mut self.memory,
            &mut self.remaining,
            &mut self.at,
            &mut self.gate,
            source,
            signer,
            verifier,
            sink,
        );
        self.over = !matches!(answer, Ok(Ended::ScriptEnd));
        answer
    }

    /// Takes the events of these bytes, mostly one, and adds the lines of their records to `lines`. The bytes count as
    /// the script's reading would have it: bytes that are no whole event are refused as a bad event. The verifier is to
    /// be the same each time.
    pub fn take<G: LocalSigner, V: Verifier>(
        &mut self,
        events: &[u8],
        signer: &mut G,
        verifier: &V,
        lines: &mut Vec<u8>,
    ) -> RunStep
        // Whatever the run was handed before: it is the run of that and of these events, by the tables.
        ensures takes { Takes (V.accepts verifier.now) self.old events.now
            (since (G.calls signer.old) (G.calls signer.new))
            (text_since lines.old.items lines.new.items) self.new result }
        // `SignerFault` is returned only if the signer's count of refusals rose.
        ensures signer { result
            ≡ RunStep.Refused RunError.SignerFault → Rose (G.refusals signer.old) (G.refusals signer.new) }
        ensures lines { lines.new.items ≡ lines.old.items ++ text_since lines.old.items lines.new.items }
        ensures gained { G.calls signer.new ≡ G.calls signer.old ++ since (G.calls signer.old) (G.calls signer.new) }
    {
        run_laws();
        if self.over {
            return RunStep::Closed;
        }
        let mut source = LentBytes::new(events);
        let mut sink = LineSink::new(mem::replace(lines, Vec::new(self.alloc)));
        let answer = self.run_on(&mut source, signer, verifier, &mut sink);
        *lines = sink.into_lines();
        step_of(answer)
    }
    /// Takes the events of these bytes as `take` does, and adds their records to `records` as they are, without lines.
    pub fn take_kept<G: LocalSigner, V: Verifier>(
        &mut self,
        events: &[u8],
        signer: &mut G,
        verifier: &V,
        records: &mut KeptRecords,
    ) -> RunStep
        // As of `take`, of the lines that these records have.
        ensures takes { Takes (V.accepts verifier.now) self.old events.now
            (since (G.calls signer.old) (G.calls signer.new))
            (text_since (text_lines records.old) (text_lines records.new)) self.new result }
        // `SignerFault` is returned only if the signer's count of refusals rose.
        ensures signer { result
            ≡ RunStep.Refused RunError.SignerFault → Rose (G.refusals signer.old) (G.refusals signer.new) }
        ensures records { text_lines records.new
            ≡ text_lines records.old ++ text_since (text_lines records.old) (text_lines records.new) }
        ensures gained { G.calls signer.new ≡ G.calls signer.old ++ since (G.calls signer.old) (G.calls signer.new) }
    {
        run_laws();
        if self.over {
            return RunStep::Closed;
        }
        let mut source = LentBytes::new(events);
        let answer = self.run_on(&mut source, signer, verifier, records);
        step_of(answer)
    }
}
