//! A run of a script.

ghost use Rattle.sshc_run_script.specs.RunFaults.{SignerCounted};
ghost use Rattle.sshc_run_script.specs.RunOutside.{run_outside, sink_state, source_state};
ghost use Rattle.sshc_run_script.specs.RunPromises.{run_asked, RunPromises};

use crate::error::RunError;
use crate::laws::run_laws;
use crate::paused_run::PausedRun;
use sshc_auth::Ended;
use sshc_client::Config;
use sshc_key::{LocalSigner, Verifier};
use sshc_wire::{NoMemory, Sink, Source};
use std::alloc::Global;

/// Runs a script: takes its events one at a time, judges host keys by the known hosts text, and writes a line for each
/// record before it reads the next event. It stops at the first end or error; the bytes after that remain unread.
pub fn run_script<S: Source, K: Sink, G: LocalSigner, V: Verifier>(
    alloc: Global,
    config: &Config,
    host: &str,
    port: u16,
    known: &str,
    signer: &mut G,
    verifier: &V,
    source: &mut S,
    sink: &mut K,
) -> Result<Ended, RunError>
    // What a run guarantees, each a field with its own name: specs/RunPromises.antt.
    ensures promises { RunPromises (run_asked host.now port known.now (V.accepts verifier.now) config.now)
        (run_outside
        (source_state (S.left source.old) (S.reads source.old) (S.empty_reads source.old) (S.faults source.old))
        (sink_state (K.contents sink.old) (K.writes sink.old) (K.empty_writes sink.old) (K.faults sink.old))
        (G.calls signer.old))
        (run_outside
        (source_state (S.left source.new) (S.reads source.new) (S.empty_reads source.new) (S.faults source.new))
        (sink_state (K.contents sink.new) (K.writes sink.new) (K.empty_writes sink.new) (K.faults sink.new))
        (G.calls signer.new))
        result }
    // `SignerFault` is returned only if the signer's count of refusals rose, which never falls.
    ensures signer { SignerCounted (G.refusals signer.old) (G.refusals signer.new) result }
{
    run_laws();
    match PausedRun::start(alloc, config, host, port, known) {
        Ok(mut run) => {
            let answer = run.run_on(source, signer, verifier, sink);
            drop(run);
            answer
        }
        Err(NoMemory) => Err(RunError::NoMemory),
    }
}
