//! A run whose events come one by one.

ghost use Rattle.std.specs.Prelude.{◌≡◌, false};
ghost use Rattle.sshc_key.specs.Signers.{since};
ghost use Rattle.sshc_run_script.specs.PausedRuns.{text_since, HasRunOn};
ghost use Rattle.sshc_run_script.specs.RunPromises.{run_asked};
ghost use Rattle.sshc_sample_snippets.specs.Handing.{Hands};

use sshc_auth::Ended;
use sshc_key::{LocalSigner, Verifier};
use sshc_run_script::{Config, PausedRun, RunError, RunStep};
use sshc_wire::{NoMemory, Octets};
use std::alloc::Global;

/// Hands the events to the run until one of them stops it.
fn hand_over<G: LocalSigner, V: Verifier>(
    run: &mut PausedRun,
    events: &[Octets],
    signer: &mut G,
    verifier: &V,
    lines: &mut Vec<u8>,
) -> Result<Ended, RunError>
    requires going { run.old.over ≡ false }
    ensures handed { Hands (V.accepts verifier.now) run.old events.now (since (G.calls signer.old) (G.calls signer.new))
        (text_since lines.old.items lines.new.items) result }
{
    for event in events {
        match run.take(event.as_slice(), signer, verifier, lines) {
            RunStep::Went => {}
            RunStep::Ended(ended) => return Ok(ended),
            RunStep::Refused(error) => return Err(error),
            RunStep::Closed => unreachable!(),
        }
    }
    Ok(Ended::ScriptEnd)
}

/// Hands events to a run one by one, as a program does that gets them from a transport of its own, and adds the lines
/// of their records to `lines`. It stops with the first event that ends the run or is refused.
pub fn run_one_by_one<G: LocalSigner, V: Verifier>(
    alloc: Global,
    config: &Config,
    host: &str,
    port: u16,
    known: &str,
    events: &[Octets],
    signer: &mut G,
    verifier: &V,
    lines: &mut Vec<u8>,
) -> Result<Ended, RunError>
    ensures promises { HasRunOn (run_asked host.now port known.now (V.accepts verifier.now) config.now) events.now
        (since (G.calls signer.old) (G.calls signer.new)) (text_since lines.old.items lines.new.items) result }
{
    match PausedRun::start(alloc, config, host, port, known) {
        Ok(mut run) => {
            let answer = hand_over(&mut run, events, signer, verifier, lines);
            drop(run);
            answer
        }
        Err(NoMemory) => Err(RunError::NoMemory),
    }
}
