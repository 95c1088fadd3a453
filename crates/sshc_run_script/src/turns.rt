//! The events of a source, one after another.

ghost use Rattle.std.specs.Prelude.{◌≡◌, ◌+◌, ◌*◌, ◌<◌, ◌≤◌, ◌^◌, Ok};
ghost use Rattle.sshc_auth.specs.declared.ended.Ended.TheVariants.{ScriptEnd};
ghost use Rattle.sshc_run_script.specs.LoopInvariant.{Pauses};
ghost use Rattle.sshc_run_script.specs.Outcome.{streams, Ends};
ghost use Rattle.sshc_run_script.specs.Ready.{IsReady};
ghost use Rattle.sshc_run_script.specs.RunFaults.{SignerCounted};
ghost use Rattle.sshc_run_script.specs.RunOutside.{run_outside, sink_state, source_state, CountsMoved};
ghost use Rattle.sshc_run_script.specs.RunTurn.{kept, run_turn};
ghost use Rattle.sshc_run_script.specs.ScriptRun.{run, spot};
ghost use Rattle.sshc_run_script.specs.TurnContracts.{hosts_of};

use crate::error::RunError;
use crate::known_hosts_handler::KnownHostsHandler;
use crate::point::Point;
use crate::record_sink::RecordSink;
use crate::turn::{at_limit, one_turn};
use sshc_auth::Ended;
use sshc_key::{LocalSigner, Verifier};
use sshc_wire::Source;
use std::alloc::Global;

/// Takes events, at most as many as remain, from the state of a run. At the end of the source the state is that after
/// its last event.
pub fn take_turns<S: Source, G: LocalSigner, V: Verifier, K: RecordSink>(
    alloc: Global,
    memory: &mut Vec<u8>,
    remaining: &mut u32,
    at: &mut Point,
    gate: &mut KnownHostsHandler,
    source: &mut S,
    signer: &mut G,
    verifier: &V,
    sink: &mut K,
) -> Result<Ended, RunError>
    requires room { at.old.place + 262148 * remaining.old < 2 ^ 63 }
    requires ready { IsReady at.old.session }
    ensures run { Ends remaining.old at.old.place at.old.last
        (run (run_turn (hosts_of gate.old) (V.accepts verifier.now)) remaining.old
        (spot at.old.place at.old.last (kept at.old.session at.old.agents)))
        (streams (S.left source.old) (K.contents sink.old) (S.reads source.old) (G.calls signer.old))
        (streams (S.left source.new) (K.contents sink.new) (S.reads source.new) (G.calls signer.new)) result }
    ensures paused { result ≡ Ok ScriptEnd → Pauses (run (run_turn (hosts_of gate.old) (V.accepts verifier.now)))
        (spot at.old.place at.old.last (kept at.old.session at.old.agents)) remaining.old
        (spot at.new.place at.new.last (kept at.new.session at.new.agents)) remaining.new
        (streams (S.left source.old) (K.contents sink.old) (S.reads source.old) (G.calls signer.old))
        (streams (S.left source.new) (K.contents sink.new) (S.reads source.new) (G.calls signer.new)) }
    ensures ready { result ≡ Ok ScriptEnd → IsReady at.new.session }
    ensures room { result ≡ Ok ScriptEnd → at.new.place + 262148 * remaining.new < 2 ^ 63 }
    ensures same { hosts_of gate.new ≡ hosts_of gate.old }
    ensures counts { CountsMoved
        (run_outside
        (source_state (S.left source.old) (S.reads source.old) (S.empty_reads source.old) (S.faults source.old))
        (sink_state (K.contents sink.old) (K.writes sink.old) (K.empty_writes sink.old) (K.faults sink.old))
        (G.calls signer.old))
        (run_outside
        (source_state (S.left source.new) (S.reads source.new) (S.empty_reads source.new) (S.faults source.new))
        (sink_state (K.contents sink.new) (K.writes sink.new) (K.empty_writes sink.new) (K.faults sink.new))
        (G.calls signer.new))
        result }
    ensures signer { SignerCounted (G.refusals signer.old) (G.refusals signer.new) result }
{
    let most = *remaining;
    for turn in 0..most {
        let answer = one_turn(alloc, memory, at, gate, source, signer, verifier, sink);
        if let Some(answer) = answer {
            return answer;
        }
        *remaining -= 1;
    }
    at_limit(alloc, source)
}
