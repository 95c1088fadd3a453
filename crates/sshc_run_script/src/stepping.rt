//! One step of a run's session.

ghost use Rattle.std.specs.Prelude.{◌≡◌, ◌++◌};
ghost use Rattle.sshc_key.specs.Signers.{since};
ghost use Rattle.sshc_client_table.specs.SessionState.{is_open};
ghost use Rattle.sshc_run_script.specs.Ready.{IsReady, IsReadyAfter};
ghost use Rattle.sshc_run_script.specs.RunFaults.{SignerTaken};
ghost use Rattle.sshc_run_script.specs.SessionTurn.{emptied, step_turn};
ghost use Rattle.sshc_run_script.specs.TurnContracts.{hosts_of, step_answer, Came};

use crate::known_hosts_handler::{HandlerError, KnownHostsHandler};
use crate::point::Point;
use sshc_auth::Step;
use sshc_auth_event::Event;
use sshc_key::{LocalSigner, Verifier};

/// A step. What the gate judges by stays as it was.
pub fn step_session<G: LocalSigner, V: Verifier>(
    at: &mut Point,
    event: &Event,
    gate: &mut KnownHostsHandler,
    signer: &mut G,
    verifier: &V,
) -> Step<HandlerError>
    requires ready { IsReady at.old.session }
    ensures came { Came (step_turn (is_open at.old.session.opening.phase) (hosts_of gate.old)
        (V.accepts verifier.now) at.old.place at.old.session event.now)
        (since (G.calls signer.old) (G.calls signer.new)) at.old.place result
        (emptied at.new.session) at.new.session.records }
    ensures ready { IsReadyAfter result (emptied at.new.session) }
    ensures moved { (at.new.place ≡ at.old.place) × (at.new.last ≡ at.old.last) }
    ensures agents { at.new.agents ≡ at.old.agents }
    ensures same { hosts_of gate.new ≡ hosts_of gate.old }
    ensures signer { SignerTaken (G.refusals signer.old) (G.refusals signer.new) (step_answer at.old.place result) }
    ensures gained { G.calls signer.new ≡ G.calls signer.old ++ since (G.calls signer.old) (G.calls signer.new) }
{
    at.session.step(event, gate, signer, verifier)
}
