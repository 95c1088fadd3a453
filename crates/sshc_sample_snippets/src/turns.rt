//! A session with what is submitted to it, turn by turn.

use sshc_client::Handler;
use sshc_handle_state::{HandleState, Turn};
use sshc_key::{LocalSigner, Verifier};
use sshc_transport::Transport;

/// Takes at most 100 turns at a moment in milliseconds, and returns the first that took no event; `Idle` for a session
/// that has ended.
pub fn settle<H: Handler, T: Transport, S: LocalSigner, V: Verifier>(
    state: &mut HandleState<H>,
    now: u64,
    transport: &mut T,
    handler: &mut H,
    signer: &mut S,
    verifier: &V,
) -> Turn<H::Error> {
    for _ in 0..100 {
        if state.is_over() {
            return Turn::Idle;
        }
        match state.turn(now, transport, handler, signer, verifier) {
            Turn::Took => {}
            turn => return turn,
        }
    }
    Turn::Idle
}
