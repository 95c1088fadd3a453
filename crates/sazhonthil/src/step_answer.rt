//! What became of events: a status, and the place or line that an error names.

ghost use Rattle.std.specs.Prelude.{◌≡◌};
ghost use Rattle.sshc_run_script.specs.Words.{error_status};
ghost use Rattle.sazhonthil.specs.StepAnswers.{answer_of, end_status, error_detail, step_answer};

use sshc_auth::Ended;
use sshc_c_calls::status::{CLOSED, DISCONNECTED, OK, OVER, REMOTE_DISCONNECT};
use sshc_run_script::{RunError, RunStep};

#[derive(Drop, Clone, Copy)]
pub struct StepAnswer {
    pub status: u32,
    pub detail: u64,
}

/// A status without a place or line.
fn bare(status: u32) -> StepAnswer
    ensures { result ≡ step_answer status 0 }
{
    StepAnswer { status, detail: 0 }
}

/// The program's status for an error.
fn error_status(error: RunError) -> u32
    ensures { result ≡ error_status error }
{
    match error {
        RunError::NoMemory => 20,
        RunError::ReadFault => 21,
        RunError::WriteFault => 22,
        RunError::SignerFault => 23,
        RunError::BadEvent { .. } => 24,
        RunError::OutOfTurn { .. } => 25,
        RunError::ScriptTooLong => 26,
        RunError::TransportFailed => 27,
        RunError::UnknownKey => 28,
        RunError::KeyChanged { .. } => 29,
        RunError::Decode => 30,
        RunError::SshKey => 31,
        RunError::Inconsistent => 32,
        RunError::Pending => 33,
        RunError::NoAuthMethod => 34,
        RunError::NotAuthenticated => 35,
        RunError::SshEncoding => 36,
        RunError::InvalidDisconnect => 37,
        RunError::RecvError => 38,
        RunError::KeepaliveTimeout => 39,
        RunError::InactivityTimeout => 40,
        RunError::Revoked { .. } => 42,
        RunError::RekeyKey => 43,
    }
}

/// The place or line that an error names, or 0.
fn error_detail(error: RunError) -> u64
    ensures { result ≡ error_detail error }
{
    match error {
        RunError::BadEvent { at } => at,
        RunError::OutOfTurn { at } => at,
        RunError::KeyChanged { line } => line,
        RunError::Revoked { line } => line,
        _ => 0,
    }
}

fn end_status(ended: &Ended) -> u32
    ensures { result ≡ end_status ended.now }
{
    match ended {
        Ended::RemoteDisconnect(_) => REMOTE_DISCONNECT,
        Ended::Disconnected => DISCONNECTED,
        Ended::Closed => CLOSED,
        Ended::ScriptEnd => OK,
    }
}

/// The answer for what became of events.
pub fn answer_of(step: &RunStep) -> StepAnswer
    ensures { result ≡ answer_of step.now }
{
    match step {
        RunStep::Went => bare(OK),
        RunStep::Ended(ended) => bare(end_status(ended)),
        RunStep::Refused(error) => StepAnswer {
            status: error_status(*error),
            detail: error_detail(*error),
        },
        RunStep::Closed => bare(OVER),
    }
}
