//! The laws that the promises of a run depend on.

ghost use Rattle.sshc_run_script.specs.SessionLaws.{SessionLaws};

use sshc_client_table::{row_laws, session_laws};
use sshc_mux::account;

/// The laws of open sessions and of channels that the promises of a run depend on. The call does nothing.
pub fn run_laws()
    ensures laws { SessionLaws }
{
    row_laws();
    session_laws();
    account();
}
