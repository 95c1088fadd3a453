//! Laws about each row.

ghost use Rattle.sshc_client_table.specs.RowLaws.{OpenRowsAreCaused, OpenRowsKeepTheKey, UnopenedRowsStay};
ghost use Rattle.sshc_client_table.specs.StepLaws.{RowsKeepTheLaws};

/// A row of the opening after which the session continues leaves the session unopened, and closed or not as it was; a
/// row that opens the session leaves it in phase Open; none of its records is an agent's (`unopened`). A row of an open
/// session that refuses or ends it has its cause, by the state and the event alone, and none of its moves leaves or
/// stops the session, or reports a record of an agent (`opened`). However far a row of an open session is followed, and
/// whatever a handler does meanwhile, the laws of a step hold (`laws`). An open session continues behind an exchange
/// only with the first exchange's host key (`key`).
///
/// The call does nothing. It states laws about the two tables, independent of the code that runs them.
pub fn row_laws()
    ensures unopened { UnopenedRowsStay }
    ensures opened { OpenRowsAreCaused }
    ensures laws { RowsKeepTheLaws }
    ensures key { OpenRowsKeepTheKey }
{}
