//! Laws about the bytes of a connection, independent of how they are split.

ghost use Rattle.sshc_run_agent.specs.InputLaws.{PiecesGiveTheSame, InputsAreAll};
ghost use Rattle.sshc_run_agent.specs.PieceLaws.{EventsSayInOne, EventsSayInTwo, SameTakesTheSame};

/// Bytes of a connection that come in two pieces yield the same inputs as together, in order (`pieces`). They are all
/// the inputs that the frames of the connection yield (`all`).
///
/// An event of bytes yields what two events yield that have its bytes in two pieces at the same moment: the same
/// records by the same calls of the signer, and afterwards the same agent state and the same bytes of each connection
/// (`in_two`, `in_one`); and equal states take each further event the same way (`same`). This extends to any number of
/// pieces.
///
/// The call does nothing. It states laws about the definitions, for callers that run an agent.
pub fn input_laws()
    ensures pieces { PiecesGiveTheSame }
    ensures all { InputsAreAll }
    ensures in_two { EventsSayInTwo }
    ensures in_one { EventsSayInOne }
    ensures same { SameTakesTheSame }
{}
