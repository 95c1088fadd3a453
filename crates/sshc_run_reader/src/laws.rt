//! Laws about each script.

ghost use Rattle.sshc_run_reader.specs.Script.{stop_of, taken};
ghost use Rattle.sshc_run_reader.specs.ScriptGrammar.{IsLongestFront, SpelledAreRead};

/// The events that are taken of a script are its longest front that is made of whole events' texts, one after another,
/// with moments that don't fall, of at most `most` events; after them the script ends, has bytes that aren't an event,
/// or, after `most` events, has any bytes (`front`). An event of a session that the grammar has at a script's front is
/// read there as that event, whatever follows (`spelled`).
///
/// The call does nothing. It states laws about the definitions of scripts, independent of the code that runs them.
pub fn script_laws(script: &[u8], most: usize)
    ensures front { IsLongestFront most script.now (taken most script.now) (stop_of most script.now) }
    ensures spelled { SpelledAreRead }
{}
