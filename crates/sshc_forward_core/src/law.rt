//! The account of each pair, over every list of events.

ghost use Rattle.sshc_forward_core.specs.PairAccount.{EachLifeHasItsAccount, EachLifeEndsOnce, OutputsAreOwn};
ghost use Rattle.sshc_forward_core.specs.PairAccount.{EachChannelHasItsPair};

/// For every list of events and each life of a pair, at each point of it: what was sent on its channel is a front of
/// what was read from its stream, and all of it while the pair is opened and its stream hasn't failed; what was written
/// to its stream is what was received on its channel. EOF, the end of writing, and the channel's close are given at
/// most once each, no bytes are sent after EOF or the close, and none are written after the end of writing or the close
/// (`account`). A life ends by an event of its own, for which the stream's close is given once, and nothing after it
/// (`ending`). The outputs that name a pair are those of its own events alone (`own`). A channel is joined to the
/// stream whose pair has it (`pair`).
///
/// The call does nothing. It states the laws over the definition by which `ForwardCore::step` is proved.
pub fn account()
    ensures account { EachLifeHasItsAccount }
    ensures ending { EachLifeEndsOnce }
    ensures own { OutputsAreOwn }
    ensures pair { EachChannelHasItsPair }
{}
