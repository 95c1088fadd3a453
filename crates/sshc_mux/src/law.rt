//! The account of each channel, over every list of calls.

ghost use Rattle.sshc_mux.specs.ChannelAccount.{EachLifeHasItsAccount, EachEndLeavesAFront, EachCloseEndsALife};
ghost use Rattle.sshc_mux.specs.ChannelAccount.{EachCallDoesItsPart, EachCallKeepsTheRules, LegalStays};

/// What was sent on a channel, followed by what waits, is what was taken (`account`). The window falls by what is sent
/// and rises by what each grant adds. Bytes come before EOF and our close, which are sent once, after all that was
/// taken, and as soon as nothing waits before them. However a channel's life ends, what was sent is a front of what was
/// taken (`front`). Once the peer has closed an established channel, our close was sent exactly once, and the number is
/// free (`closing`).
///
/// Each call does its part to each channel (`part`): a piece is the longest that may be sent, and nothing waits that
/// may be sent. No bytes are sent while an exchange runs, each packet is addressed to its channel's recipient, and a
/// new number is the next that no channel has (`rules`). Every list of calls leaves a table with different numbers and
/// sound channels (`legal`).
///
/// The call does nothing. It states the laws over the definitions by which each call of the table is proved.
pub fn account()
    ensures account { EachLifeHasItsAccount }
    ensures front { EachEndLeavesAFront }
    ensures closing { EachCloseEndsALife }
    ensures part { EachCallDoesItsPart }
    ensures rules { EachCallKeepsTheRules }
    ensures legal { LegalStays }
{}
