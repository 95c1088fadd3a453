//! Laws about every list of moves.

ghost use Rattle.sshc_client_table.specs.Grown.{GrownIsClosed};
ghost use Rattle.sshc_client_table.specs.Keeps.{GrownSessionsKeep};
ghost use Rattle.sshc_client_table.specs.KeptChannels.{GrownSessionsKeepChannels};
ghost use Rattle.sshc_client_table.specs.OpensOnce.{OpensAreAnsweredOnce};
ghost use Rattle.sshc_client_table.specs.RecordsTaken.{RecordsAreOnlyAdded};
ghost use Rattle.sshc_client_table.specs.ReplyQueue.{RepliesAreInOrder};
ghost use Rattle.sshc_client_table.specs.SessionAccount.{ChannelsAreAccounted, LivesHaveTheirAccounts, SendsWhileIdle};

use sshc_mux::account;

/// The packets 93 to 97 among all that a session writes are those of its calls of the channel table (`accounted`), so
/// that each life of a channel has its account (`lives`). No bytes are sent in a move after which an exchange runs
/// (`quiet`). Requests are answered in the order in which they were written (`replies`). An open of ours is answered
/// while it waits, with its own ticket, and doesn't wait any more until another open takes its number (`opens`).
/// Records are only added (`records`). What a borrower may do to a session includes doing nothing and doing one thing
/// after another (`grown`); a session keeps then what its methods can't change (`keeps`), and each of its channels,
/// with more bytes waiting at the end and some removed from the front (`channels`).
///
/// The call does nothing. It states the laws over the definitions by which each row and each method of a session is
/// proved.
pub fn session_laws()
    ensures accounted { ChannelsAreAccounted }
    ensures lives { LivesHaveTheirAccounts }
    ensures quiet { SendsWhileIdle }
    ensures replies { RepliesAreInOrder }
    ensures opens { OpensAreAnsweredOnce }
    ensures records { RecordsAreOnlyAdded }
    ensures grown { GrownIsClosed }
    ensures keeps { GrownSessionsKeep }
    ensures channels { GrownSessionsKeepChannels }
{
    account();
}
