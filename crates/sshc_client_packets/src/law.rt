//! Laws about reading the peer's packets and writing ours.

ghost use Rattle.sshc_client_packets.specs.Grammars.Channels.{ChannelPacketsAreRead};
ghost use Rattle.sshc_client_packets.specs.Grammars.Opens.{OpensAreRead, WrittenOpensAreRead, WrittenPortsAreRead};
ghost use Rattle.sshc_client_packets.specs.Grammars.Requests.{RequestsAreRead};

/// What is read of a packet are the fields that the packet has by its grammar, and whatever bytes the grammar allows
/// are read: for packets on channels (`channels`), for requests on a channel by their names (`requests`), and for opens
/// by their types (`opens`). An open that is written is read as the open that was asked for (`written_opens`), and a
/// port is read as that port (`ports`).
///
/// The call does nothing. It states the laws over the definitions by which each reader and each writer is proved.
pub fn packet_grammar()
    ensures channels { ChannelPacketsAreRead }
    ensures requests { RequestsAreRead }
    ensures opens { OpensAreRead }
    ensures written_opens { WrittenOpensAreRead }
    ensures ports { WrittenPortsAreRead }
{}
