//! Bytes and ends on a channel, key exchanges and the end of a session, for code that the session is lent to. In a
//! session that isn't open these methods do nothing, except `disconnect`, and return `Ok`.

ghost use Rattle.std.specs.Prelude.{◌≡◌, ◌∷◌, []};
ghost use Rattle.sshc_mux.specs.declared.chunk.Stream.{Stream as Kind};
ghost use Rattle.sshc_mux.specs.ChannelState.{channel_of};
ghost use Rattle.sshc_mux.specs.ChannelTable.{waits_in, window_in};
ghost use Rattle.sshc_client_table.specs.Grown.{Grown};
ghost use Rattle.sshc_client_table.specs.Moves.{Begins, Closes, Disconnects, EndsBytes, Leaves, Sends};
ghost use Rattle.sshc_client.specs.Methods.{Acts};

use super::Session;
use super::acting::acted;
use sshc_auth::Error;
use sshc_mux::Stream;
use sshc_wire::{ChannelId, Disconnect, Text};

impl Session {
    /// Sends bytes to the peer. They are copied once. Bytes that the windows don't allow yet wait, and so do all bytes
    /// while an exchange runs. Bytes after an EOF or a close of ours are dropped.
    #[tactic(auto, using(crate::proofs::MethodLemmas::moved_acts, crate::proofs::MethodLemmas::moved_grown))]
    pub fn data(&mut self, id: ChannelId, body: &[u8]) -> Result<(), Error>
        ensures does { Acts (Sends id.0 Kind.Data body.now ∷ []) self.old self.new result }
        ensures grown { Grown self.old self.new }
    {
        acted(self.connection.send(id, Stream::Data, body))
    }

    /// The same with a type code; 1 is the standard error stream.
    #[tactic(auto, using(crate::proofs::MethodLemmas::moved_acts, crate::proofs::MethodLemmas::moved_grown))]
    pub fn extended_data(&mut self, id: ChannelId, ext: u32, body: &[u8]) -> Result<(), Error>
        ensures does { Acts (Sends id.0 (Kind.Extended ext) body.now ∷ []) self.old self.new result }
        ensures grown { Grown self.old self.new }
    {
        acted(self.connection.send(id, Stream::Extended(ext), body))
    }

    /// Sends EOF after all bytes that were accepted: no more bytes will be sent.
    #[tactic(auto, using(crate::proofs::MethodLemmas::moved_acts, crate::proofs::MethodLemmas::moved_grown))]
    pub fn eof(&mut self, id: ChannelId) -> Result<(), Error>
        ensures does { Acts (EndsBytes id.0 ∷ []) self.old self.new result }
        ensures grown { Grown self.old self.new }
    {
        acted(self.connection.end_bytes(id))
    }

    /// Closes the channel, after all bytes that were accepted.
    #[tactic(auto, using(crate::proofs::MethodLemmas::moved_acts, crate::proofs::MethodLemmas::moved_grown))]
    pub fn close(&mut self, id: ChannelId) -> Result<(), Error>
        ensures does { Acts (Closes id.0 ∷ []) self.old self.new result }
        ensures grown { Grown self.old self.new }
    {
        acted(self.connection.close(id))
    }

    /// Begins a key exchange, unless one runs.
    #[tactic(auto, using(crate::proofs::MethodLemmas::moved_acts, crate::proofs::MethodLemmas::moved_grown))]
    pub fn initiate_rekey(&mut self) -> Result<(), Error>
        ensures does { Acts (Begins ∷ []) self.old self.new result }
        ensures grown { Grown self.old self.new }
    {
        acted(self.connection.begin_exchange())
    }

    /// Ends the session, open or not; in an open one the packet is written. No packet is added from now on, and the
    /// step that runs, or the next one, ends as `Disconnected`.
    #[tactic(auto, using(crate::proofs::MethodLemmas::left_grown, crate::proofs::MethodLemmas::same_grown))]
    pub fn disconnect(
        &mut self,
        reason: Disconnect,
        description: &str,
        language: &str,
    ) -> Result<(), Error>
        ensures does { Acts (Disconnects reason description.now language.now ∷ Leaves ∷ []) self.old self.new result }
        ensures grown { Grown self.old self.new }
    {
        let description = Text::from_str(self.alloc, description)?;
        let language = Text::from_str(self.alloc, language)?;
        self.connection
            .write_disconnect(reason, &description, &language)?;
        self.connection.leave();
        Ok(())
    }

    /// Whether bytes of ours wait on the channel.
    pub fn has_pending_data(&self, id: ChannelId) -> bool
        ensures { result ≡ waits_in (channel_of id.0 self.now.table.channels) }
    {
        self.connection.table().has_pending_data(id)
    }

    /// How many bytes the peer's window allows; 0 if there is no such channel, or if an open of ours waits there.
    pub fn sender_window_size(&self, id: ChannelId) -> usize
        ensures { result ≡ window_in (channel_of id.0 self.now.table.channels) }
    {
        self.connection.table().sender_window_size(id)
    }
}
