//! Moves that call the channel table alone (RFC 4254, sections 5.2 and 5.3).

ghost use Rattle.std.specs.Prelude.{◌≡◌, IfOk, Some, true};
ghost use Rattle.sshc_mux.specs.ChannelTable.{adjusted_at, granted_at};
ghost use Rattle.sshc_mux.specs.ChannelTable.Opens.{next_number};
ghost use Rattle.sshc_client_table.specs.Moves.{Closes, EndsBytes, Grants, Moved, PeerCloses, Receives, Reserves};
ghost use Rattle.sshc_client_table.specs.Moves.{Sends};
ghost use Rattle.sshc_client_table.specs.SessionState.{exchanging, is_live, own_window};

use super::Connection;
use sshc_client_packets::Sender;
use sshc_mux::Stream;
use sshc_wire::{ChannelId, NoMemory};

impl Connection {
    /// Bytes of ours, which are copied once into a packet or into what waits.
    #[tactic(auto, using(crate::proofs::Hints::send))]
    pub fn send(&mut self, id: ChannelId, stream: Stream, bytes: &[u8]) -> Result<(), NoMemory>
        ensures { Moved (Sends id.0 stream bytes.now) self.old self.new result }
    {
        if !self.is_live() {
            return Ok(());
        }
        let exchanging = self.is_exchanging();
        match stream {
            Stream::Data => self.table.data(id, bytes, exchanging, &mut self.outbox),
            Stream::Extended(code) => {
                self.table
                    .extended_data(id, code, bytes, exchanging, &mut self.outbox)
            }
        }
    }

    /// EOF of ours, after all bytes that were taken.
    #[tactic(auto, using(crate::proofs::Hints::end_bytes))]
    pub fn end_bytes(&mut self, id: ChannelId) -> Result<(), NoMemory>
        ensures { Moved (EndsBytes id.0) self.old self.new result }
    {
        if !self.is_live() {
            return Ok(());
        }
        self.table.eof(id, &mut self.outbox)
    }

    /// Our close, after all bytes that were taken and EOF.
    #[tactic(auto, using(crate::proofs::Hints::close))]
    pub fn close(&mut self, id: ChannelId) -> Result<(), NoMemory>
        ensures { Moved (Closes id.0) self.old self.new result }
    {
        if !self.is_live() {
            return Ok(());
        }
        self.table.close_own(id, &mut self.outbox)
    }

    /// The peer's close, which removes the channel.
    #[tactic(auto, using(crate::proofs::Hints::close_by_peer))]
    pub fn close_by_peer(&mut self, id: ChannelId) -> Result<(), NoMemory>
        ensures { Moved (PeerCloses id.0) self.old self.new result }
    {
        if !self.is_live() {
            return Ok(());
        }
        let _known = self.table.close_peer(id, &mut self.outbox)?;
        Ok(())
    }

    /// A grant of the peer's, in bytes. Returns the window after it, if the channel is established and the session is
    /// live.
    #[tactic(auto, using(crate::proofs::Hints::grant))]
    pub fn grant(&mut self, id: ChannelId, amount: u32) -> Result<Option<u32>, NoMemory>
        ensures moved { Moved (Grants id.0 amount) self.old self.new result }
        ensures left { is_live self.old ≡ true
            → IfOk result (λ left. left ≡ granted_at id.0 amount (exchanging self.old) self.old.table) }
    {
        if !self.is_live() {
            return Ok(None);
        }
        let exchanging = self.is_exchanging();
        self.table.grant(id, amount, exchanging, &mut self.outbox)
    }

    /// `len` bytes of the peer's, which use up our window. Returns whether our window was raised in a live session.
    #[tactic(auto, using(crate::proofs::Hints::receive))]
    pub fn receive(&mut self, id: ChannelId, len: u64) -> Result<bool, NoMemory>
        ensures moved { Moved (Receives id.0 len) self.old self.new result }
        ensures adjusted { is_live self.old ≡ true
            → IfOk result (λ adjusted. adjusted ≡ adjusted_at id.0 len (own_window self.old) self.old.table) }
    {
        if !self.is_live() {
            return Ok(false);
        }
        let target = self.opening.settings().window_size;
        self.table.received(id, len, target, &mut self.outbox)
    }

    /// An open of the peer's takes the next number. Returns `NoMemory` also if every number is taken.
    #[tactic(auto, using(crate::proofs::MoveLemmas::after_reserves))]
    pub fn reserve(&mut self, sender: Sender) -> Result<ChannelId, NoMemory>
        requires { is_live self.old ≡ true }
        ensures moved { Moved (Reserves sender) self.old self.new result }
        ensures number { IfOk result (λ id. next_number self.old.table ≡ Some id.0) }
    {
        let own = self.opening.settings().window_size;
        self.table.reserve_server(
            sender.channel,
            sender.window_size,
            sender.max_packet_size,
            own,
        )
    }
}
