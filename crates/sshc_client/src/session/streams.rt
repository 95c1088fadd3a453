//! Rows of windows, bytes and ends (RFC 4254, sections 5.2 and 5.3). On a channel that isn't established they are
//! passed over.

ghost use Rattle.std.specs.Prelude.{◌≡◌, [], ◌∷◌, true};
ghost use Rattle.sshc_mux.specs.ChannelTable.{is_established};
ghost use Rattle.sshc_client_table.specs.Moves.{Receives, done};
ghost use Rattle.sshc_client_table.specs.SessionRow.{reports};
ghost use Rattle.sshc_client_table.specs.SessionState.{is_live};
ghost use Rattle.sshc_client_table.specs.SessionTable.Streams.{bytes_row, channel_close_row, channel_data_row};
ghost use Rattle.sshc_client_table.specs.SessionTable.Streams.{channel_extended_data_row, channel_report_row};
ghost use Rattle.sshc_client_table.specs.SessionTable.Streams.{window_adjust_row};
ghost use Rattle.sshc_client.specs.Handling.{Opines};
ghost use Rattle.sshc_client.specs.HandledRow.{FollowsOne, FollowsWith, Retargets, target_moves};

use super::Session;
use crate::handler::Handler;
use crate::stop::Stop;
use sshc_client_packets::{read_channel, read_data, read_extended_data, read_window_adjust};
use sshc_client_rows::RowFlow;
use sshc_wire::{ChannelId, ChannelRecord, Octets};

impl Session {
    /// Whether the channel is established.
    pub(super) fn is_established(&self, id: ChannelId) -> bool
        ensures { result ≡ is_established id.0 self.now.table }
    {
        self.connection.table().is_established(id)
    }

    /// CHANNEL_WINDOW_ADJUST.
    #[tactic(auto, using(crate::proofs::Hints::reports), unfolding(crate::proofs::By::window_adjust_row))]
    pub(super) fn window_adjust<H: Handler>(
        &mut self,
        body: &[u8],
        handler: &mut H,
    ) -> Result<RowFlow, Stop<H::Error>>
        requires { is_live self.old ≡ true }
        ensures row { FollowsOne H.keeps_defaults
            (H.at handler.old)
            (H.at handler.new)
            (window_adjust_row self.old body.now) self.old self.new result }
    {
        let adjust = read_window_adjust(body)?;
        if !self.is_established(adjust.id) {
            return Ok(RowFlow::Went);
        }
        let new_size = match self.connection.grant(adjust.id, adjust.bytes_to_add)? {
            Some(left) => left,
            None => 0,
        };
        self.report(
            adjust.id,
            ChannelRecord::WindowAdjusted { new_size },
            handler,
        )
    }

    /// Calls the handler with a window target; its result is the next one, if it is above 0.
    fn retarget<H: Handler>(&mut self, id: ChannelId, target: u32, handler: &mut H)
        ensures { Retargets H.keeps_defaults id.0 target
            (H.at handler.old)
            (H.at handler.new)
            self.old self.new }
    {
        let window = handler.adjust_window(id, target);
        if window > 0 {
            self.connection.target(window);
        }
    }

    /// Bytes of the peer use up our window; if the window is refilled, the handler is called for the next target.
    #[tactic(auto, using(crate::proofs::Hints::received))]
    fn received<H: Handler>(
        &mut self,
        id: ChannelId,
        len: u64,
        output: ChannelRecord,
        handler: &mut H,
    ) -> Result<RowFlow, Stop<H::Error>>
        requires { is_live self.old ≡ true }
        ensures row { FollowsWith H.keeps_defaults
            (H.at handler.old)
            (H.at handler.new)
            (λ o. bytes_row o self.old id.0 len output) self.old self.new result }
    {
        let target = self.connection.window_target();
        if !self.connection.receive(id, len)? {
            return self.report(id, output, handler);
        }
        self.retarget(id, target, handler);
        self.report(id, output, handler)
    }

    /// CHANNEL_DATA. The bytes are copied once, into the record.
    #[tactic(auto, using(crate::proofs::Hints::handed_on), unfolding(crate::proofs::By::channel_data_row))]
    pub(super) fn channel_data<H: Handler>(
        &mut self,
        body: &[u8],
        handler: &mut H,
    ) -> Result<RowFlow, Stop<H::Error>>
        requires { is_live self.old ≡ true }
        ensures row { FollowsWith H.keeps_defaults
            (H.at handler.old)
            (H.at handler.new)
            (λ o. channel_data_row o self.old body.now) self.old self.new result }
    {
        let data = read_data(body)?;
        if !self.is_established(data.id) {
            return Ok(RowFlow::Went);
        }
        let body = Octets::from_slice(self.alloc, data.body)?;
        let len = data.body.len() as u64;
        self.received(data.id, len, ChannelRecord::Data { body }, handler)
    }

    /// CHANNEL_EXTENDED_DATA. The bytes are copied once, into the record.
    #[tactic(auto, using(crate::proofs::Hints::handed_on), unfolding(crate::proofs::By::channel_extended_data_row))]
    pub(super) fn channel_extended_data<H: Handler>(
        &mut self,
        body: &[u8],
        handler: &mut H,
    ) -> Result<RowFlow, Stop<H::Error>>
        requires { is_live self.old ≡ true }
        ensures row { FollowsWith H.keeps_defaults
            (H.at handler.old)
            (H.at handler.new)
            (λ o. channel_extended_data_row o self.old body.now) self.old self.new result }
    {
        let data = read_extended_data(body)?;
        if !self.is_established(data.id) {
            return Ok(RowFlow::Went);
        }
        let ext = data.ext;
        let body = Octets::from_slice(self.alloc, data.body)?;
        let len = data.body.len() as u64;
        self.received(
            data.id,
            len,
            ChannelRecord::ExtendedData { ext, body },
            handler,
        )
    }

    /// CHANNEL_EOF, CHANNEL_SUCCESS and CHANNEL_FAILURE.
    #[tactic(auto, using(crate::proofs::Hints::handed_on), unfolding(crate::proofs::By::channel_report_row))]
    pub(super) fn channel_report<H: Handler>(
        &mut self,
        happened: ChannelRecord,
        body: &[u8],
        handler: &mut H,
    ) -> Result<RowFlow, Stop<H::Error>>
        ensures row { FollowsOne H.keeps_defaults
            (H.at handler.old)
            (H.at handler.new)
            (channel_report_row self.old happened body.now) self.old self.new result }
    {
        let id = read_channel(body)?;
        if !self.is_established(id) {
            return Ok(RowFlow::Went);
        }
        self.report(id, happened, handler)
    }

    /// CHANNEL_CLOSE: the channel is removed.
    #[tactic(auto, using(crate::proofs::Hints::reports), unfolding(crate::proofs::By::channel_close_row))]
    pub(super) fn channel_close<H: Handler>(
        &mut self,
        body: &[u8],
        handler: &mut H,
    ) -> Result<RowFlow, Stop<H::Error>>
        ensures row { FollowsOne H.keeps_defaults
            (H.at handler.old)
            (H.at handler.new)
            (channel_close_row self.old body.now) self.old self.new result }
    {
        let id = read_channel(body)?;
        if !self.is_established(id) {
            return Ok(RowFlow::Went);
        }
        self.connection.close_by_peer(id)?;
        self.report(id, ChannelRecord::Close, handler)
    }
}
