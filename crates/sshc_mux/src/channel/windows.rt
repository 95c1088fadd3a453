//! A channel's windows (RFC 4254, section 5.2).

ghost use Rattle.std.specs.Prelude.{◌≡◌, [], false, IfOk, IsOk, Some};
ghost use Rattle.sshc_mux.specs.ChannelTable.{Turned, grant_turn, received_turn, granted_in};
ghost use Rattle.sshc_mux.specs.ChannelTable.Windows.{adjusts};

use crate::channel::Channel;
use crate::packets::push_adjust;
use sshc_wire::{NoMemory, Outbox};

impl Channel {
    /// Takes a grant of the peer's, and sends what may then be sent. Returns the window after that, or `None` if the
    /// channel isn't established.
    pub(crate) fn grant(
        &mut self,
        amount: u32,
        exchanging: bool,
        out: &mut Outbox,
    ) -> Result<Option<u32>, NoMemory>
        ensures turn { Turned (grant_turn amount exchanging self.old) self.old self.new out.old out.new result }
        ensures answer { IfOk result (λ left. left ≡ granted_in (Some self.old) amount exchanging) }
        ensures succeeds { (grant_turn amount exchanging self.old).packets ≡ [] → IsOk result }
    {
        if !self.is_established {
            return Ok(None);
        }
        let before = self.window;
        self.window = before.saturating_add(amount);
        match self.flush(exchanging, out) {
            Ok(()) => Ok(Some(self.window)),
            Err(error) => {
                self.window = before;
                Err(error)
            }
        }
    }

    /// Counts bytes of the peer's, and raises a low window to the target. Returns whether it wrote an adjust packet.
    #[tactic(auto, unfolding(crate::specs::Packets::adding))]
    pub(crate) fn receive(
        &mut self,
        len: u64,
        target: u32,
        out: &mut Outbox,
    ) -> Result<bool, NoMemory>
        ensures turn { Turned (received_turn len target self.old) self.old self.new out.old out.new result }
        ensures answer { IfOk result (λ wrote. wrote ≡ adjusts len target self.old) }
        ensures succeeds { adjusts len target self.old ≡ false → IsOk result }
    {
        if !self.is_established {
            return Ok(false);
        }
        let left = u64::from(self.own_window).saturating_sub(len) as u32;
        if left < target / 2 {
            push_adjust(self.recipient, target - left, out)?;
            self.own_window = target;
            Ok(true)
        } else {
            self.own_window = left;
            Ok(false)
        }
    }
}
