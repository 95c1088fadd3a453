//! Counts, and the end of a session.

ghost use Rattle.std.specs.Prelude.{◌≡◌};
ghost use Rattle.sshc_client_table.specs.Moves.{Hears, Leaves, Misses, Stops, Targets, after};

use super::Connection;
use sshc_client_table::Life;

impl Connection {
    /// Something came from the peer.
    #[tactic(auto, using(sshc_client_table::specs::MoveLaws::is_done, sshc_client_table::specs::MoveLaws::not_done))]
    pub fn hear(&mut self)
        ensures { self.new ≡ after Hears self.old }
    {
        if self.is_live() {
            self.keepalives = 0;
        }
    }

    /// A keepalive is due.
    #[tactic(auto, using(sshc_client_table::specs::MoveLaws::is_done, sshc_client_table::specs::MoveLaws::not_done))]
    pub fn miss(&mut self)
        ensures { self.new ≡ after Misses self.old }
    {
        if self.is_live() {
            self.keepalives = self.keepalives.saturating_add(1);
        }
    }

    /// The handler's new window target, in bytes.
    #[tactic(auto, using(sshc_client_table::specs::MoveLaws::is_done, sshc_client_table::specs::MoveLaws::not_done))]
    pub fn target(&mut self, window: u32)
        ensures { self.new ≡ after (Targets window) self.old }
    {
        if self.is_live() {
            self.window_target = window;
        }
    }

    /// The user disconnects: no packet is added from now on.
    #[tactic(auto, using(sshc_client_table::specs::MoveLaws::is_done, sshc_client_table::specs::MoveLaws::not_done))]
    pub fn leave(&mut self)
        ensures { self.new ≡ after Leaves self.old }
    {
        if self.life == Life::Runs {
            self.outbox.mute();
            self.life = Life::Left;
        }
    }

    /// A step ends or refuses the session.
    #[tactic(auto, using(sshc_client_table::specs::MoveLaws::is_done))]
    pub fn stop(&mut self)
        ensures { self.new ≡ after Stops self.old }
    {
        self.outbox.mute();
        self.life = Life::Over;
    }
}
