//! The state of a session between two events.

ghost use Rattle.std.specs.Prelude.{◌≡◌, [], IfOk, option_copied};
ghost use Rattle.sshc_client_table.specs.SessionState.{exchanging, is_live, may_tell, opens_later};
ghost use Rattle.sshc_client_state.specs.Start.{first_of, new_session};

use circular_buffer::HeapCircularBuffer;
use sshc_auth::{ExchangeFlag, Opening, Phase, Settings};
use sshc_client_table::{Life, ReplyEntry, SessionSettings};
use sshc_mux::ChannelTable;
use sshc_wire::{NoMemory, Outbox};
use std::alloc::Global;
use std::marker::Model;

mod asking;
mod channels;
mod ending;
mod exchanges;
mod messages;
mod opening;
mod opens;
mod telling;

/// The state of a session between two events: its opening, its channels, the requests that wait for their replies, and
/// the records that were not yet taken. Contracts see it as plain data. Each move is one call, which either does all of
/// it, or runs out of memory and changes nothing.
#[derive(Drop)]
pub struct Connection {
    alloc: Global,
    settings: SessionSettings,
    opening: Opening,
    table: ChannelTable,
    /// The requests that wait for their replies, the oldest first.
    replies: HeapCircularBuffer<ReplyEntry>,
    keepalives: u64,
    window_target: u32,
    /// Muted once the session doesn't run any more: no packet is added from then on.
    outbox: Outbox,
    life: Life,
}

impl Model for Connection {
    ghost use Rattle.std.specs.Prelude.{◌≡◌, not};
    ghost use Rattle.sshc_client_table.specs.SessionState.{SessionState, runs};
    ghost use Rattle.sshc_client_state.specs.StateCode.{session_code};

    ghost Value = { SessionState };

    ghost coded = { session_code };

    ghost view = { λ c. record {
      settings = c.settings;
      opening = c.opening;
      table = c.table;
      replies = c.replies.items;
      keepalives = c.keepalives;
      window_target = c.window_target;
      records = c.outbox.records;
      life = c.life;
    } };

    ghost invariant = { λ c. c.outbox.muted ≡ not (runs c.life) };
}

impl Connection {
    /// The session at the start of its connection.
    pub fn new(
        alloc: Global,
        settings: SessionSettings,
        opening: Settings,
    ) -> Result<Connection, NoMemory>
        ensures { IfOk result (λ c. c ≡ new_session settings opening) }
    {
        let replies = HeapCircularBuffer::with_capacity(alloc, 0)?;
        Ok(Connection {
            alloc,
            settings,
            opening: Opening::new(
                alloc,
                opening.window_size,
                opening.anonymous,
                opening.inactivity,
            ),
            table: ChannelTable::new(alloc),
            replies,
            keepalives: 0,
            window_target: opening.window_size,
            outbox: Outbox::new(alloc),
            life: Life::Runs,
        })
    }

    /// The records that were added since they were last taken or cleared, in order.
    pub fn records(&self) -> &Outbox
        ensures { result.now.records ≡ self.now.records }
    {
        &self.outbox
    }

    /// Lets the records go. Their memory is used again for the next records, which no clause says.
    pub fn clear_records(&mut self)
        ensures { self.new ≡ record self.old { records = [] } }
    {
        self.outbox.clear();
        if self.life != Life::Runs {
            self.outbox.mute();
        }
    }

    /// Returns the records that were added since they were last taken or cleared.
    pub fn take_records(&mut self) -> Outbox
        ensures taken { result.records ≡ self.old.records }
        ensures rest { self.new ≡ record self.old { records = [] } }
    {
        let mut fresh = Outbox::new(self.alloc);
        if self.life != Life::Runs {
            fresh.mute();
        }
        std::mem::replace(&mut self.outbox, fresh)
    }

    /// The allocator that it uses.
    pub fn alloc(&self) -> Global {
        self.alloc
    }

    /// What it was made with.
    pub fn settings(&self) -> &SessionSettings
        ensures { result.now ≡ self.now.settings }
    {
        &self.settings
    }

    /// Its opening, which stores whose exchange runs also when the session is open.
    pub fn opening(&self) -> &Opening
        ensures { result.now ≡ self.now.opening }
    {
        &self.opening
    }

    /// Its channels.
    pub fn table(&self) -> &ChannelTable
        ensures { result.now ≡ self.now.table }
    {
        &self.table
    }

    /// The requests that wait for their replies, the oldest first. Takes no memory.
    pub fn reply_queue(&self) -> &HeapCircularBuffer<ReplyEntry>
        ensures { result.now.items ≡ self.now.replies }
    {
        &self.replies
    }

    /// The oldest of the requests that wait for their replies.
    pub fn first_reply(&self) -> Option<&ReplyEntry>
        ensures { option_copied result ≡ first_of self.now.replies }
    {
        self.replies.front()
    }

    /// How many keepalives in a row were sent since the peer was last heard.
    pub fn keepalives(&self) -> u64
        ensures { result ≡ self.now.keepalives }
    {
        self.keepalives
    }

    /// The window that the handler is passed, in bytes.
    pub fn window_target(&self) -> u32
        ensures { result ≡ self.now.window_target }
    {
        self.window_target
    }

    /// The state of its life.
    pub fn life(&self) -> Life
        ensures { result ≡ self.now.life }
    {
        self.life
    }

    /// Whether the session is open and hasn't ended.
    pub fn is_live(&self) -> bool
        ensures { result ≡ is_live self.now }
    {
        self.opening.phase() == Phase::Open && self.life == Life::Runs
    }

    /// Whether records may still be reported in an open session.
    pub fn may_tell(&self) -> bool
        ensures { result ≡ may_tell self.now }
    {
        self.opening.phase() == Phase::Open && self.life != Life::Over
    }

    /// Whether the session isn't open yet and hasn't ended.
    pub fn opens_later(&self) -> bool
        ensures { result ≡ opens_later self.now }
    {
        self.opening.phase() != Phase::Open && self.life == Life::Runs
    }

    /// Whether an exchange runs.
    pub fn is_exchanging(&self) -> bool
        ensures { result ≡ exchanging self.now }
    {
        self.opening.flag() != ExchangeFlag::Idle
    }
}
