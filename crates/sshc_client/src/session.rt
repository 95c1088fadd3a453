//! The session.

ghost use Rattle.std.specs.Prelude.{◌≡◌, [], IfOk};
ghost use Rattle.sshc_auth.specs.OpeningState.{is_awaiting};
ghost use Rattle.sshc_client_state.specs.Start.{new_session};
ghost use Rattle.sshc_client.specs.Asking.{wants_user_events};
ghost use Rattle.sshc_client.specs.Configured.{session_settings_of, settings_of};

use crate::config::Config;
use circular_buffer::HeapCircularBuffer;
use sshc_auth::Settings;
use sshc_client_state::Connection;
use sshc_client_table::{Life, ReplyEntry, SessionSettings};
use sshc_wire::{NoMemory, Octets, Outbox};
use std::alloc::Global;
use std::marker::Model;

mod acting;
mod bytes;
mod calls;
mod channel_opens;
mod channel_requests;
mod exchanges;
mod global_requests;
mod opening;
mod opens;
mod packets;
mod requests;
mod stepping;
mod streams;

/// A session, which contracts see as plain data.
#[derive(Drop)]
pub struct Session {
    connection: Connection,
    alloc: Global,
}

impl Model for Session {
    ghost use Rattle.sshc_client_table.specs.SessionState.{SessionState};
    ghost use Rattle.sshc_client_state.specs.StateCode.{session_code};

    ghost Value = { SessionState };

    ghost coded = { session_code };

    ghost view = { λ s. s.connection };
}

impl Session {
    /// The session at the start of its connection, with the server's identification string.
    pub fn new(config: Config, remote_sshid: Octets) -> Result<Session, NoMemory>
        ensures { IfOk result (λ s. s ≡ new_session (session_settings_of config remote_sshid) (settings_of config)) }
    {
        let alloc = remote_sshid.allocator();
        let settings = config.session_settings(remote_sshid);
        let opening = config.opening_settings();
        drop(config);
        Session::with_settings(alloc, settings, opening)
    }

    /// The same, by the settings that the session and its opening keep.
    pub fn with_settings(
        alloc: Global,
        settings: SessionSettings,
        opening: Settings,
    ) -> Result<Session, NoMemory>
        ensures { IfOk result (λ s. s ≡ new_session settings opening) }
    {
        Ok(Session {
            connection: Connection::new(alloc, settings, opening)?,
            alloc,
        })
    }

    /// The server's identification string (RFC 4253, section 4.2), as the session was made with it.
    pub fn remote_sshid(&self) -> &[u8]
        ensures { result.now ≡ self.now.settings.remote_sshid }
    {
        self.connection.settings().remote_sshid.as_slice()
    }

    /// The records since they were last taken or cleared, in order.
    pub fn records(&self) -> &Outbox
        ensures { result.now.records ≡ self.now.records }
    {
        self.connection.records()
    }

    /// The global requests that wait for their replies, the oldest first (RFC 4254, section 4). Takes no memory.
    pub fn reply_queue(&self) -> &HeapCircularBuffer<ReplyEntry>
        ensures { result.now.items ≡ self.now.replies }
    {
        self.connection.reply_queue()
    }

    /// Lets the records go: with `records` the way to pass them on without taking memory for each event. Their memory
    /// is used again for the next records, which no clause says.
    pub fn clear_records(&mut self)
        ensures { self.new ≡ record self.old { records = [] } }
    {
        self.connection.clear_records()
    }

    /// The records since they were last taken or cleared.
    pub fn take_records(&mut self) -> Outbox
        ensures taken { result.records ≡ self.old.records }
        ensures rest { self.new ≡ record self.old { records = [] } }
    {
        self.connection.take_records()
    }

    /// Whether an answer of the user is awaited.
    pub fn awaits_answer(&self) -> bool
        ensures { result ≡ is_awaiting self.now.opening.phase }
    {
        self.connection.opening().is_awaiting()
    }

    /// Whether the user may be asked for an event: if an answer is awaited; or if no exchange runs, no bytes wait on a
    /// channel and the session hasn't ended.
    pub fn wants_user_events(&self) -> bool
        ensures { result ≡ wants_user_events self.now }
    {
        self.awaits_answer()
            || (!self.connection.is_exchanging()
                && !self.connection.table().has_any_pending_data()
                && self.connection.life() == Life::Runs)
    }
}
