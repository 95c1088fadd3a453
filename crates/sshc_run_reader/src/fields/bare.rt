//! Events without fields. Each is made in a function of its own, so that an event of another kind clears no memory for
//! it.

ghost use Rattle.sshc_wire.specs.Grammar.{finished};
ghost use Rattle.sshc_auth_event.specs.declared.event.Event.TheVariants as events;
ghost use Rattle.sshc_run_reader.specs.Gives.{GivesAll};
ghost use Rattle.sshc_run_reader.specs.declared.error.EventError.TheVariants.{Bad};

use crate::error::EventError;
use crate::parts::at_end;
use sshc_auth_event::Event;
use sshc_wire::Cursor;

pub fn peer_kexinit(c: &Cursor<'_>) -> Result<Event, EventError>
    ensures { GivesAll (λ e. e) result (finished Bad (events.PeerKexinit, c.now)) }
{
    at_end(Event::PeerKexinit, c)
}

pub fn transport_failed(c: &Cursor<'_>) -> Result<Event, EventError>
    ensures { GivesAll (λ e. e) result (finished Bad (events.TransportFailed, c.now)) }
{
    at_end(Event::TransportFailed, c)
}

pub fn rekey_limit(c: &Cursor<'_>) -> Result<Event, EventError>
    ensures { GivesAll (λ e. e) result (finished Bad (events.RekeyLimit, c.now)) }
{
    at_end(Event::RekeyLimit, c)
}

pub fn keepalive_timer(c: &Cursor<'_>) -> Result<Event, EventError>
    ensures { GivesAll (λ e. e) result (finished Bad (events.KeepaliveTimer, c.now)) }
{
    at_end(Event::KeepaliveTimer, c)
}

pub fn inactivity_timer(c: &Cursor<'_>) -> Result<Event, EventError>
    ensures { GivesAll (λ e. e) result (finished Bad (events.InactivityTimer, c.now)) }
{
    at_end(Event::InactivityTimer, c)
}

pub fn sign_failed(c: &Cursor<'_>) -> Result<Event, EventError>
    ensures { GivesAll (λ e. e) result (finished Bad (events.SignFailed, c.now)) }
{
    at_end(Event::SignFailed, c)
}
