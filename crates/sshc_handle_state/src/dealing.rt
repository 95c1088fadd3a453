//! What is done with the records of a step.

ghost use Rattle.std.specs.Prelude.{◌≡◌, ◌∷◌, [], OnErr, OnOk, length};
ghost use Rattle.sshc_transport.specs.Transports.{exchange_begun, payload};
ghost use Rattle.sshc_handle_state.specs.Dealing.{Deals, DealsBy, DealsFirst, Hands, handing_of, dealt};
ghost use Rattle.sshc_handle_state.specs.Picking.{link_at};

use sshc_handle_tickets::Tickets;
use sshc_transport::Transport;
use sshc_wire::{Failed, NoMemory, Outbox, Record};

/// Passes a packet to the transport, unless a call has failed.
fn hand<T: Transport>(transport: &mut T, packet: &[u8], failed: &mut bool) -> Result<(), NoMemory>
    ensures ok { OnOk result (Hands (payload packet.now ∷ []) failed.old failed.new
        (link_at (T.answers transport.old) (T.handed transport.old) (T.faults transport.old))
        (link_at (T.answers transport.new) (T.handed transport.new) (T.faults transport.new))) }
    ensures err { OnErr result (Hands [] failed.old failed.new
        (link_at (T.answers transport.old) (T.handed transport.old) (T.faults transport.old))
        (link_at (T.answers transport.new) (T.handed transport.new) (T.faults transport.new))) }
{
    if *failed {
        return Ok(());
    }
    match transport.hand(packet) {
        Ok(()) => Ok(()),
        Err(Failed::Fault) => {
            *failed = true;
            Ok(())
        }
        Err(Failed::NoMemory) => Err(NoMemory),
    }
}

/// Begins an exchange, unless a call has failed.
fn begin<T: Transport>(transport: &mut T, failed: &mut bool) -> Result<(), NoMemory>
    ensures ok { OnOk result (Hands (exchange_begun ∷ []) failed.old failed.new
        (link_at (T.answers transport.old) (T.handed transport.old) (T.faults transport.old))
        (link_at (T.answers transport.new) (T.handed transport.new) (T.faults transport.new))) }
    ensures err { OnErr result (Hands [] failed.old failed.new
        (link_at (T.answers transport.old) (T.handed transport.old) (T.faults transport.old))
        (link_at (T.answers transport.new) (T.handed transport.new) (T.faults transport.new))) }
{
    if *failed {
        return Ok(());
    }
    match transport.begin_exchange() {
        Ok(()) => Ok(()),
        Err(Failed::Fault) => {
            *failed = true;
            Ok(())
        }
        Err(Failed::NoMemory) => Err(NoMemory),
    }
}

/// Holds a record that is an answer or of what happened on a channel; a channel that opens no longer counts as closed.
fn tell(tickets: &mut Tickets, output: Record) -> Result<(), NoMemory>
    ensures ok { OnOk result (tickets.new ≡ dealt output tickets.old) }
    ensures err { OnErr result (tickets.new ≡ tickets.old) }
{
    match output {
        Record::Resolved { .. } | Record::Auth { .. } | Record::Channel { .. } => tickets.hold(
            output,
        ),
        _ => {
            tickets.reopen(&output);
            drop(output);
            Ok(())
        }
    }
}

/// What is done with one record.
fn deal_one<T: Transport>(
    output: Record,
    transport: &mut T,
    tickets: &mut Tickets,
    failed: &mut bool,
) -> Result<(), NoMemory>
    ensures ok { OnOk result (Deals (output ∷ []) failed.old failed.new tickets.old tickets.new
        (link_at (T.answers transport.old) (T.handed transport.old) (T.faults transport.old))
        (link_at (T.answers transport.new) (T.handed transport.new) (T.faults transport.new))) }
    ensures err { OnErr result (Deals [] failed.old failed.new tickets.old tickets.new
        (link_at (T.answers transport.old) (T.handed transport.old) (T.faults transport.old))
        (link_at (T.answers transport.new) (T.handed transport.new) (T.faults transport.new))) }
{
    match output {
        Record::Payload(packet) => hand(transport, packet.as_slice(), failed),
        Record::BeginExchange => begin(transport, failed),
        other => tell(tickets, other),
    }
}

/// What is done with the first record, which is let go; a packet is lent to the transport where it lies. Returns false
/// if there is no record.
fn deal_first<T: Transport>(
    output: &mut Outbox,
    transport: &mut T,
    tickets: &mut Tickets,
    failed: &mut bool,
) -> Result<bool, NoMemory>
    ensures { DealsFirst output.old.records output.new.records failed.old failed.new tickets.old tickets.new
        (link_at (T.answers transport.old) (T.handed transport.old) (T.faults transport.old))
        (link_at (T.answers transport.new) (T.handed transport.new) (T.faults transport.new)) result }
{
    if let Some(packet) = output.packet(0) {
        hand(transport, packet, failed)?;
        output.drop_first();
        return Ok(true);
    }
    match output.take_first()? {
        Some(record) => {
            deal_one(record, transport, tickets, failed)?;
            Ok(true)
        }
        None => Ok(false),
    }
}

/// Passes on and holds each record, in their order.
pub(crate) fn deal<T: Transport>(
    output: &mut Outbox,
    transport: &mut T,
    tickets: &mut Tickets,
    failed: &mut bool,
) -> Result<(), NoMemory>
    ensures { DealsBy output.old.records failed.old failed.new tickets.old tickets.new
        (link_at (T.answers transport.old) (T.handed transport.old) (T.faults transport.old))
        (link_at (T.answers transport.new) (T.handed transport.new) (T.faults transport.new)) result }
{
    'records: while deal_first(output, transport, tickets, failed)? {}
    Ok(())
}
