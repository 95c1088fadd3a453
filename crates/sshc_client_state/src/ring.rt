//! A ring that doubles when it is full.

ghost use Rattle.std.specs.Prelude.{◌≡◌, ◌==◌, ◌*◌, ◌<◌, ◌++◌, OnErr, OnOk, drop, if◌then◌else◌, length, max};
ghost use Rattle.sshc_wire.specs.Outgoing.{listed};

use circular_buffer::HeapCircularBuffer;
use sshc_wire::NoMemory;

/// Makes room for one more: a full ring is moved to one of double capacity.
pub(crate) fn make_room<T: Drop>(ring: &mut HeapCircularBuffer<T>) -> Result<(), NoMemory>
    ensures room { OnOk result (length ring.new.items < ring.new.capacity) }
    ensures doubled { OnOk result (ring.new.capacity ≡ (if length ring.old.items == ring.old.capacity
        then max 1 (2 * ring.old.capacity) else ring.old.capacity)) }
    ensures same { ring.new.items ≡ ring.old.items }
    ensures err { OnErr result (ring.new ≡ ring.old) }
{
    let capacity = ring.capacity();
    if ring.len() == capacity {
        ring.resize((2 * capacity).max(1))?;
    }
    Ok(())
}

/// Adds the entry, if there is one; there is room for it. A full ring would let its first entry go.
pub(crate) fn queue<T: Drop>(ring: &mut HeapCircularBuffer<T>, entry: Option<T>)
    requires { length ring.old.items < ring.old.capacity }
    ensures { ring.new.items ≡ ring.old.items ++ listed entry }
{
    if let Some(entry) = entry {
        let _ = ring.push_back(entry);
    }
}

/// Removes the first entry.
pub(crate) fn drop_first<T: Drop>(ring: &mut HeapCircularBuffer<T>)
    ensures { ring.new.items ≡ drop 1 ring.old.items }
{
    let _ = ring.pop_front();
}
