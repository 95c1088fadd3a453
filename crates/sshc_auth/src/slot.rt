//! The slot of a value that is there or not, as of the method that a request stores.

ghost use Rattle.std.specs.Prelude.{◌≡◌, OnOk, OnErr};

use sshc_wire::NoMemory;

/// Empties the slot.
pub fn clear<T: Drop>(slot: &mut Option<T>)
    ensures { slot.new ≡ None }
{
    *slot = None;
}

/// Replaces the slot's value, unless memory ran out before.
pub fn put_unless<T: Drop>(
    slot: &mut Option<T>,
    value: T,
    before: Result<(), NoMemory>,
) -> Result<(), NoMemory>
    ensures ok { OnOk result (slot.new ≡ Some value) }
    ensures err { OnErr result (slot.new ≡ slot.old) }
    ensures same { result ≡ before }
{
    match before {
        Ok(()) => {
            *slot = Some(value);
            Ok(())
        }
        Err(e) => Err(e),
    }
}
