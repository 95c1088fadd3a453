//! The numbers of closed channels, found without looking through them.

ghost use Rattle.std.specs.Prelude.{◌≡◌, ℕ, ◌==◌, ◌||◌, ◌&&◌, false, not, true, OnOk};
ghost use Rattle.sshc_handle_tickets.specs.Marks.{has_room, is_marked};

use sshc_wire::NoMemory;
use std::alloc::Global;
use std::collections::BTreeMap;

/// For each number that has room here, whether it is marked.
#[derive(Drop)]
pub(crate) struct Marks {
    of: BTreeMap<u32, bool>,
}

impl Marks {
    /// Nothing is marked.
    pub(crate) fn new(alloc: Global) -> Marks
        ensures { (n : ℕ) → is_marked result n ≡ false }
    {
        Marks {
            of: BTreeMap::new(alloc),
        }
    }

    /// Whether this number is marked.
    pub(crate) fn has(&self, number: u32) -> bool
        ensures { result ≡ is_marked self.now number }
    {
        self.of.get(&number).copied().unwrap_or(false)
    }

    /// Makes room for this number, so that it can be marked without memory.
    pub(crate) fn make_room(&mut self, number: u32) -> Result<(), NoMemory>
        ensures same { (n : ℕ) → is_marked self.new n ≡ is_marked self.old n }
        ensures kept { (n : ℕ) → has_room self.old n ≡ true → has_room self.new n ≡ true }
        ensures there { OnOk result (has_room self.new number ≡ true) }
    {
        if !self.of.contains_key(&number) {
            self.of.insert(number, false)?;
        }
        Ok(())
    }

    /// Marks a number that has room.
    pub(crate) fn mark(&mut self, number: u32)
        requires there { has_room self.old number ≡ true }
        ensures marked { (n : ℕ) → is_marked self.new n ≡ (number == n) || is_marked self.old n }
        ensures kept { (n : ℕ) → has_room self.new n ≡ has_room self.old n }
    {
        if let Some(mark) = self.of.get_mut(&number) {
            *mark = true;
        }
    }

    /// The number isn't marked any more.
    pub(crate) fn clear(&mut self, number: u32)
        ensures cleared { (n : ℕ) → is_marked self.new n ≡ not (number == n) && is_marked self.old n }
        ensures kept { (n : ℕ) → has_room self.new n ≡ has_room self.old n }
    {
        if let Some(mark) = self.of.get_mut(&number) {
            *mark = false;
        }
    }
}
