//! The number that joins an answer to what the user asked.

/// The number under which the user is answered. 0 means that no answer is wanted.
#[derive(Clone, Copy, PartialEq, Eq)]
pub struct Ticket(pub u32);
