//! Modes of terminals (RFC 4254, section 8).

/// A terminal mode by its number, 0 to 255.
#[derive(Clone, Copy, PartialEq, Eq)]
pub struct Pty(pub u8);

impl Pty {
    /// The end of the modes.
    pub const TTY_OP_END: Pty = Pty(0);
}
