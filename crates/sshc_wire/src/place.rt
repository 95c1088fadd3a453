//! Where a text is.

/// Where a text is in its buffer: its first byte, and the first byte after it.
#[derive(Clone, Copy)]
pub(crate) struct Place {
    pub(crate) start: usize,
    pub(crate) stop: usize,
}
