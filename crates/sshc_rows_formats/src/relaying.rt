//! The agent proxy: policies, steps of its core, runs over two streams, and its arguments.

pub mod policies;
pub mod runs;
pub mod steps;
pub mod words;
