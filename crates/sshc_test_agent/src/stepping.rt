//! An agent by itself, step by step.

mod deadlines;
mod inputs;
mod locking;
mod outside;
mod pieces;
mod signer;
mod steps;
