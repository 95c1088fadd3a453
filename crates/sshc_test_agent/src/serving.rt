//! An agent that is shared by threads, and its server.

mod faults;
mod flags;
mod generations;
mod listener;
mod locking;
mod threads;
