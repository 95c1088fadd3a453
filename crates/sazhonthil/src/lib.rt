//! The C library: a session, an agent and known hosts for C and whatever calls C. docs/FORMATS.md has the bytes of
//! events and records; bindings/include/sazhonthil.h declares the exports.
#![tactic(auto)]

mod agent;
mod held_agent;
mod held_session;
mod hosts;
mod parts;
mod session;
mod session_run;
mod settings;
mod step_answer;
