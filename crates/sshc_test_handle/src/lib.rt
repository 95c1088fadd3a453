//! Tests of the handle over a transport in memory.
#![tactic(auto)]

#[cfg(test)]
mod agents;
#[cfg(test)]
mod answers;
#[cfg(test)]
mod calls;
#[cfg(test)]
mod connecting;
#[cfg(test)]
mod defaults;
#[cfg(test)]
mod echo;
#[cfg(test)]
mod leaving;
#[cfg(test)]
mod logins;
#[cfg(test)]
mod looking;
#[cfg(test)]
mod maker;
#[cfg(test)]
mod packets;
#[cfg(test)]
mod pairs;
#[cfg(test)]
mod payloads;
#[cfg(test)]
mod proving;
#[cfg(test)]
mod rules;
#[cfg(test)]
mod runs;
#[cfg(test)]
mod script;
#[cfg(test)]
mod sending;
#[cfg(test)]
mod sockets;
#[cfg(test)]
mod turns;
#[cfg(test)]
mod waking;
