//! Tests of the agent: one by itself, shared by seats, and served over streams in threads.
#![tactic(auto)]

#[cfg(test)]
mod apart;
#[cfg(test)]
mod calls;
#[cfg(test)]
mod frames;
#[cfg(test)]
mod joined;
#[cfg(test)]
mod lasting;
#[cfg(test)]
mod serving;
#[cfg(test)]
mod sharing;
#[cfg(test)]
mod stepping;
