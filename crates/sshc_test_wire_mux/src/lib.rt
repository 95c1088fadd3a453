//! Tests of sshc_wire and sshc_mux: parts and records, sources, sinks and files over memory, and channels.
#![tactic(auto)]

#[cfg(test)]
mod channels;
#[cfg(test)]
mod outside;
#[cfg(test)]
mod parts;
#[cfg(test)]
mod plain;
#[cfg(test)]
mod plain_table;
#[cfg(test)]
mod random;
#[cfg(test)]
mod records;
#[cfg(test)]
mod values;

/// Drops a value. Its parts aren't looked at here, so the check of a caller stays short.
#[cfg(test)]
fn let_go<T: Drop>(_value: T) {}
