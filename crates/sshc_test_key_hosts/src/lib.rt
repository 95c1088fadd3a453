//! Tests of keys and known hosts: files of keys, certificates in one another, pairs, signatures, judgements, look-ups,
//! learning, and the `hosts` command-line arguments, with files made by OpenSSH's tools.
#![tactic(auto)]

#[cfg(test)]
mod copies;
#[cfg(test)]
mod hashes;
#[cfg(test)]
mod judgement;
#[cfg(test)]
mod key_files;
#[cfg(test)]
mod keys;
#[cfg(test)]
mod learning;
#[cfg(test)]
mod long;
#[cfg(test)]
mod look_ups;
#[cfg(test)]
mod nesting;
#[cfg(test)]
mod pairs;
#[cfg(test)]
mod places;
#[cfg(test)]
mod verifying;
#[cfg(test)]
mod words;

/// Drops a value. Its parts aren't looked at here, so the check of a caller stays short.
#[cfg(test)]
fn let_go<T: Drop>(_value: T) {}

/// Whether a value was made, and equals the other one. Its parts aren't looked at here either.
#[cfg(test)]
fn is_equal<T: PartialEq + Drop, E: Drop>(made: Result<T, E>, other: &T) -> bool {
    match made {
        Ok(made) => made == *other,
        Err(_) => false,
    }
}
