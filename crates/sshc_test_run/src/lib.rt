//! Tests of whole runs of scripts, and of the arguments that run and generate them: a password login, its refusals, and
//! the login's script damaged in every place.
#![tactic(auto)]

#[cfg(test)]
mod calls;
#[cfg(test)]
mod damaged;
#[cfg(test)]
mod faults;
#[cfg(test)]
mod login;
#[cfg(test)]
mod outside;
#[cfg(test)]
mod scripts;
#[cfg(test)]
mod settings;
#[cfg(test)]
mod system;
#[cfg(test)]
mod words;
