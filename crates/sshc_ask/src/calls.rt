//! The calls of a client, grouped by purpose.

mod extension;
mod identities;
mod keys;
mod lock;
mod messages;
mod sign;
mod sign_message;
mod smartcard;
