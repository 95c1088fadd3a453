//! Signers and verifiers without public-key arithmetic, for runs without a server: the toy pair, and a pair that
//! refuses.
#![tactic(auto)]

mod keeping;
mod refusing;
mod signer;
mod verifier;

pub use refusing::{RefusingSigner, RefusingVerifier};
pub use signer::ToySigner;
pub use verifier::ToyVerifier;
