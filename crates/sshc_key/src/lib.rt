//! Keys, certificates, signatures and key pairs of SSH: their values, their text, and who signs with them.
#![tactic(auto)]

mod agent;
pub mod agent_msg;
mod algorithm;
mod algorithm_name;
mod comparing;
mod copying;
mod error;
mod identity;
mod key_data;
mod key_files;
mod key_text;
mod kind;
mod nesting;
mod pair;
mod parsing;
mod public_key;
mod reading;
mod signature;
mod signer;
mod statement;
mod verifier;
mod writing;

pub use agent::{AgentIdentity, AgentSessionBinding, Constraint, KeyRef};
pub use algorithm::{ALL_KEY_TYPES, Algorithm, EcdsaCurve};
pub use algorithm_name::AlgorithmName;
pub use error::Error;
pub use identity::{PrivateKeyWithHashAlg, PublicKeyOrCertificate};
pub use key_data::{CertType, Certificate, KeyData};
pub use key_files::{load_openssh_certificate, load_public_key};
pub use key_text::{PublicKeyBase64, PublicKeyExt, parse_public_key_base64, without_line_ends};
pub use nesting::check_cert_nesting;
pub use pair::{PairData, PrivateKey};
pub use parsing::{parse_public_key, parse_whole_public_key};
pub use public_key::PublicKey;
pub use reading::{read_key_pair, read_signature};
pub use signature::{Signature, SkFields};
pub use signer::{Asker, LocalSigner, SignRefused, Signer};
pub use sshc_wire::HashAlg;
pub use verifier::{Verifier, Verify};
pub use writing::{append_certificate, append_key, put_certificate, put_key, write_key_pair};
