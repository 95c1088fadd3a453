//! What a certificate says of its key (OpenSSH's PROTOCOL.certkeys).

use crate::key_data::CertType;
use sshc_wire::{List, Octets, Text};

/// A certificate without its nonce, its keys and its signature.
#[derive(Drop)]
pub struct Statement {
    pub serial: u64,
    pub cert_type: CertType,
    pub key_id: Text,
    pub valid_principals: List<Text>,
    pub valid_after: u64,
    pub valid_before: u64,
    pub critical_options: List<(Text, Octets)>,
    pub extensions: List<(Text, Octets)>,
    pub reserved: Octets,
}
