//! A public key and its comment.

use crate::key_data::KeyData;
use sshc_wire::Text;
use std::marker::Model;

/// A public key or certificate and its comment, which contracts see as that pair.
#[derive(Drop)]
pub struct PublicKey {
    pub key: KeyData,
    pub comment: Text,
}

impl Model for PublicKey {
    ghost use Rattle.std.specs.Prelude.{List, ℕ};
    ghost use Rattle.std.specs.Coded.{coded×};
    ghost use Rattle.sshc_key.specs.KeyGrammar.{Key};
    ghost use Rattle.sshc_key.specs.KeyCode.{key_code, bytes_code};

    ghost Value = { Key × List ℕ };

    ghost coded = { coded× key_code bytes_code };

    ghost use Rattle.sshc_key.specs.PublicView.{commented};

    ghost view = { commented };
}
