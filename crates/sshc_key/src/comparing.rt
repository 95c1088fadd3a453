//! Keys and what holds them are compared by all that contracts see of them.

ghost use Rattle.std.specs.Prelude.{◌≡◌, ◌↔◌, IsTrue};
ghost use Rattle.std.specs.Cmp.{partial_equiv_from_equiv, on_equiv};
ghost use Rattle.sshc_key.specs.View.{view};
ghost use Rattle.sshc_key.specs.KeyGrammar.{statement_in, dsa, ecdsa, ed25519, rsa, sk_ecdsa, sk_ed25519, opaque};
ghost use Rattle.sshc_key.specs.KeyGrammar.{plain};
ghost use Rattle.sshc_key.specs.KeyEq.{key_eq, public_eq, key_pair_eq, hashed_pair_eq};
ghost use Rattle.sshc_key.specs.KeyEq.{key_eq_equiv, public_eq_equiv, key_pair_eq_equiv, hashed_pair_eq_equiv};

use crate::algorithm::EcdsaCurve;
use crate::identity::PrivateKeyWithHashAlg;
use crate::key_data::{Certificate, KeyData};
use crate::pair::PrivateKey;
use crate::public_key::PublicKey;
use sshc_wire::{List, Octets, Text};

fn same_texts(a: &List<Text>, b: &List<Text>) -> bool
    ensures { IsTrue result ↔ (a.now ≡ b.now) }
{
    a == b
}

fn same_options(a: &List<(Text, Octets)>, b: &List<(Text, Octets)>) -> bool
    ensures { IsTrue result ↔ (a.now ≡ b.now) }
{
    a == b
}

impl KeyData {
    #[cycle(same)]
    fn is_same(&self, other: &KeyData) -> bool
        ensures { IsTrue result ↔ (view self.now ≡ view other.now) }
    {
        match self {
            KeyData::Dsa { p, q, g, y } => other.is_dsa(p, q, g, y),
            KeyData::Ecdsa { curve, point } => other.is_ecdsa(*curve, point),
            KeyData::Ed25519 { public } => other.is_ed25519(public),
            KeyData::Rsa { e, n } => other.is_rsa(e, n),
            KeyData::SkEcdsaSha2NistP256 { point, application } => {
                other.is_sk_ecdsa(point, application)
            }
            KeyData::SkEd25519 {
                public,
                application,
            } => other.is_sk_ed25519(public, application),
            KeyData::Other { name, body } => other.is_opaque(name, body),
            KeyData::Certificate(c) => match other {
                KeyData::Certificate(d) => c.is_same(d),
                _ => {
                    let _ = &c.nonce;
                    false
                }
            },
        }
    }

    fn is_dsa(&self, p: &Octets, q: &Octets, g: &Octets, y: &Octets) -> bool
        ensures { IsTrue result ↔ (view self.now ≡ plain (dsa p.now q.now g.now y.now)) }
    {
        match self {
            KeyData::Dsa {
                p: p2,
                q: q2,
                g: g2,
                y: y2,
            } => p == p2 && q == q2 && g == g2 && y == y2,
            KeyData::Certificate(certificate) => !certificate.is_certificate(),
            _ => false,
        }
    }

    fn is_ecdsa(&self, curve: EcdsaCurve, point: &Octets) -> bool
        ensures { IsTrue result ↔ (view self.now ≡ plain (ecdsa curve point.now)) }
    {
        match self {
            KeyData::Ecdsa {
                curve: curve2,
                point: point2,
            } => curve == *curve2 && point == point2,
            KeyData::Certificate(certificate) => !certificate.is_certificate(),
            _ => false,
        }
    }

    fn is_ed25519(&self, public: &Octets) -> bool
        ensures { IsTrue result ↔ (view self.now ≡ plain (ed25519 public.now)) }
    {
        match self {
            KeyData::Ed25519 { public: public2 } => public == public2,
            KeyData::Certificate(certificate) => !certificate.is_certificate(),
            _ => false,
        }
    }

    fn is_rsa(&self, e: &Octets, n: &Octets) -> bool
        ensures { IsTrue result ↔ (view self.now ≡ plain (rsa e.now n.now)) }
    {
        match self {
            KeyData::Rsa { e: e2, n: n2 } => e == e2 && n == n2,
            KeyData::Certificate(certificate) => !certificate.is_certificate(),
            _ => false,
        }
    }

    fn is_sk_ecdsa(&self, point: &Octets, application: &Text) -> bool
        ensures { IsTrue result ↔ (view self.now ≡ plain (sk_ecdsa point.now application.now)) }
    {
        match self {
            KeyData::SkEcdsaSha2NistP256 {
                point: point2,
                application: application2,
            } => point == point2 && application == application2,
            KeyData::Certificate(certificate) => !certificate.is_certificate(),
            _ => false,
        }
    }

    fn is_sk_ed25519(&self, public: &Octets, application: &Text) -> bool
        ensures { IsTrue result ↔ (view self.now ≡ plain (sk_ed25519 public.now application.now)) }
    {
        match self {
            KeyData::SkEd25519 {
                public: public2,
                application: application2,
            } => public == public2 && application == application2,
            KeyData::Certificate(certificate) => !certificate.is_certificate(),
            _ => false,
        }
    }

    fn is_opaque(&self, name: &Text, body: &Octets) -> bool
        ensures { IsTrue result ↔ (view self.now ≡ plain (opaque name.now body.now)) }
    {
        match self {
            KeyData::Other {
                name: name2,
                body: body2,
            } => name == name2 && body == body2,
            KeyData::Certificate(certificate) => !certificate.is_certificate(),
            _ => false,
        }
    }
}

impl Certificate {
    #[cycle(same)]
    fn is_same(&self, other: &Certificate) -> bool
        ensures { IsTrue result ↔ (self.now ≡ other.now) }
    {
        self.nonce == other.nonce
            && self.public_key.is_same(&other.public_key)
            && self.says_same(other)
            && self.signature_key.is_same(&other.signature_key)
            && self.signature == other.signature
    }

    fn says_same(&self, other: &Certificate) -> bool
        ensures { IsTrue result ↔ (statement_in self.now ≡ statement_in other.now) }
    {
        self.serial == other.serial
            && self.cert_type == other.cert_type
            && self.key_id == other.key_id
            && same_texts(&self.valid_principals, &other.valid_principals)
            && self.valid_after == other.valid_after
            && self.valid_before == other.valid_before
            && same_options(&self.critical_options, &other.critical_options)
            && same_options(&self.extensions, &other.extensions)
            && self.reserved == other.reserved
    }
}

impl PublicKey {
    fn is_same(&self, other: &PublicKey) -> bool
        ensures { IsTrue result ↔ (self.now ≡ other.now) }
    {
        self.key.is_same(&other.key) && self.comment == other.comment
    }
}

impl PrivateKey {
    fn is_same(&self, other: &PrivateKey) -> bool
        ensures { IsTrue result ↔ (self.now ≡ other.now) }
    {
        self.public.is_same(&other.public) && self.pair == other.pair
    }
}

impl PartialEq for KeyData {
    ghost eq = { λ a b. key_eq (view a) (view b) };

    ghost laws = { partial_equiv_from_equiv (on_equiv view key_eq_equiv) };

    fn eq(&self, other: &KeyData) -> bool {
        self.is_same(other)
    }
}

impl Eq for KeyData {
    ghost laws = { on_equiv view key_eq_equiv };
}

impl PartialEq for Certificate {
    ghost eq = { key_eq };

    ghost laws = { partial_equiv_from_equiv key_eq_equiv };

    fn eq(&self, other: &Certificate) -> bool {
        self.is_same(other)
    }
}

impl Eq for Certificate {
    ghost laws = { key_eq_equiv };
}

impl PartialEq for PublicKey {
    ghost eq = { public_eq };

    ghost laws = { partial_equiv_from_equiv public_eq_equiv };

    fn eq(&self, other: &PublicKey) -> bool {
        self.is_same(other)
    }
}

impl Eq for PublicKey {
    ghost laws = { public_eq_equiv };
}

impl PartialEq for PrivateKey {
    ghost eq = { key_pair_eq };

    ghost laws = { partial_equiv_from_equiv key_pair_eq_equiv };

    fn eq(&self, other: &PrivateKey) -> bool {
        self.is_same(other)
    }
}

impl Eq for PrivateKey {
    ghost laws = { key_pair_eq_equiv };
}

impl PrivateKeyWithHashAlg {
    fn is_same(&self, other: &PrivateKeyWithHashAlg) -> bool
        ensures { IsTrue result ↔ (self.now ≡ other.now) }
    {
        self.key().is_same(other.key()) && self.hash_alg() == other.hash_alg()
    }
}

impl PartialEq for PrivateKeyWithHashAlg {
    ghost eq = { hashed_pair_eq };

    ghost laws = { partial_equiv_from_equiv hashed_pair_eq_equiv };

    fn eq(&self, other: &PrivateKeyWithHashAlg) -> bool {
        self.is_same(other)
    }
}

impl Eq for PrivateKeyWithHashAlg {
    ghost laws = { hashed_pair_eq_equiv };
}
