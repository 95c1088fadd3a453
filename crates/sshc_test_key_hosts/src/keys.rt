//! The keys of the examples, and what is asked of a key.

use sshc_key::{PublicKey, PublicKeyBase64};

/// A plain key of Ed25519.
pub const KEY: &str = "AAAAC3NzaC1lZDI1NTE5AAAAIK2pr+Bfus1hvPof4Wb/plZCzSbqadHH0u+/f4ODtKnE";

/// A certificate that `ssh-keygen -s` made for an Ed25519 key of a user.
pub const USER_CERTIFICATE: &str =
    "AAAAIHNzaC1lZDI1NTE5LWNlcnQtdjAxQG9wZW5zc2guY29tAAAAIKd0QZDMYHnzknLNkbEpxxdCadHoDIongf+KkDpUZJQPAAAAIEsEJKWbd/Zmm\
        Dx3JZr2QhO2oj9Jz48JfoGPgmj1+r3PAAAAAAAAAAcAAAABAAAAB3VzZXIgaWQAAAAQAAAABWFsaWNlAAAAA2JvYgAAAABeC+EAAAAAAHDb2IA\
        AAAA/AAAADWZvcmNlLWNvbW1hbmQAAAAGAAAAAmxzAAAADnNvdXJjZS1hZGRyZXNzAAAADgAAAAoxMC4wLjAuMC84AAAAcAAAABVwZXJtaXQtW\
        DExLWZvcndhcmRpbmcAAAAAAAAAF3Blcm1pdC1hZ2VudC1mb3J3YXJkaW5nAAAAAAAAABZwZXJtaXQtcG9ydC1mb3J3YXJkaW5nAAAAAAAAAA5\
        wZXJtaXQtdXNlci1yYwAAAAAAAAAAAAAAMwAAAAtzc2gtZWQyNTUxOQAAACBLBCSlm3f2Zpg8dyWa9kITtqI/Sc+PCX6Bj4Jo9fq9zwAAAFMAA\
        AALc3NoLWVkMjU1MTkAAABAKwyZ14dVezNCm+omoUIxagByPS6yHpVX9vGsfwExzVziTfPxQ22ia+Efrqpy3SdyjVBZ6jTWd4M3dnAMy/QhAQ=\
        =";

pub const K1: &str = "AAAAC3NzaC1lZDI1NTE5AAAAIJdD7y3aLq454yWBdwLWbieU1ebz9/cu7/QEXn9OIeZJ";

pub const K2: &str = "AAAAC3NzaC1lZDI1NTE5AAAAIA6rWI3G1sz07DnfFlrouTcysQlj2P+jpNSOEWD9OJ3X";
/// K2 with another byte.
pub const K2X: &str = "AAAAC3NzaC1lZDI1NTE5AAAAIA6rWI3G2sz07DnfFlrouTcysQlj2P+jpNSOEWD9OJ3X";

pub const K3: &str = "AAAAC3NzaC1lZDI1NTE5AAAAILIG2T/B0l0gaqj3puu510tu9N1OkQ4znY3LYuEm5zCF";

/// A host certificate, from `ssh-keygen -q -s ca -I host-id -h -n h.example -V 20260101:20270101 hk.pub` (two Ed25519
/// keys).
pub const HOST_CERTIFICATE: &str =
    "AAAAIHNzaC1lZDI1NTE5LWNlcnQtdjAxQG9wZW5zc2guY29tAAAAIDO2c3p6eMdqhi8UCe6Yfh/8c/hg0SPATwma1cWE28klAAAAIO86gCcDnr1vw\
        pMh4cM+WR89ag+tUV94EN/k1iUZxFFwAAAAAAAAAAAAAAACAAAAB2hvc3QtaWQAAAANAAAACWguZXhhbXBsZQAAAABpVbkAAAAAAGs27IAAAAA\
        AAAAAAAAAAAAAAAAzAAAAC3NzaC1lZDI1NTE5AAAAILBsDyuzGtdVhAQ+cddnpwvuwlYEO+UInLkG9v8E6XUaAAAAUwAAAAtzc2gtZWQyNTUxO\
        QAAAEDB5mjqZc/AhXyF3yf8A/A9K1mZKZxJ6m1AvEvF/CjnkOClZd5K/I5OzP91mqpt0oPElkPbvmoFMe2c+B0SjR0E";

/// A known hosts text of four lines: one with a port, a comment, one with two names, and a hashed one of example.com.
pub const FOUR_LINES: &str =
    "[localhost]:13265 ssh-ed25519 AAAAC3NzaC1lZDI1NTE5AAAAIJdD7y3aLq454yWBdwLWbieU1ebz9/cu7/QEXn9OIeZJ
#pijul.org,37.120.161.53 ssh-ed25519 AAAAC3NzaC1lZDI1NTE5AAAAIA6rWI3G2sz07DnfFlrouTcysQlj2P+jpNSOEWD9OJ3X
pijul.org,37.120.161.53 ssh-ed25519 AAAAC3NzaC1lZDI1NTE5AAAAIA6rWI3G1sz07DnfFlrouTcysQlj2P+jpNSOEWD9OJ3X
|1|O33ESRMWPVkMYIwJ1Uw+n877jTo=|nuuC5vEqXlEZ/8BXQR7m619W6Ak= ssh-ed25519 \
    AAAAC3NzaC1lZDI1NTE5AAAAILIG2T/B0l0gaqj3puu510tu9N1OkQ4znY3LYuEm5zCF
";

/// Whether the key has this base64.
pub fn has_base64(key: &PublicKey, want: &str) -> bool {
    match key.public_key_base64() {
        Ok(base64) => base64.as_str() == want,
        Err(_) => false,
    }
}
