//! HMAC-SHA1 and host texts.

use sshc_hosts::{hmac_sha1, host_text};
use sshc_wire::NoMemory;
use std::alloc::Global;

const LONG_KEY: [u8; 80] = [0xaa; 80];

const COUNTED_KEY: [u8; 25] = [
    1, 2, 3, 4, 5, 6, 7, 8, 9, 10, 11, 12, 13, 14, 15, 16, 17, 18, 19, 20, 21, 22, 23, 24, 25,
];

/// A test case of RFC 2202.
struct Case {
    name: &'static str,
    key: &'static [u8],
    message: &'static [u8],
    want: [u8; 20],
}

/// RFC 2202, section 3, test cases 1 to 7.
const CASES: &[Case] = &[
    Case {
        name: "1",
        key: &[0x0bu8; 20],
        message: b"Hi There",
        want: [
            0xb6, 0x17, 0x31, 0x86, 0x55, 0x05, 0x72, 0x64, 0xe2, 0x8b, 0xc0, 0xb6, 0xfb, 0x37,
            0x8c, 0x8e, 0xf1, 0x46, 0xbe, 0x00,
        ],
    },
    Case {
        name: "2",
        key: b"Jefe",
        message: b"what do ya want for nothing?",
        want: [
            0xef, 0xfc, 0xdf, 0x6a, 0xe5, 0xeb, 0x2f, 0xa2, 0xd2, 0x74, 0x16, 0xd5, 0xf1, 0x84,
            0xdf, 0x9c, 0x25, 0x9a, 0x7c, 0x79,
        ],
    },
    Case {
        name: "3",
        key: &[0xaau8; 20],
        message: &[0xddu8; 50],
        want: [
            0x12, 0x5d, 0x73, 0x42, 0xb9, 0xac, 0x11, 0xcd, 0x91, 0xa3, 0x9a, 0xf4, 0x8a, 0xa1,
            0x7b, 0x4f, 0x63, 0xf1, 0x75, 0xd3,
        ],
    },
    Case {
        name: "4",
        key: &COUNTED_KEY,
        message: &[0xcdu8; 50],
        want: [
            0x4c, 0x90, 0x07, 0xf4, 0x02, 0x62, 0x50, 0xc6, 0xbc, 0x84, 0x14, 0xf9, 0xbf, 0x50,
            0xc8, 0x6c, 0x2d, 0x72, 0x35, 0xda,
        ],
    },
    Case {
        name: "5",
        key: &[0x0cu8; 20],
        message: b"Test With Truncation",
        want: [
            0x4c, 0x1a, 0x03, 0x42, 0x4b, 0x55, 0xe0, 0x7f, 0xe7, 0xf2, 0x7b, 0xe1, 0xd5, 0x8b,
            0xb9, 0x32, 0x4a, 0x9a, 0x5a, 0x04,
        ],
    },
    Case {
        name: "6",
        key: &LONG_KEY,
        message: b"Test Using Larger Than Block-Size Key - Hash Key First",
        want: [
            0xaa, 0x4a, 0xe5, 0xe1, 0x52, 0x72, 0xd0, 0x0e, 0x95, 0x70, 0x56, 0x37, 0xce, 0x8a,
            0x3b, 0x55, 0xed, 0x40, 0x21, 0x12,
        ],
    },
    Case {
        name: "7",
        key: &LONG_KEY,
        message: b"Test Using Larger Than Block-Size Key and Larger Than One Block-Size Data",
        want: [
            0xe8, 0xe9, 0x9d, 0x0f, 0x45, 0x23, 0x7d, 0x78, 0x6d, 0x6b, 0xba, 0xa7, 0x96, 0x5c,
            0x78, 0x08, 0xbb, 0xff, 0x1a, 0x91,
        ],
    },
];

#[test]
fn hashes_the_examples_of_rfc_2202(rt: HostRuntime) {
    for case in CASES {
        let hash = hmac_sha1(case.key, case.message);
        assert!(rt; hash == case.want, "case {}", case.name);
    }
}

/// A host at a port, and its text.
struct At {
    host: &'static str,
    port: u16,
    want: &'static str,
}

const PLACES: &[At] = &[
    At {
        host: "h",
        port: 22,
        want: "h",
    },
    At {
        host: "h",
        port: 2222,
        want: "[h]:2222",
    },
    At {
        host: "localhost",
        port: 13265,
        want: "[localhost]:13265",
    },
    At {
        host: "::1",
        port: 65535,
        want: "[::1]:65535",
    },
    At {
        host: "",
        port: 0,
        want: "[]:0",
    },
];

fn is_named(alloc: Global, at: &At) -> Result<bool, NoMemory> {
    let text = host_text(alloc, at.host, at.port)?;
    Ok(text.as_str() == at.want)
}

#[test]
fn names_a_host_at_a_port(rt: HostRuntime) {
    for at in PLACES {
        assert!(rt; is_named(rt.alloc(), at) == Ok(true), "{}", at.want);
    }
}
