//! Parts of packets, with the examples of RFC 4251, section 5.

use sshc_wire::{
    Cursor, Names, NoMemory, Text, WireError, begin_string, end_string, put_bytes, put_names,
    put_text, put_u32, put_u64,
};

/// 699921578, `testing` as bytes and as a text, the names `zlib` and `none`, and 1 in eight bytes.
const PARTS: &[u8] =
    b"\x29\xb7\xf4\xaa\x00\x00\x00\x07testing\x00\x00\x00\x07testing\x00\x00\x00\x09zlib,none\x00\x00\x00\x00\x00\x00\
        \x00\x01";

const NAMES: &[&str] = &["zlib", "none"];

fn put_two_names(out: &mut Vec<u8>) -> Result<(), NoMemory> {
    let alloc = *out.allocator();
    let mut names = Vec::new(alloc);
    for name in NAMES {
        names.push(Text::from_str(alloc, name)?)?;
    }
    put_names(out, names.as_slice())
}

fn put_parts(out: &mut Vec<u8>) -> Result<(), NoMemory> {
    put_u32(out, 699_921_578)?;
    put_bytes(out, b"testing")?;
    put_text(out, "testing")?;
    put_two_names(out)?;
    put_u64(out, 1)
}

#[test]
fn parts_are_written(rt: HostRuntime) {
    let mut out = Vec::new(rt.alloc());
    let written = put_parts(&mut out);
    assert!(rt; written == Ok(()) && out.as_slice() == PARTS);
}

/// A part that is read, with its value.
enum Part {
    Byte(u8),
    Flag(bool),
    Number(u32),
    Long(u64),
    Bytes(&'static [u8]),
    Text(&'static str),
    Names(&'static [&'static str]),
}

/// Whether the names are these and no more.
fn are_names(mut names: Names<'_>, want: &[&str]) -> bool {
    let mut are_equal = true;
    for name in want {
        are_equal = are_equal && names.next() == Some(*name);
    }
    are_equal && names.next().is_none()
}

/// Whether the part of this kind that is read next has this value.
fn is_next(c: &mut Cursor<'_>, part: &Part) -> Result<bool, WireError> {
    match part {
        Part::Byte(byte) => Ok(c.u8()? == *byte),
        Part::Flag(flag) => Ok(c.boolean()? == *flag),
        Part::Number(number) => Ok(c.u32()? == *number),
        Part::Long(number) => Ok(c.u64()? == *number),
        Part::Bytes(bytes) => Ok(c.bytes()? == *bytes),
        Part::Text(text) => Ok(c.text()? == *text),
        Part::Names(names) => Ok(are_names(c.names()?, names)),
    }
}

/// Bytes, and the parts that are read from them.
const READ: &[(&[u8], &[Part])] = &[
    (
        PARTS,
        &[
            Part::Number(699_921_578),
            Part::Bytes(b"testing"),
            Part::Text("testing"),
            Part::Names(NAMES),
            Part::Long(1),
        ],
    ),
    (
        &[2, 0, 9],
        &[Part::Flag(true), Part::Flag(false), Part::Byte(9)],
    ),
];

/// Whether the bytes are these parts and no more. Before each part the cursor isn't at the end.
fn are_parts(bytes: &[u8], parts: &[Part]) -> bool {
    let mut c = Cursor::new(bytes);
    let mut are_equal = true;
    for part in parts {
        are_equal = are_equal
            && c.ensure_end() == Err(WireError::Trailing)
            && is_next(&mut c, part) == Ok(true);
    }
    are_equal && c.ensure_end() == Ok(())
}

#[test]
fn parts_are_read(rt: HostRuntime) {
    for (bytes, parts) in READ {
        assert!(rt; are_parts(bytes, parts), "{} bytes", bytes.len());
    }
    assert!(rt; are_names(Names::new(",a,,b,"), &["a", "b"]));
}

/// Bytes, and parts that are refused there one after another.
const REFUSED: &[(&[u8], &[(Part, WireError)])] = &[
    (
        b"\x00\x00\x00\x02a",
        &[(Part::Bytes(b""), WireError::Short)],
    ),
    (
        b"\x00\x00\x00\x01\xff",
        &[
            (Part::Text(""), WireError::NotText),
            (Part::Long(0), WireError::Short),
        ],
    ),
];

/// Whether each part is refused with its error, and the cursor is where it was.
fn are_refused(bytes: &[u8], parts: &[(Part, WireError)]) -> bool {
    let mut c = Cursor::new(bytes);
    let mut are_refused = true;
    for (part, error) in parts {
        are_refused = are_refused && is_next(&mut c, part) == Err(*error) && c.rest() == bytes;
    }
    are_refused
}

#[test]
fn a_refused_cursor_is_unmoved(rt: HostRuntime) {
    for (bytes, parts) in REFUSED {
        assert!(rt; are_refused(bytes, parts), "{} parts", parts.len());
    }
}

/// A byte, and behind it a string that holds a string of `ab` and an empty one.
fn put_strings(out: &mut Vec<u8>) -> Result<(), NoMemory> {
    out.push(9)?;
    let whole = begin_string(out)?;
    put_text(out, "ab")?;
    let empty = begin_string(out)?;
    end_string(out, empty)?;
    end_string(out, whole)
}

#[test]
fn a_string_is_measured_once_it_is_written(rt: HostRuntime) {
    let mut out = Vec::new(rt.alloc());
    let written = put_strings(&mut out);
    let want = b"\x09\x00\x00\x00\x0a\x00\x00\x00\x02ab\x00\x00\x00\x00".as_slice();
    assert!(rt; written == Ok(()) && out.as_slice() == want);
}
