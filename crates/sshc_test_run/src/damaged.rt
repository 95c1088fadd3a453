//! The script of the login, damaged: cut, with other lengths, kinds and moments, and with too many events.

use crate::scripts::{Ends, KNOWN, LOGIN, PLACES, WRITTEN, after, gives, script_of, whole_events};
use sshc_run_script::RunError;
use sshc_wire::NoMemory;
use std::alloc::Global;
use std::test::Fail;

/// A run is refused since no event begins at this place.
fn bad(place: usize) -> Ends {
    Ends::By(RunError::BadEvent { at: place as u64 })
}

/// The login's script with these bytes in place of those at a place.
fn login_with(alloc: Global, at: usize, bytes: &[u8]) -> Result<Vec<u8>, NoMemory> {
    let mut script = script_of(alloc, LOGIN.as_slice())?;
    for (offset, byte) in bytes.iter().enumerate() {
        if let Some(place) = at.checked_add(offset)
            && let Some(held) = script.get_mut(place)
        {
            *held = *byte;
        }
    }
    Ok(script)
}

/// Whether the login with these bytes at a place ends so, and so many bytes are written.
fn with_gives(
    alloc: Global,
    at: usize,
    bytes: &[u8],
    ends: Ends,
    written: usize,
) -> Result<bool, NoMemory> {
    Ok(gives(
        alloc,
        KNOWN,
        8192,
        login_with(alloc, at, bytes)?,
        ends,
        written,
    ))
}

/// Whether the login that is cut to so many bytes is bad at the event that it is cut in.
fn cut_gives(alloc: Global, size: usize) -> Result<bool, NoMemory> {
    let Some((place, written)) = after(whole_events(size)) else {
        return Ok(false);
    };
    let ends = if place == size {
        Ends::AtScriptEnd
    } else {
        bad(place)
    };
    let mut script = script_of(alloc, LOGIN.as_slice())?;
    script.truncate(size);
    Ok(gives(alloc, KNOWN, 8192, script, ends, written))
}

#[test]
fn a_script_cut_in_an_event_is_bad_there(rt: HostRuntime) -> Result<(), Fail> {
    for size in 0..=220usize {
        assert!(rt; cut_gives(rt.alloc(), size)?, "cut at {size}");
    }
    Ok(())
}

const LENGTHS: [[u8; 4]; 4] = [
    [0, 0, 0, 0],
    [0, 0, 0, 8],
    [0, 4, 0, 1],
    [0xff, 0xff, 0xff, 0xff],
];

#[test]
fn a_length_outside_its_bounds_is_bad(rt: HostRuntime) -> Result<(), Fail> {
    for (place, written) in PLACES.iter().zip(&WRITTEN).take(5) {
        for length in &LENGTHS {
            let holds = with_gives(rt.alloc(), *place, length, bad(*place), *written)?;
            assert!(rt; holds, "length at {place}");
        }
    }
    Ok(())
}

const KINDS: [u8; 13] = [
    0, 0x06, 0x07, 0x0a, 0x0f, 0x23, 0x2c, 0x2d, 0x2e, 0x30, 0x3f, 0x44, 0xff,
];

#[test]
fn a_kind_outside_the_table_is_bad(rt: HostRuntime) -> Result<(), Fail> {
    for (place, written) in PLACES.iter().zip(&WRITTEN).take(5) {
        for kind in KINDS {
            let at = place.saturating_add(12);
            let holds = with_gives(rt.alloc(), at, &[kind], bad(*place), *written)?;
            assert!(rt; holds, "kind {kind} at {place}");
        }
    }
    Ok(())
}

/// Where an event's moment is raised, how the run ends, and how many bytes are written: the next event comes too early,
/// but nothing comes after the last.
const MOMENTS: &[(usize, &[u8], Ends, usize)] = &[
    (4, b"\0\0\0\0\0\0\0\x01", BAD_13, 0),
    (17, b"\0\0\0\0\0\0\0\x01", BAD_143, 45),
    (147, b"\0\0\0\0\0\0\0\x01", BAD_176, 82),
    (180, b"\0\0\0\0\0\0\0\x01", BAD_206, 179),
    (
        210,
        b"\xff\xff\xff\xff\xff\xff\xff\xff",
        Ends::AtScriptEnd,
        195,
    ),
];

const BAD_0: Ends = Ends::By(RunError::BadEvent { at: 0 });

const BAD_13: Ends = Ends::By(RunError::BadEvent { at: 13 });

const BAD_143: Ends = Ends::By(RunError::BadEvent { at: 143 });

const BAD_176: Ends = Ends::By(RunError::BadEvent { at: 176 });

const BAD_206: Ends = Ends::By(RunError::BadEvent { at: 206 });

#[test]
fn a_moment_may_not_fall(rt: HostRuntime) -> Result<(), Fail> {
    for (at, moment, ends, written) in MOMENTS {
        let holds = with_gives(rt.alloc(), *at, moment, *ends, *written)?;
        assert!(rt; holds, "moment at {at}");
    }
    Ok(())
}

/// Moments of the five events that don't fall.
const RISING: [[u8; 5]; 2] = [[7, 7, 7, 7, 7], [0, 1, 1, 9, 200]];

/// Whether the login with these moments is as it was.
fn moments_give_all(alloc: Global, moments: &[u8; 5]) -> Result<bool, NoMemory> {
    let mut script = script_of(alloc, LOGIN.as_slice())?;
    for (place, moment) in PLACES.iter().zip(moments) {
        match script.get_mut(place.saturating_add(11)) {
            Some(held) => *held = *moment,
            None => return Ok(false),
        }
    }
    Ok(gives(alloc, KNOWN, 8192, script, Ends::AtScriptEnd, 195))
}

#[test]
fn moments_that_stay_or_rise_change_nothing(rt: HostRuntime) -> Result<(), Fail> {
    for moments in &RISING {
        assert!(rt; moments_give_all(rt.alloc(), moments)?, "{moments:?}");
    }
    Ok(())
}

/// A name, the place that is changed, the bytes there, how the run ends, and how many bytes are written.
const FIELDS: &[(&str, usize, &[u8], Ends, usize)] = &[
    ("an unknown sort of key", 26, b"\x03", BAD_13, 0),
    ("no key with a blob", 26, b"\0", BAD_13, 0),
    ("a plain key as a certificate", 26, b"\x02", BAD_13, 0),
    ("a key that is too short", 34, b"\0\0\0\x0a", BAD_13, 0),
    ("a hash that is too long", 81, b"\0\0\0\xff", BAD_13, 0),
    ("a name that is no text", 112, b"\xff", BAD_13, 0),
    ("a name that is too short", 108, b"\0\0\0\x10", BAD_13, 0),
    ("an unknown method", 169, b"\x08", BAD_143, 45),
    ("a user that is no text", 164, b"\xff", BAD_143, 45),
    ("a password that is no text", 174, b"\xc3\x28", BAD_143, 45),
    (
        "a password that is too short",
        170,
        b"\0\0\0\x01",
        BAD_143,
        45,
    ),
    ("a packet of the transport", 189, b"\x14", BAD_176, 82),
    ("a byte behind a KEXINIT", 3, b"\x0a", BAD_0, 0),
    ("a byte behind an exchange", 16, b"\x7f", BAD_13, 0),
    ("an exchange a byte short", 16, b"\x7d", BAD_13, 0),
    ("a byte behind a request", 146, b"\x1e", BAD_143, 45),
    ("a request a byte short", 146, b"\x1c", BAD_143, 45),
    (
        "a packet behind the script's end",
        209,
        b"\x0b",
        BAD_206,
        179,
    ),
    // These events have other fields in place of those of the method `password`.
    ("no method with a password", 169, b"\0", BAD_143, 45),
    ("method 2 with a password", 169, b"\x02", BAD_143, 45),
    ("method 3 with a password", 169, b"\x03", BAD_143, 45),
    ("method 4 with a password", 169, b"\x04", BAD_143, 45),
    ("method 5 with a password", 169, b"\x05", BAD_143, 45),
    ("method 7 with a password", 169, b"\x07", BAD_143, 45),
];

#[test]
fn fields_outside_their_grammar_are_bad(rt: HostRuntime) -> Result<(), Fail> {
    for (case, at, bytes, ends, written) in FIELDS {
        let holds = with_gives(rt.alloc(), *at, bytes, *ends, *written)?;
        assert!(rt; holds, "{case}");
    }
    Ok(())
}

/// Whether the login is refused where so many events are allowed, unless all of its five are.
fn bound_gives(alloc: Global, max_events: u32, written: usize) -> Result<bool, NoMemory> {
    let ends = if max_events == 5 {
        Ends::AtScriptEnd
    } else {
        Ends::By(RunError::ScriptTooLong)
    };
    let script = script_of(alloc, LOGIN.as_slice())?;
    Ok(gives(alloc, KNOWN, max_events, script, ends, written))
}

#[test]
fn an_event_too_many_is_refused(rt: HostRuntime) -> Result<(), Fail> {
    for (most, written) in WRITTEN.iter().enumerate() {
        let holds = bound_gives(rt.alloc(), u32::try_from(most)?, *written)?;
        assert!(rt; holds, "at most {most}");
    }
    Ok(())
}
