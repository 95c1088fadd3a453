//! The login with a read or a write that fails, and with bytes that are read and written one at a time.

use crate::outside::StoppingWriter;
use crate::scripts::{
    Ends, KNOWN, LOGIN, after, are_lines, calls, run_over, script_of, whole_events,
};
use sshc_run_script::RunError;
use sshc_wire::{MemSink, MemSource, NoMemory, PieceSink, PieceSource, StdSink};
use std::alloc::Global;
use std::test::Fail;

const READ_FAULT: Ends = Ends::By(RunError::ReadFault);

const WRITE_FAULT: Ends = Ends::By(RunError::WriteFault);

/// The numbers of the calls that fail, of the source and of the sink.
#[derive(Clone, Copy)]
struct Failing {
    read: Option<u64>,
    write: Option<u64>,
}

const NOTHING: Failing = Failing {
    read: None,
    write: None,
};

fn read(number: u64) -> Failing {
    Failing {
        read: Some(number),
        write: None,
    }
}

fn write(number: u64) -> Failing {
    Failing {
        read: None,
        write: Some(number),
    }
}

fn source_of(alloc: Global, failing: Failing) -> Result<MemSource, NoMemory> {
    let script = script_of(alloc, LOGIN.as_slice())?;
    Ok(MemSource::new(script, calls(alloc, failing.read)?))
}

fn sink_of(alloc: Global, failing: Failing) -> Result<MemSink, NoMemory> {
    Ok(MemSink::new(Vec::new(alloc), calls(alloc, failing.write)?))
}

/// Whether the login with these failures ends so, and writes so many bytes of its lines.
fn login_gives(
    alloc: Global,
    failing: Failing,
    ends: Ends,
    written: usize,
) -> Result<bool, NoMemory> {
    let mut source = source_of(alloc, failing)?;
    let mut sink = sink_of(alloc, failing)?;
    let came = run_over(alloc, KNOWN, 8192, &mut source, &mut sink);
    Ok(came == ends && are_lines(sink.contents(), written))
}

/// The same a byte at a time.
fn slow_login_gives(
    alloc: Global,
    failing: Failing,
    ends: Ends,
    written: usize,
) -> Result<bool, NoMemory> {
    let mut source = PieceSource {
        source: source_of(alloc, failing)?,
        is_slow: true,
    };
    let mut sink = PieceSink {
        sink: sink_of(alloc, failing)?,
        is_slow: true,
    };
    let came = run_over(alloc, KNOWN, 8192, &mut source, &mut sink);
    Ok(came == ends && are_lines(sink.sink.contents(), written))
}

/// The number of a read that fails, or of none, how the run ends, and how many bytes are written. An event takes two
/// reads.
const READS: [(u64, Ends, usize); 12] = [
    (0, READ_FAULT, 0),
    (1, READ_FAULT, 0),
    (2, READ_FAULT, 0),
    (3, READ_FAULT, 0),
    (4, READ_FAULT, 45),
    (5, READ_FAULT, 45),
    (6, READ_FAULT, 82),
    (7, READ_FAULT, 82),
    (8, READ_FAULT, 179),
    (9, READ_FAULT, 179),
    (10, READ_FAULT, 195),
    (11, Ends::AtScriptEnd, 195),
];

#[test]
fn a_failed_read_is_told_behind_whole_events(rt: HostRuntime) -> Result<(), Fail> {
    for (number, ends, written) in READS {
        assert!(rt;
            login_gives(rt.alloc(), read(number), ends, written)?,
            "read {number}"
        );
    }
    Ok(())
}

/// Whether a read that fails at a byte is told behind the events that are whole by then.
fn byte_gives(alloc: Global, at: usize) -> Result<bool, NoMemory> {
    match after(whole_events(at)) {
        Some((_, written)) => slow_login_gives(alloc, read(at as u64), READ_FAULT, written),
        None => Ok(false),
    }
}

#[test]
fn a_read_that_fails_at_a_byte_is_told(rt: HostRuntime) -> Result<(), Fail> {
    for at in 0..=220usize {
        assert!(rt; byte_gives(rt.alloc(), at)?, "byte {at}");
    }
    Ok(())
}

/// How many bytes stand before each write.
const ENDS: [usize; 5] = [0, 45, 82, 179, 192];

#[test]
fn a_failed_write_leaves_the_lines_before_it(rt: HostRuntime) -> Result<(), Fail> {
    for (number, end) in (0u64..).zip(&ENDS) {
        let holds = login_gives(rt.alloc(), write(number), WRITE_FAULT, *end)?;
        assert!(rt; holds, "write {number}");
    }
    Ok(())
}

#[test]
fn a_write_that_fails_at_a_byte_leaves_a_front(rt: HostRuntime) -> Result<(), Fail> {
    for at in 0..195usize {
        let holds = slow_login_gives(rt.alloc(), write(at as u64), WRITE_FAULT, at)?;
        assert!(rt; holds, "write {at}");
    }
    Ok(())
}

/// Whether the login into a writer that takes no byte at the call of this number fails there, and so many bytes are
/// written.
fn stop_gives(alloc: Global, stop: u64, written: usize) -> Result<bool, NoMemory> {
    let mut held = Vec::new(alloc);
    let mut source = source_of(alloc, NOTHING)?;
    let mut sink = StdSink::new(StoppingWriter {
        held: &mut held,
        calls: 0,
        stop,
    });
    let came = run_over(alloc, KNOWN, 8192, &mut source, &mut sink);
    Ok(came == WRITE_FAULT && are_lines(&held, written))
}

#[test]
fn a_write_that_takes_nothing_leaves_the_lines_before_it(rt: HostRuntime) -> Result<(), Fail> {
    for (stop, end) in (0u64..).zip(&ENDS) {
        assert!(rt; stop_gives(rt.alloc(), stop, *end)?, "stop {stop}");
    }
    Ok(())
}

#[test]
fn a_login_byte_by_byte_is_the_same(rt: HostRuntime) -> Result<(), Fail> {
    assert!(rt; slow_login_gives(rt.alloc(), NOTHING, Ends::AtScriptEnd, 195)?);
    Ok(())
}
