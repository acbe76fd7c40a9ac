//! Scripts run over readers and writers that give and take little, fail, or are interrupted.

use std::alloc::Global;
use std::io::{self, ErrorKind, Read, Write};
use tabled_script::run_script;

/// Counts calls down, and fails at one of them.
#[derive(Drop, Clone, Copy)]
struct Calls {
    before: usize,
    kind: ErrorKind,
}

impl Calls {
    /// Counts a call, which fails where it is the one. The calls after it go on as if nothing was.
    fn count(&mut self) -> io::Result<()> {
        if self.before == 0 {
            self.before = usize::MAX;
            return Err(io::Error::from(self.kind));
        }
        self.before -= 1;
        Ok(())
    }
}

/// A reader that gives some bytes a call.
#[derive(Drop)]
struct SlowReader<'a> {
    bytes: &'a [u8],
    at_most: usize,
    calls: Calls,
}

impl Read for SlowReader<'_> {
    fn read(&mut self, buf: &mut [u8]) -> io::Result<usize> {
        self.calls.count()?;
        let len = self.at_most.min(buf.len()).min(self.bytes.len());
        let (given, rest) = self.bytes.split_at(len);
        buf[..len].copy_from_slice(given);
        self.bytes = rest;
        Ok(len)
    }
}

/// A writer that takes some bytes a call, and holds them until it is flushed. To flush it is a call, too.
#[derive(Drop)]
struct SlowWriter {
    at_most: usize,
    calls: Calls,
    held: Vec<u8>,
    flushed: Vec<u8>,
}

impl Write for SlowWriter {
    fn write(&mut self, buf: &[u8]) -> io::Result<usize> {
        self.calls.count()?;
        let len = self.at_most.min(buf.len());
        self.held.extend_from_slice(&buf[..len])?;
        Ok(len)
    }

    fn flush(&mut self) -> io::Result<()> {
        self.calls.count()?;
        self.flushed.extend_from_slice(&self.held)?;
        self.held.clear();
        Ok(())
    }
}

/// Says whether a script that is read in such calls has its table, or status 4 and no output where one fails.
fn is_read_or_fails(alloc: Global, at_most: usize, calls: Calls, fails: bool) -> bool {
    let mut reader = SlowReader {
        bytes: b"row\ta\nset\tall\tx\n",
        at_most,
        calls,
    };
    let mut written = Vec::new(alloc);
    let status = run_script(alloc, &mut reader, &mut written);
    if fails {
        status == 4 && written.is_empty()
    } else {
        status == 0 && written.as_slice() == "shape\t1\t1\nrow\tx\n".as_bytes()
    }
}

#[test]
fn a_failed_read_is_a_status(rt: HostRuntime) {
    // The call after the last byte tells the end.
    for &(at_most, calls) in &[(1, 17), (5, 5), (16, 2)] {
        for &kind in &[
            ErrorKind::BrokenPipe,
            ErrorKind::OutOfMemory,
            ErrorKind::Interrupted,
        ] {
            for before in 0..calls + 2 {
                let fails = before < calls && kind != ErrorKind::Interrupted;
                let counted = Calls { before, kind };
                assert!(rt;
                    is_read_or_fails(rt.alloc(), at_most, counted, fails),
                    "{at_most} bytes a read, {before} before"
                );
            }
        }
    }
}

/// Says whether a script whose output is taken in such calls has it flushed, with its status, or status 4 where one fails.
fn is_flushed_or_fails(
    alloc: Global,
    script: &str,
    at_most: usize,
    calls: Calls,
    want: Option<(u8, &str)>,
) -> bool {
    let mut reader = script.as_bytes();
    let mut writer = SlowWriter {
        at_most,
        calls,
        held: Vec::new(alloc),
        flushed: Vec::new(alloc),
    };
    let answered = run_script(alloc, &mut reader, &mut writer);
    match want {
        Some((status, output)) => {
            answered == status && writer.flushed.as_slice() == output.as_bytes()
        }
        None => answered == 4,
    }
}

#[test]
fn what_is_written_is_flushed_or_failed(rt: HostRuntime) {
    for &(script, status, output) in &[
        ("row\ta\n", 0, "shape\t1\t1\nrow\ta\n"),
        ("spin\n", 2, "line 1: fault 1\n"),
    ] {
        for at_most in [1, 5, 64] {
            // n writes, and to flush.
            let calls = output.len().div_ceil(at_most) + 1;
            for kind in [ErrorKind::BrokenPipe, ErrorKind::Interrupted] {
                for before in 0..calls + 2 {
                    let is_written = kind == ErrorKind::Interrupted && before + 1 < calls;
                    let want = if is_written || before >= calls {
                        Some((status, output))
                    } else {
                        None
                    };
                    let counted = Calls { before, kind };
                    assert!(rt;
                        is_flushed_or_fails(rt.alloc(), script, at_most, counted, want),
                        "{at_most} bytes a write, {before} before"
                    );
                }
            }
        }
    }
}
