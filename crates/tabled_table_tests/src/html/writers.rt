//! HTML written where writing fails, is interrupted or takes little a call.

use std::io::{self, ErrorKind, Write};
use std::test::Fail;
use tabled_html::{WriteError, write};
use tabled_testing::{flat, merged};

/// A writer that takes some bytes a call, and fails at one of them.
#[derive(Drop)]
struct Sink {
    at_most: usize,
    before: usize,
    kind: ErrorKind,
    taken: Vec<u8>,
}

impl Write for Sink {
    fn write(&mut self, buf: &[u8]) -> io::Result<usize> {
        if self.before == 0 {
            self.before = usize::MAX;
            return Err(io::Error::from(self.kind));
        }
        self.before -= 1;
        let len = self.at_most.min(buf.len());
        self.taken.extend_from_slice(&buf[..len])?;
        Ok(len)
    }

    fn flush(&mut self) -> io::Result<()> {
        Err(io::Error::from(ErrorKind::Other))
    }
}

/// The HTML of the table that is written.
const WHOLE: &str = "<table>
<tbody>
<tr><td rowspan=\"2\">a</td><td>b&amp;</td></tr>
<tr><td>d</td></tr>
<tr><td colspan=\"2\">e</td></tr>
</tbody>
</table>
";

/// Whether the outcome is that of a writer that failed in this way, or of one that didn't.
fn is_outcome(outcome: Result<(), WriteError>, failure: Option<ErrorKind>) -> bool {
    match outcome {
        Ok(()) => failure.is_none(),
        Err(WriteError::Failed(error)) => Some(error.kind()) == failure,
        Err(WriteError::OutOfMemory) => false,
    }
}

#[test]
fn what_is_written_is_the_table_or_failed(rt: HostRuntime) -> Result<(), Fail> {
    let alloc = rt.alloc();
    let records = flat(alloc, "a b& / c d / e f /")?;
    let cfg = merged(alloc, "0.0:2x1 2.0:1x2")?;
    for at_most in [1, 7, 1000] {
        let calls = WHOLE.len().div_ceil(at_most);
        for kind in [ErrorKind::BrokenPipe, ErrorKind::Interrupted] {
            for before in 0..calls + 2 {
                let mut writer = Sink {
                    at_most,
                    before,
                    kind,
                    taken: Vec::new(alloc),
                };
                let fails = before < calls && kind == ErrorKind::BrokenPipe;
                let outcome = write(alloc, &mut writer, &records, &cfg);
                assert!(rt;
                    is_outcome(outcome, if fails { Some(kind) } else { None }),
                    "{at_most} bytes a write, {before} before"
                );
                let taken = writer.taken.as_slice();
                assert!(rt;
                    WHOLE.as_bytes().starts_with(taken) && fails == (taken.len() < WHOLE.len()),
                    "{at_most} bytes a write, {before} before"
                );
            }
        }
    }
    Ok(())
}
