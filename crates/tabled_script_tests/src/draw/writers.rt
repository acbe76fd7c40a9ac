//! Pictures written where writing fails, is interrupted or takes little a call.

use std::io::{self, ErrorKind, Write};
use std::test::Fail;
use tabled_draw::{draw, picture};
use tabled_testing::{flat, merged};

/// A writer that takes some bytes a call, and fails at one of them.
#[derive(Drop)]
struct Sink {
    at_most: usize,
    before: usize,
    kind: ErrorKind,
    taken: Vec<u8>,
}

impl Write for Sink {
    fn write(&mut self, buf: &[u8]) -> io::Result<usize> {
        if self.before == 0 {
            self.before = usize::MAX;
            return Err(io::Error::from(self.kind));
        }
        self.before -= 1;
        let len = self.at_most.min(buf.len());
        self.taken.extend_from_slice(&buf[..len])?;
        Ok(len)
    }

    fn flush(&mut self) -> io::Result<()> {
        Ok(())
    }
}

#[test]
fn what_is_written_is_the_picture_or_failed(rt: HostRuntime) -> Result<(), Fail> {
    let alloc = rt.alloc();
    let records = flat(alloc, "a b / c d / e f /")?;
    let cfg = merged(alloc, "0.0:2x1 2.0:1x2")?;
    let whole = picture(alloc, &records, &cfg)?;
    for at_most in [1, 7, 1000] {
        let calls = whole.len().div_ceil(at_most);
        for kind in [ErrorKind::BrokenPipe, ErrorKind::Interrupted] {
            for before in 0..calls + 2 {
                let mut writer = Sink {
                    at_most,
                    before,
                    kind,
                    taken: Vec::new(alloc),
                };
                let is_done = draw(alloc, &mut writer, &records, &cfg).is_ok();
                let taken = writer.taken.as_slice();
                let fails = before < calls && kind == ErrorKind::BrokenPipe;
                assert!(rt;
                    is_done != fails,
                    "{at_most} bytes a write, {before} before"
                );
                assert!(rt;
                    whole.as_bytes().starts_with(taken) && is_done == (taken == whole.as_bytes()),
                    "{at_most} bytes a write, {before} before"
                );
            }
        }
    }
    Ok(())
}
