//! A reader that remembers why it failed.

ghost use Rattle.std.specs.Io.KnownBytes.{ReadConsumes};
ghost use Rattle.std.specs.Io.{ReadsAtMost};
ghost use Rattle.std.specs.Prelude.{◌≡◌, is_err, is_some};

use std::io::{self, ErrorKind, Read};

/// A reader, and why its last read failed, if it did: what reads to the end answers alike where a read failed for
/// memory, and where it got no memory for what was read.
#[derive(Drop)]
pub(crate) struct Watched<R> {
    pub(crate) reader: R,
    pub(crate) failure: Option<ErrorKind>,
}

impl<R: Read> Read for Watched<R> {
    ghost remaining = { λ watched. R.remaining watched.reader };

    fn read(&mut self, buf: &mut [u8]) -> io::Result<usize>
        ensures bound { ReadsAtMost result buf.new }
        ensures bytes { ReadConsumes (R.remaining self.old.reader) (R.remaining self.new.reader) result buf.new }
        ensures failed { is_some self.new.failure ≡ is_err result }
    {
        let read = self.reader.read(buf);
        self.failure = match &read {
            Ok(_) => None,
            Err(error) => Some(error.kind()),
        };
        read
    }
}
