//! Where the table goes.

ghost use Rattle.std.specs.Prelude.{◌≤◌, IfOk, length};

use std::fs::{self, File};
use std::io::{self, ErrorKind, Write};
use tabled_script::{Failure, Refusal, tell_status};

/// Standard output, or a file that is made once something is written, so that what goes wrong before leaves it as it was.
#[derive(Drop)]
pub struct Output<'a> {
    rt: &'a HostRuntime,
    place: Place<'a>,
    /// Why the last call failed, if it did.
    failure: Option<ErrorKind>,
}

/// What is written to.
#[derive(Drop)]
enum Place<'a> {
    Standard,
    Unmade(&'a str),
    Made(&'a str, File),
}

impl<'a> Output<'a> {
    pub fn standard(rt: &'a HostRuntime) -> Self {
        Output {
            rt,
            place: Place::Standard,
            failure: None,
        }
    }

    /// The file of a name, or standard output where it is called `-`.
    pub fn file(rt: &'a HostRuntime, name: &'a str) -> Self {
        if name == "-" {
            return Output::standard(rt);
        }
        Output {
            rt,
            place: Place::Unmade(name),
            failure: None,
        }
    }

    /// Tells why writing failed, if it did, and answers the status. A reader that wants no more is no failure.
    pub fn close<E: Write>(self, status: u8, errors: &mut E) -> u8 {
        match (self.failure, self.place) {
            (None, _) => status,
            (Some(ErrorKind::BrokenPipe), _) => 0,
            (Some(_), Place::Standard) => {
                tell_status(status, errors);
                status
            }
            (Some(kind), Place::Unmade(name) | Place::Made(name, _)) => {
                match String::from_str(self.rt.alloc(), name) {
                    Ok(name) => Refusal::Failed(name, Failure::of(kind)).tell(
                        self.rt.alloc(),
                        errors,
                    ),
                    Err(_) => status,
                }
            }
        }
    }

    /// Makes the file, unless it is made.
    fn make(&mut self) -> io::Result<()> {
        if let Place::Unmade(name) = self.place {
            self.place = Place::Made(name, fs::create(self.rt, name)?);
        }
        Ok(())
    }

    /// Writes some of the bytes, where the file is made now at the latest.
    fn write_some(&mut self, bytes: &[u8]) -> io::Result<usize>
        ensures { IfOk result (λ many. many ≤ length bytes.now) }
    {
        self.make()?;
        match &mut self.place {
            Place::Made(_, file) => file.write(bytes),
            _ => io::writer(self.rt).write(bytes),
        }
    }
}

impl Write for Output<'_> {
    fn write(&mut self, bytes: &[u8]) -> io::Result<usize> {
        let written = self.write_some(bytes);
        self.failure = match &written {
            Ok(_) => None,
            Err(error) => Some(error.kind()),
        };
        written
    }

    fn flush(&mut self) -> io::Result<()> {
        let made = self.make();
        if let Err(error) = &made {
            self.failure = Some(error.kind());
        }
        made
    }
}
