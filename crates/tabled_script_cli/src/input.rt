//! The files that are read.

use std::fs;
use std::io::{ErrorKind, IsTerminal};
use tabled_script::{Failure, Refusal, Unread, read_whole};

/// The bytes of a file, or of standard input where it is called `-`.
pub fn read_file(rt: &HostRuntime, name: &str) -> Result<Vec<u8>, Refusal> {
    let alloc = rt.alloc();
    let read = if name == "-" {
        read_whole(alloc, &mut rt.reader())
    } else {
        match fs::open(rt, name) {
            Ok(mut file) => read_whole(alloc, &mut file),
            Err(error) if error.kind() == ErrorKind::OutOfMemory => Err(Unread::OutOfMemory),
            Err(error) => Err(Unread::Failed(error.kind())),
        }
    };
    match read {
        Ok(bytes) => Ok(bytes),
        Err(Unread::OutOfMemory) => Err(Refusal::OutOfMemory),
        Err(Unread::Failed(kind)) => {
            let name = String::from_str(alloc, name)?;
            Err(Refusal::Failed(name, Failure::of(kind)))
        }
    }
}

/// The bytes of a script. With steps a terminal has an empty one.
pub fn read_script(rt: &HostRuntime, name: &str, has_steps: bool) -> Result<Vec<u8>, Refusal> {
    if name != "-" || !rt.stdin().is_terminal() {
        return read_file(rt, name);
    }
    if has_steps {
        return Ok(Vec::new(rt.alloc()));
    }
    Err(Refusal::Terminal)
}
