//! Calls of the script program: what arguments ask for, answered over bytes of one's own.

use std::alloc::Global;
use std::io;
use tabled_script::{Arguments, Refusal, answer};

/// What arguments ask for of CSV, which stands for each file that they name, or the status of why there is nothing.
pub fn answered(alloc: Global, arguments: &[&str], csv: &[u8]) -> Result<Vec<u8>, u8> {
    match whole_answer(alloc, arguments, csv) {
        Ok((0, written)) => Ok(written),
        Ok((status, _)) => Err(status),
        Err(refusal) => Err(refusal.tell(alloc, &mut io::sink())),
    }
}

/// The status of an answer, and what was written.
fn whole_answer(alloc: Global, arguments: &[&str], csv: &[u8]) -> Result<(u8, Vec<u8>), Refusal> {
    let mut taken = Arguments::new(alloc);
    for argument in arguments {
        taken = taken.take(alloc, argument)?;
    }
    let mut request = taken.into_invocation(alloc)?.request;
    for source in &mut request.sources {
        source.bytes.extend_from_slice(csv)?;
    }
    let mut written = Vec::new(alloc);
    let status = answer(alloc, &request, b"", &mut written, &mut io::sink());
    Ok((status, written))
}
