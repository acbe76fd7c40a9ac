//! HTML for which memory is refused. `.ci/test_refusals` runs this test, and refuses each allocation in turn.

use std::alloc::{AllocError, Global};
use std::io::{self, Write};
use tabled_html::{Page, WriteError, write_with};
use tabled_testing::{flat, merged};

/// A writer that counts the bytes that it takes, and has no memory of its own.
#[derive(Drop)]
struct Count {
    bytes: usize,
}

impl Write for Count {
    fn write(&mut self, buf: &[u8]) -> io::Result<usize> {
        self.bytes = self.bytes.saturating_add(buf.len());
        Ok(buf.len())
    }

    fn flush(&mut self) -> io::Result<()> {
        Ok(())
    }
}

/// The HTML of the table that is written.
const WHOLE: &str = "<table>
<caption>C</caption>
<tbody>
<tr><th rowspan=\"2\" scope=\"col\">a</th><th scope=\"col\">b</th></tr>
<tr><td>d</td></tr>
<tr><td colspan=\"2\">e</td></tr>
</tbody>
</table>
";

/// Writes a table, and says whether all of it was written, or nothing where memory is refused.
fn writes_all_or_nothing(alloc: Global) -> Result<bool, AllocError> {
    let records = flat(alloc, "a b / c d / e f /")?;
    let cfg = merged(alloc, "0.0:2x1 2.0:1x2")?;
    let mut writer = Count { bytes: 0 };
    let page = Page::new().header(1).caption("C");
    Ok(
        match write_with(alloc, &mut writer, &records, &cfg, &page) {
            Ok(()) => writer.bytes == WHOLE.len(),
            Err(WriteError::OutOfMemory) => writer.bytes == 0,
            Err(WriteError::Failed(_)) => false,
        },
    )
}

#[test]
fn is_written_whole_or_not_at_all_at_a_refusal(rt: HostRuntime) {
    // Where the table itself is refused, there is nothing to write.
    assert!(rt; writes_all_or_nothing(rt.alloc()) != Ok(false));
}
