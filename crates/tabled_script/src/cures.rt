//! Likely cures of faults in files.

use tabled_json::Fault;

/// What is likely to be written in place of what is wrong with JSON.
pub(crate) fn cure_of_json(fault: Fault) -> &'static str {
    match fault {
        Fault::NotUtf8 => "'iconv -f LATIN1 -t UTF-8' makes it of Latin-1",
        Fault::Ended => "a bracket is not closed",
        Fault::NoObject => {
            "records are objects, as {\"key\": 1}, and rows are arrays in one array, as [[1, 2]]"
        }
        Fault::NoArray => "rows are arrays, each of them, as [[1, 2], [3]]",
        Fault::Comma => "leave it out",
        Fault::Closing => "leave it out, or the comma before it, or write what is missing there",
        Fault::SingleQuote => "write \" in its place",
        Fault::Comment => "leave it out",
        Fault::NoWord => {
            "texts and keys stand in double quotes, and NaN and None are written null, True true"
        }
        Fault::Unexpected => "a comma, a colon or a bracket may be missing before it",
        Fault::BadNumber => "write 1 for 01 and +1, 0.5 for .5, and 1.0 for 1.",
        Fault::Unclosed => "write \" behind it",
        Fault::Control => "write \\n for the end of a line, and \\t for a tab",
        Fault::BadUnicode => {
            "write four hexadecimal digits, and both halves of a pair, as \\ud83d\\ude00"
        }
        Fault::BadEscape => "write \\\\ for a backslash",
    }
}
