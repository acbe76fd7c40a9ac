//! Words of lines, as a pen writes them.

ghost use Rattle.std.specs.Fmt.{decimal};
ghost use Rattle.std.specs.Prelude.{◌≡◌, ◌∷◌, IfSome, IsTrue, IsUtf8, map};
ghost use Rattle.tabled_held.specs.Pens.{Sends};
ghost use Rattle.tabled_language.specs.Output.{escaped, escaped_byte, line};

use std::io::Write;
use tabled_grid::records::CellText;
use tabled_held::Pen;
use tabled_language::LentText;

/// A cell of which the word that stands for its text in a script may be known without a look at its bytes.
pub(crate) trait KnownWord: CellText {
    /// This word, which is the text itself.
    fn known_word(&self) -> Option<&str>
        ensures text { IfSome result (λ word. word.now ≡ Self.text_of self.now) }
        ensures word { IfSome result (λ word. word.now ≡ escaped (Self.text_of self.now)) };
}

impl<'a> KnownWord for LentText<'a> {
    fn known_word(&self) -> Option<&str> {
        self.as_word()
    }
}

impl<'a> KnownWord for &'a str {
    fn known_word(&self) -> Option<&str> {
        None
    }
}

/// Writes the line of a name and numbers.
pub(crate) fn write_numbers<W: Write>(pen: &mut Pen<'_, W>, name: &str, numbers: &[usize])
    requires { escaped name.now ≡ name.now }
    ensures { Sends W.contents pen.old pen.new (line (name.now ∷ map decimal numbers.now)) }
{
    pen.send(name.as_bytes());
    for number in numbers {
        write_number(pen, *number);
    }
    pen.send_byte(b'\n');
}

/// Writes a tab, and a number.
#[inline(always)]
fn write_number<W: Write>(pen: &mut Pen<'_, W>, number: usize)
    ensures { Sends W.contents pen.old pen.new (9 ∷ decimal number) }
{
    // Most numbers of merged cells are small.
    if number < 10 {
        pen.send_behind(b'\t', &[b'0' + number as u8]);
        return;
    }
    pen.send_byte(b'\t');
    pen.send_number(number);
}

/// Writes a tab, and the word that stands for a text.
#[inline(always)]
pub(crate) fn write_word<T: KnownWord, W: Write>(pen: &mut Pen<'_, W>, text: &T)
    ensures word { Sends W.contents pen.old pen.new (9 ∷ escaped (T.text_of text.now)) }
    ensures text { IsUtf8 (T.text_of text.now) }
{
    match text.known_word() {
        Some(word) => send_word(pen, word),
        None => write_other_word(pen, text),
    }
}

/// Sends a tab, and a word.
#[inline(always)]
fn send_word<W: Write>(pen: &mut Pen<'_, W>, word: &str)
    ensures { Sends W.contents pen.old pen.new (9 ∷ word.now) }
{
    // Tables of many cells have many empty ones.
    if word.is_empty() {
        pen.send_byte(b'\t');
        return;
    }
    pen.send_behind(b'\t', word.as_bytes());
}

/// Writes a tab, and the word that stands for a text of which no word is known.
// A call of its own leaves one test of a text's kind to `write_word`.
#[inline(never)]
fn write_other_word<T: KnownWord, W: Write>(pen: &mut Pen<'_, W>, text: &T)
    ensures word { Sends W.contents pen.old pen.new (9 ∷ escaped (T.text_of text.now)) }
    ensures text { IsUtf8 (T.text_of text.now) }
{
    write_escaped(pen, text.text());
}

/// Writes a tab, and the word that stands for a text whose bytes are looked at first.
#[inline(always)]
fn write_escaped<W: Write>(pen: &mut Pen<'_, W>, text: &str)
    ensures { Sends W.contents pen.old pen.new (9 ∷ escaped text.now) }
{
    let bytes = text.as_bytes();
    // Few texts have a byte to escape, and the others are copied whole.
    if is_plain(bytes) {
        pen.send_behind(b'\t', bytes);
    } else {
        write_each(pen, bytes);
    }
}

/// Writes a tab, and the word that stands for bytes, byte by byte.
// A call of its own keeps `write_escaped` small.
#[inline(never)]
fn write_each<W: Write>(pen: &mut Pen<'_, W>, bytes: &[u8])
    ensures { Sends W.contents pen.old pen.new (9 ∷ escaped bytes.now) }
{
    pen.send_byte(b'\t');
    for byte in bytes {
        write_escaped_byte(pen, *byte);
    }
}

/// Writes a byte as it stands in a word.
fn write_escaped_byte<W: Write>(pen: &mut Pen<'_, W>, byte: u8)
    ensures { Sends W.contents pen.old pen.new (escaped_byte byte) }
{
    match byte {
        b'\t' => pen.send(b"\\t"),
        b'\n' => pen.send(b"\\n"),
        b'\\' => pen.send(b"\\\\"),
        _ => pen.send_byte(byte),
    }
}

/// Says whether a text is a word as it is.
#[inline(always)]
fn is_plain(text: &[u8]) -> bool
    ensures { IsTrue result → escaped text.now ≡ text.now }
{
    let mut rest = text;
    // A loop of eight steps is written out by the compiler, which takes half of the time.
    while 8 <= rest.len() {
        let (part, others) = rest.split_at(8);
        if !is_plain_part(part) {
            return false;
        }
        rest = others;
    }
    is_plain_part(rest)
}

/// Says whether a text is a word as it is, byte by byte.
fn is_plain_part(text: &[u8]) -> bool
    ensures { IsTrue result → escaped text.now ≡ text.now }
{
    for byte in text {
        // Small letters, and all that is no ASCII, lie after the backslash: one comparison passes them.
        if *byte <= b'\\' && matches!(*byte, b'\t' | b'\n' | b'\\') {
            return false;
        }
    }
    true
}
