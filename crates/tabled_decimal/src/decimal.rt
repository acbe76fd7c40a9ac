//! A decimal number, as it stands in a text.

ghost use Rattle.std.specs.Prelude.{◌≡◌, IsTrue};
ghost use Rattle.std.specs.Char.{is_ascii_digit};
ghost use Rattle.std.specs.List.{after_first, before_first, list_all};
ghost use Rattle.std.specs.Str.Parse.{starts_with_minus, without_leading_sign};
ghost use Rattle.tabled_decimal.specs.Numbers.{is_point};

/// A decimal number, as it stands in a text: a view of the text, of any length. Decimal numbers are compared as the
/// numbers that they are, exactly: `1.50` and `1.5` are equal, and so are `-0` and `.0`.
///
/// Of this project.
#[derive(Clone, Copy)]
pub struct Decimal<'a> {
    pub(crate) negative: bool,
    /// The digits before the point.
    pub(crate) whole: &'a [u8],
    /// The digits behind it.
    pub(crate) fraction: &'a [u8],
    ghost whole_digits: { IsTrue (list_all is_ascii_digit whole.now) },
    ghost fraction_digits: { IsTrue (list_all is_ascii_digit fraction.now) },
}

/// Whether a text has a minus, and what stands behind its sign, if it has one.
pub(crate) fn cut_sign(text: &[u8]) -> (bool, &[u8])
    ensures sign { result.0 ≡ starts_with_minus text.now }
    ensures rest { result.1.now ≡ without_leading_sign text.now }
{
    match text {
        [b'-', rest @ ..] => (true, rest),
        [b'+', rest @ ..] => (false, rest),
        _ => (false, text),
    }
}

/// What stands before the first point and behind it.
pub(crate) fn cut_point(text: &[u8]) -> (&[u8], &[u8])
    ensures before { result.0.now ≡ before_first is_point text.now }
    ensures behind { result.1.now ≡ after_first is_point text.now }
{
    for (index, byte) in text.iter().enumerate() {
        if *byte == b'.' {
            return (&text[..index], &text[index + 1..]);
        }
    }
    (text, &[])
}

/// Whether a text consists of digits alone.
pub(crate) fn is_digits(text: &[u8]) -> bool
    ensures { result ≡ list_all is_ascii_digit text.now }
{
    text.iter().all(|byte| byte.is_ascii_digit())
}
