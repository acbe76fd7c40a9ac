//! Kinds of characters, by their bytes.

ghost use Rattle.std.specs.Prelude.{◌≡◌, IsTrue, ◌<◌};
ghost use Rattle.tabled_html_reading.specs.Characters.{hexadecimal_value, is_blank, is_digit, is_hexadecimal, is_letter, lowercase};

/// Says whether a byte is a digit.
pub(crate) fn is_digit(byte: u8) -> bool
    ensures { result ≡ is_digit byte }
{
    48 <= byte && byte <= 57
}

/// Says whether a byte is a letter.
pub(crate) fn is_letter(byte: u8) -> bool
    ensures { result ≡ is_letter byte }
{
    65 <= byte && byte <= 90 || 97 <= byte && byte <= 122
}

/// Says whether a byte is white space.
pub(crate) fn is_blank(byte: u8) -> bool
    ensures { result ≡ is_blank byte }
{
    byte == 9 || byte == 10 || byte == 12 || byte == 32
}

/// A capital as the small letter that it is read as.
pub(crate) fn lowercase(byte: u8) -> u8
    ensures { result ≡ lowercase byte }
{
    if 65 <= byte && byte <= 90 {
        return byte + 32;
    }
    byte
}

/// Says whether a byte is a hexadecimal digit.
pub(crate) fn is_hexadecimal(byte: u8) -> bool
    ensures { result ≡ is_hexadecimal byte }
{
    is_digit(byte) || 65 <= byte && byte <= 70 || 97 <= byte && byte <= 102
}

/// What a hexadecimal digit counts.
pub(crate) fn hexadecimal_value(byte: u8) -> u32
    requires { IsTrue (is_hexadecimal byte) }
    ensures value { result ≡ hexadecimal_value byte }
    ensures few { result < 16 }
{
    if is_digit(byte) {
        return (byte - 48) as u32;
    }
    if 65 <= byte && byte <= 70 {
        return (byte - 55) as u32;
    }
    (byte - 87) as u32
}
