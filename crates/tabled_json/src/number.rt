//! Numbers, as they are written.

ghost use Rattle.std.specs.Prelude.{◌≡◌, ◌++◌, ◌≤◌, length, take, drop};
ghost use Rattle.tabled_json.specs.Numbers.{are_decimals, are_digits, behind_digits, behind_numerals, behind_sign, is_digit, is_exponent, is_fraction, is_number, is_numeric, is_unsigned, numerals};

/// Whether a byte is a digit.
#[inline(always)]
fn is_digit(byte: u8) -> bool
    ensures { result ≡ is_digit byte }
{
    48 <= byte && byte <= 57
}

/// The bytes behind digits.
fn behind_digits(bytes: &[u8]) -> &[u8]
    ensures { result.now ≡ behind_digits bytes.now }
{
    let mut rest = bytes;
    'digits: while let Some((first, behind)) = rest.split_first() {
        if !is_digit(*first) {
            return rest;
        }
        rest = behind;
    }
    rest
}

/// Whether bytes are digits, at least one.
fn are_digits(bytes: &[u8]) -> bool
    ensures { result ≡ are_digits bytes.now }
{
    match bytes.split_first() {
        Some((first, behind)) => is_digit(*first) && behind_digits(behind).is_empty(),
        None => false,
    }
}

/// The bytes behind a sign, if they begin with one.
fn behind_sign(bytes: &[u8]) -> &[u8]
    ensures { result.now ≡ behind_sign bytes.now }
{
    match bytes.split_first() {
        Some((first, behind)) => {
            if *first == b'+' || *first == b'-' {
                behind
            } else {
                bytes
            }
        }
        None => bytes,
    }
}

/// Whether bytes are an exponent, or nothing.
fn is_exponent(bytes: &[u8]) -> bool
    ensures { result ≡ is_exponent bytes.now }
{
    match bytes.split_first() {
        Some((first, behind)) => {
            (*first == b'E' || *first == b'e') && are_digits(behind_sign(behind))
        }
        None => true,
    }
}

/// Whether bytes are the digits of a fraction, and an exponent or nothing.
fn are_decimals(bytes: &[u8]) -> bool
    ensures { result ≡ are_decimals bytes.now }
{
    match bytes.split_first() {
        Some((first, behind)) => is_digit(*first) && is_exponent(behind_digits(behind)),
        None => false,
    }
}

/// Whether bytes are a fraction and an exponent, or one of them, or nothing.
fn is_fraction(bytes: &[u8]) -> bool
    ensures { result ≡ is_fraction bytes.now }
{
    match bytes.split_first() {
        Some((first, behind)) => {
            if *first == b'.' {
                are_decimals(behind)
            } else {
                is_exponent(bytes)
            }
        }
        None => true,
    }
}

/// Whether bytes are a number with no sign.
fn is_unsigned(bytes: &[u8]) -> bool
    ensures { result ≡ is_unsigned bytes.now }
{
    match bytes.split_first() {
        Some((first, behind)) => {
            if *first == b'0' {
                is_fraction(behind)
            } else {
                is_digit(*first) && is_fraction(behind_digits(behind))
            }
        }
        None => false,
    }
}

/// Whether bytes are a number.
pub(crate) fn is_number(bytes: &[u8]) -> bool
    ensures { result ≡ is_number bytes.now }
{
    match bytes.split_first() {
        Some((first, behind)) => {
            if *first == b'-' {
                is_unsigned(behind)
            } else {
                is_unsigned(bytes)
            }
        }
        None => false,
    }
}

/// Whether a byte may stand in a number.
#[inline(always)]
pub(crate) fn is_numeric(byte: u8) -> bool
    ensures { result ≡ is_numeric byte }
{
    is_digit(byte) || byte == b'-' || byte == b'+' || byte == b'.' || byte == b'e' || byte == b'E'
}

/// The bytes behind those that may stand in a number.
fn behind_numerals(bytes: &[u8]) -> &[u8]
    ensures after { result.now ≡ behind_numerals bytes.now }
    ensures text { bytes.now ≡ numerals bytes.now ++ result.now }
{
    let mut rest = bytes;
    'numerals: while let Some((first, behind)) = rest.split_first() {
        if !is_numeric(*first) {
            return rest;
        }
        rest = behind;
    }
    rest
}

/// How many bytes at the front may stand in a number.
pub(crate) fn numeric_len(bytes: &[u8]) -> usize
    ensures inside { result ≤ length bytes.now }
    ensures text { take result bytes.now ≡ numerals bytes.now }
    ensures after { drop result bytes.now ≡ behind_numerals bytes.now }
{
    bytes.len() - behind_numerals(bytes).len()
}
