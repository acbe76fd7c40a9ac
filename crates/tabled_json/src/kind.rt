//! What holds other values, and its brackets.

ghost use Rattle.std.specs.Prelude.{◌≡◌};
ghost use Rattle.tabled_json.specs.Grammar.{closing, opening};

/// What holds others.
#[derive(Clone, Copy, Debug, PartialEq, Eq)]
pub(crate) enum Kind {
    Array,
    Object,
}

/// The byte that opens it.
pub(crate) fn opening(kind: Kind) -> u8
    ensures { result ≡ opening kind }
{
    match kind {
        Kind::Array => b'[',
        Kind::Object => b'{',
    }
}

/// The byte that closes it.
pub(crate) fn closing(kind: Kind) -> u8
    ensures { result ≡ closing kind }
{
    match kind {
        Kind::Array => b']',
        Kind::Object => b'}',
    }
}
