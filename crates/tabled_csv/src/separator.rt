//! What parts the fields of a record.

use std::marker::Model;

/// A byte that parts fields: one of ASCII that is no quote and has no part in the end of a line. A contract sees it as
/// its byte.
///
/// Of this project.
#[derive(Clone, Copy, Debug, PartialEq, Eq)]
pub struct Separator {
    byte: u8,
}

impl Model for Separator {
    ghost use Rattle.std.specs.Prelude.{ℕ};
    ghost use Rattle.tabled_csv.specs.Grammar.{IsSeparator};

    ghost Value = { ℕ };

    ghost view = { λ a. a.byte };

    ghost invariant = { λ a. IsSeparator a.byte };

    ghost inverse = { λ byte. record { byte = byte } };
}

impl Separator {
    ghost use Rattle.std.specs.Prelude.{◌≡◌, MatchOption};
    ghost use Rattle.tabled_csv.specs.Grammar.{IsSeparator};

    /// A comma.
    pub fn comma() -> Self
        ensures { result ≡ 44 }
    {
        Separator { byte: b',' }
    }

    /// A byte as a separator, if it may be one.
    pub fn new(byte: u8) -> Option<Self>
        ensures { MatchOption result (IsSeparator byte → ⊥) (λ separator. separator ≡ byte) }
    {
        if !byte.is_ascii() || matches!(byte, b'"' | b'\n' | b'\r') {
            return None;
        }
        Some(Separator { byte })
    }

    /// The byte.
    pub fn byte(self) -> u8
        ensures byte { result ≡ self }
        ensures well { IsSeparator self }
    {
        self.byte
    }
}
