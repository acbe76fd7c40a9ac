//! How the records of CSV stand in bytes.

use crate::separator::Separator;
use std::marker::Model;

/// What parts the fields of a record, and whether a field may stand between quotes. A contract sees both.
///
/// Of this project.
#[derive(Clone, Copy, Debug, PartialEq, Eq)]
pub struct Dialect {
    separator: Separator,
    quoting: bool,
}

impl Model for Dialect {
    ghost use Rattle.tabled_csv.specs.Grammar.{Dialect};

    ghost Value = { Dialect };

    ghost view = { λ a. record { separator = a.separator; quoting = a.quoting } };

    ghost inverse = { λ dialect. record { separator = dialect.separator; quoting = dialect.quoting } };
}

impl Dialect {
    ghost use Rattle.std.specs.Prelude.{◌≡◌};
    ghost use Rattle.tabled_csv.specs.Grammar.{IsSeparator, with_quotes};

    /// A separator, and fields that may stand between quotes.
    ///
    /// Of this project.
    pub fn new(separator: Separator) -> Self
        ensures { result ≡ with_quotes separator }
    {
        Dialect {
            separator,
            quoting: true,
        }
    }

    /// The same with fields that may stand between quotes or, for `false`, with quotes that are bytes like others.
    ///
    /// Of this project.
    pub fn quoting(self, quoting: bool) -> Self
        ensures separator { result.separator ≡ self.separator }
        ensures quoting { result.quoting ≡ quoting }
    {
        Dialect {
            separator: self.separator,
            quoting,
        }
    }

    /// The separator's byte.
    #[inline(always)]
    pub(crate) fn separator(self) -> u8
        ensures byte { result ≡ self.separator }
        ensures well { IsSeparator self.separator }
    {
        self.separator.byte()
    }

    /// Whether a field may stand between quotes.
    #[inline(always)]
    pub(crate) fn is_quoting(self) -> bool
        ensures { result ≡ self.quoting }
    {
        self.quoting
    }
}
