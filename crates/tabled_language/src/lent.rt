//! Texts that are lent, or their own.

ghost use Rattle.std.specs.Prelude.{◌≡◌, []};
ghost use Rattle.tabled_language.specs.Lent.{bytes_of};

use crate::plain::PlainText;
use crate::short::ShortText;
use std::alloc::{AllocError, Global};
use tabled_grid::records::{Blank, CellText, FromText};

/// A text that stands in the bytes of a script, one that is lent by anything else, one that stands in the cell, or one
/// that has memory of its own. All are cells.
///
/// Of this project.
#[derive(Drop)]
pub enum LentText<'a> {
    Lent(PlainText<'a>),
    Str(&'a str),
    Short(ShortText),
    Own(Box<String>),
}

impl<'a> LentText<'a> {
    ghost use Rattle.std.specs.Prelude.{◌≡◌, IfSome};
    ghost use Rattle.std.specs.Option.{option_map};
    ghost use Rattle.tabled_language.specs.Lent.{bytes_of, lent_word};
    ghost use Rattle.tabled_language.specs.Output.{escaped};

    /// The word that stands for the text, if it is the text itself and this is known without a look at its bytes.
    pub fn as_word(&self) -> Option<&str>
        ensures lent { option_map (λ word. word.now) result ≡ lent_word self.now }
        ensures text { IfSome result (λ word. word.now ≡ bytes_of self.now) }
        ensures word { IfSome result (λ word. word.now ≡ escaped (bytes_of self.now)) }
    {
        match self {
            LentText::Lent(text) => Some(text.as_word()),
            LentText::Str(_) => None,
            LentText::Short(_) => None,
            LentText::Own(_) => None,
        }
    }
}

impl<'a> From<&'a str> for LentText<'a> {
    ghost use Rattle.std.specs.Prelude.{◌≡◌};
    ghost use Rattle.tabled_language.specs.Lent.{bytes_of};

    ghost from_gives = { λ text lent. bytes_of lent ≡ text.now };

    fn from(text: &'a str) -> LentText<'a> {
        LentText::Str(text)
    }
}

impl<'a> Blank for LentText<'a> {
    ghost is_blank = { λ text. bytes_of text ≡ [] };

    fn blank(_alloc: Global) -> Self {
        LentText::Lent(PlainText::new(""))
    }
}

impl<'a> CellText for LentText<'a> {
    ghost text_of = { bytes_of };

    ghost blank_is_empty = { λ text h. h };

    fn text(&self) -> &str {
        match self {
            LentText::Lent(text) => text.as_word(),
            LentText::Str(text) => text,
            LentText::Short(text) => text.as_str(),
            LentText::Own(text) => text.as_str(),
        }
    }
}

impl<'a> FromText for LentText<'a> {
    fn from_string(alloc: Global, text: String) -> Result<Self, AllocError> {
        match ShortText::new(text.as_str()) {
            Some(short) => Ok(LentText::Short(short)),
            None => Ok(LentText::Own(Box::new(alloc, text)?)),
        }
    }

    fn from_text(alloc: Global, text: &str) -> Result<Self, AllocError> {
        match ShortText::new(text) {
            Some(short) => Ok(LentText::Short(short)),
            None => Ok(LentText::Own(Box::new(alloc, String::from_str(alloc, text)?)?)),
        }
    }
}
