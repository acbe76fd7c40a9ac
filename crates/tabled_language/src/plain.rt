//! Texts that are their own words.

use std::marker::Model;

/// A text that is lent, and is its own word: no tab, newline or backslash stands in it. A contract sees it as its
/// bytes.
///
/// Of this project.
#[derive(Drop)]
pub struct PlainText<'a> {
    text: &'a str,
}

impl<'a> Model for PlainText<'a> {
    ghost use Rattle.std.specs.Prelude.{ℕ, List};
    ghost use Rattle.tabled_language.specs.Output.{IsOwnWord};

    ghost Value = { List ℕ };

    ghost view = { λ a. a.text.now };

    ghost invariant = { λ a. IsOwnWord a.text.now };
}

impl<'a> PlainText<'a> {
    ghost use Rattle.std.specs.Prelude.{◌≡◌};
    ghost use Rattle.tabled_language.specs.Output.{IsOwnWord, escaped};

    pub(crate) fn new(text: &'a str) -> Self
        requires { IsOwnWord text.now }
        ensures { result ≡ text.now }
    {
        PlainText { text }
    }

    /// The text, which is the word that stands for it.
    pub fn as_word(&self) -> &str
        ensures text { result.now ≡ self.now }
        ensures word { result.now ≡ escaped self.now }
    {
        self.text
    }
}
