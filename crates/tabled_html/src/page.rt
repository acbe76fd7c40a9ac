//! How a table is written as HTML.

ghost use Rattle.std.specs.Borrow.{Bor};
ghost use Rattle.std.specs.Prelude.{◌≡◌, List, Some, true, ℕ};
ghost use Rattle.std.specs.Option.{option_map};
ghost use Rattle.tabled_html.specs.Looks.{alignment_in, plain_look};

use crate::alignment::Alignment;
use std::marker::Model;

/// How a table is written: its class, how many rows are its header, its caption, how the texts of its columns are aligned,
/// and whether it stands in a page of its own.
///
/// Of this project.
#[derive(Drop)]
pub struct Page<'p> {
    class: Option<&'p str>,
    header: usize,
    caption: Option<&'p str>,
    alignments: &'p [Alignment],
    is_whole: bool,
}

impl<'p> Model for Page<'p> {
    ghost use Rattle.std.specs.Borrow.{Bor};
    ghost use Rattle.std.specs.Option.{option_map};
    ghost use Rattle.std.specs.Prelude.{List, ℕ};
    ghost use Rattle.tabled_html.specs.Looks.{Look};

    ghost Value = { Look };

    ghost view = { λ a. record { class = option_map (λ (text : Bor (List ℕ)). text.now) a.class; header = a.header; caption = option_map (λ (text : Bor (List ℕ)). text.now) a.caption; alignments = a.alignments.now; is_whole = a.is_whole } };
}

impl<'p> Page<'p> {
    /// A table without class, header, caption or alignments, which stands for itself.
    pub fn new() -> Self
        ensures { result ≡ plain_look }
    {
        Page {
            class: None,
            header: 0,
            caption: None,
            alignments: &[],
            is_whole: false,
        }
    }

    /// The table is of a class, or of some, with blanks between them. One that has a `"`, a `&`, a carriage return or U+0000
    /// is not written.
    pub fn class(self, class: &'p str) -> Self
        ensures { result ≡ record self.entry { class = Some class.now } }
    {
        Page {
            class: Some(class),
            ..self
        }
    }

    /// The cells of so many rows are header cells (`<th scope="col">`). These rows are the table's head (`<thead>`), where
    /// there are as many and no merged cell crosses their end.
    pub fn header(self, rows: usize) -> Self
        ensures { result ≡ record self.entry { header = rows } }
    {
        Page {
            header: rows,
            ..self
        }
    }

    /// The table has a caption.
    pub fn caption(self, caption: &'p str) -> Self
        ensures { result ≡ record self.entry { caption = Some caption.now } }
    {
        Page {
            caption: Some(caption),
            ..self
        }
    }

    /// The texts of each column are aligned so; further columns are as the last one.
    pub fn alignments(self, alignments: &'p [Alignment]) -> Self
        ensures { result ≡ record self.entry { alignments = alignments.now } }
    {
        Page { alignments, ..self }
    }

    /// The table stands in a page of its own, with a style.
    pub fn whole(self) -> Self
        ensures { result ≡ record self.entry { is_whole = true } }
    {
        Page {
            is_whole: true,
            ..self
        }
    }

    /// The class.
    pub(crate) fn class_text(&self) -> Option<&'p str>
        ensures { option_map (λ (text : Bor (List ℕ)). text.now) result ≡ self.now.class }
    {
        self.class
    }

    /// How many rows are the header.
    pub(crate) fn header_rows(&self) -> usize
        ensures { result ≡ self.now.header }
    {
        self.header
    }

    /// The caption.
    pub(crate) fn caption_text(&self) -> Option<&'p str>
        ensures { option_map (λ (text : Bor (List ℕ)). text.now) result ≡ self.now.caption }
    {
        self.caption
    }

    /// How the texts of a column are aligned.
    pub(crate) fn alignment(&self, col: usize) -> Option<Alignment>
        ensures { result ≡ alignment_in self.now.alignments col }
    {
        let count = self.alignments.len();
        if count == 0 {
            return None;
        }
        if col < count {
            return Some(self.alignments[col]);
        }
        Some(self.alignments[count - 1])
    }

    /// Says whether the table stands in a page of its own.
    pub(crate) fn is_whole(&self) -> bool
        ensures { result ≡ self.now.is_whole }
    {
        self.is_whole
    }
}
