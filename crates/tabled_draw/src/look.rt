//! How a picture looks.

ghost use Rattle.std.specs.Prelude.{◌≡◌, []};
ghost use Rattle.tabled_draw.specs.declared.style.TheConstants.Style as style;

use crate::alignment::Alignment;
use crate::style::Style;

/// How a picture looks: the style of its borders, and how texts are aligned.
///
/// Of this project.
#[derive(Clone, Copy, Debug)]
pub struct Look<'a> {
    pub style: Style,
    /// How texts are aligned, by the column in which their cells begin: the last one counts for all columns behind it,
    /// and where there is none, texts stand to the left.
    pub alignments: &'a [Alignment],
}

impl<'a> Look<'a> {
    /// A style, and texts to the left.
    pub fn new(style: Style) -> Self
        ensures style { result.style ≡ style }
        ensures alignments { result.alignments.now ≡ [] }
    {
        Look {
            style,
            alignments: &[],
        }
    }

    /// This style with alignments, by column, of which the last one counts for all columns behind it.
    pub fn align(self, alignments: &'a [Alignment]) -> Self
        ensures style { result.style ≡ self.entry.style }
        ensures alignments { result.alignments.now ≡ alignments.now }
    {
        Look {
            style: self.style,
            alignments,
        }
    }
}

impl Default for Look<'_> {
    ghost is_default = { λ look. (look.style ≡ style.ASCII) × (look.alignments.now ≡ []) };

    fn default() -> Self {
        Look::new(Style::ascii())
    }
}
