//! How the lines of texts are aligned.

ghost use Rattle.std.specs.Prelude.{◌≡◌};
ghost use Rattle.tabled_draw.specs.Alignments.{alignment_in, indent};
ghost use Rattle.tabled_draw.specs.declared.alignment.Alignment.TheVariants as alignment;

/// Where the lines of a cell's text stand in the room between its borders.
///
/// Ported from `tabled::settings::Alignment`, of which it has the horizontal ones.
#[derive(Clone, Copy, Debug, PartialEq, Eq)]
pub enum Alignment {
    Left,
    /// In the middle, or one column before it.
    Center,
    Right,
}

impl Alignment {
    /// To the left.
    ///
    /// Ported from `tabled::settings::Alignment::left`.
    pub fn left() -> Self
        ensures { result ≡ alignment.Left }
    {
        Alignment::Left
    }

    /// In the middle, or one column before it.
    ///
    /// Ported from `tabled::settings::Alignment::center`.
    pub fn center() -> Self
        ensures { result ≡ alignment.Center }
    {
        Alignment::Center
    }

    /// To the right.
    ///
    /// Ported from `tabled::settings::Alignment::right`.
    pub fn right() -> Self
        ensures { result ≡ alignment.Right }
    {
        Alignment::Right
    }
}

/// The alignment in a column: that of its place in the list, or the last one, or to the left if there is none.
#[inline(always)]
pub(crate) fn alignment_in(alignments: &[Alignment], j: usize) -> Alignment
    ensures { result ≡ alignment_in alignments.now j }
{
    if j < alignments.len() {
        return alignments[j];
    }
    match alignments.last() {
        Some(alignment) => *alignment,
        None => Alignment::Left,
    }
}

/// How many of some columns that are left stand before a line.
#[inline(always)]
pub(crate) fn indent(alignment: Alignment, free: usize) -> usize
    ensures { result ≡ indent alignment free }
{
    match alignment {
        Alignment::Left => 0,
        Alignment::Center => free / 2,
        Alignment::Right => free,
    }
}
