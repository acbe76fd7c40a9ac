//! Tables with their rows or columns cut into pieces.

ghost use Rattle.std.specs.Prelude.{◌≡◌, false};
ghost use Rattle.tabled_grid.specs.declared.records.axis.Axis.TheVariants.{Columns, Rows};
ghost use Rattle.tabled_grid.specs.declared.records.piece_order.PieceOrder.TheVariants.{Concat, Zip};
ghost use Rattle.tabled_settings.specs.declared.split.Display.TheVariants.{Clean, Retain};
ghost use Rattle.tabled_settings.specs.PiecePlaces.{SplitsTable};
ghost use Rattle.tabled_settings.specs.Pieces.{has_pieces};
ghost use Rattle.std.proofs.Common.{rules};

use crate::clean_pieces::CleanPieces;
use crate::lines;
use crate::pieces::staying_pieces;
use std::alloc::{AllocError, Global};
use tabled_carry::FittingSpans;
use tabled_grid::config::{Entity, SpannedConfig};
pub use tabled_grid::records::PieceOrder as Behavior;
use tabled_grid::records::{
    Axis, CellText, ExactRecords, LinePieces, PeekableRecords, Records, Resizable, shape_of,
};
use tabled_options::TableOption;

/// Whether pieces without a text stay.
///
/// Ported from the private `Display` of `tabled::settings::split`.
#[derive(Clone, Copy, Debug, PartialEq, Eq)]
pub enum Display {
    /// The first piece of each line stays, and of the others those with a text.
    Clean,
    /// All pieces stay.
    Retain,
}

/// Cuts rows, or columns, into pieces of a length, which become the new rows, or columns.
///
/// The last piece of each is filled up with blank cells. Merged cells stay merged where all of them are kept
/// and form a rectangle again. Where there are no rows or no columns, where the index is 0 and where a line
/// is no longer than the index, it changes nothing and takes no memory. Refused for memory, it leaves the
/// table and its merged cells as they were; so it does where there would be more than `usize::MAX` pieces.
///
/// ```text
/// a b c d e   column(2): a b   concat: a b   row(1): a f b g c h d i e j
/// f g h i j              c d           f g
///                        e             c d
///                        f g           h i
///                        h i           e
///                        j             j
/// ```
///
/// Ported from `tabled::settings::split::Split`.
#[derive(Clone, Copy, Debug)]
pub struct Split {
    /// The lines that are cut: rows, or columns.
    pub lines: Axis,
    pub behavior: Behavior,
    pub display: Display,
    /// The length of a piece.
    pub index: usize,
}

impl Split {
    /// Cuts each row into pieces of n cells, with `zip` and `clean`.
    ///
    /// Ported from `tabled::settings::split::Split::column`.
    pub fn column(index: usize) -> Self
        ensures { result ≡ record { lines = Rows; behavior = Zip; display = Clean; index = index } }
    {
        Split {
            lines: Axis::Rows,
            behavior: Behavior::Zip,
            display: Display::Clean,
            index,
        }
    }

    /// Cuts each column into pieces of n cells, with `zip` and `clean`.
    ///
    /// Ported from `tabled::settings::split::Split::row`.
    pub fn row(index: usize) -> Self
        ensures { result ≡ record { lines = Columns; behavior = Zip; display = Clean; index = index } }
    {
        Split {
            lines: Axis::Columns,
            behavior: Behavior::Zip,
            display: Display::Clean,
            index,
        }
    }

    /// The first pieces of all lines, then the second ones, and so on.
    ///
    /// Ported from `tabled::settings::split::Split::concat`.
    pub fn concat(self) -> Self
        ensures { result ≡ record self { behavior = Concat } }
    {
        Split {
            behavior: Behavior::Concat,
            ..self
        }
    }

    /// The pieces of the first line, then those of the second one, and so on.
    ///
    /// Ported from `tabled::settings::split::Split::zip`.
    pub fn zip(self) -> Self
        ensures { result ≡ record self { behavior = Zip } }
    {
        Split {
            behavior: Behavior::Zip,
            ..self
        }
    }

    /// Drops each piece without a text, but for the first one of each line.
    ///
    /// Ported from `tabled::settings::split::Split::clean`.
    pub fn clean(self) -> Self
        ensures { result ≡ record self { display = Clean } }
    {
        Split {
            display: Display::Clean,
            ..self
        }
    }

    /// Keeps all pieces.
    ///
    /// Ported from `tabled::settings::split::Split::retain`.
    pub fn retain(self) -> Self
        ensures { result ≡ record self { display = Retain } }
    {
        Split {
            display: Display::Retain,
            ..self
        }
    }
}

impl<R, D> TableOption<R, SpannedConfig, D> for Split
where
    R: Records + ExactRecords + PeekableRecords + Resizable,
    R::Cell: CellText,
{
    ghost does = { SplitsTable R.Cell.is_blank R.Cell.text_of };

    ghost never_refused = { λ s g _. has_pieces s g.rows g.columns ≡ false };

    fn change(
        self,
        alloc: Global,
        records: &mut R,
        cfg: &mut SpannedConfig,
        _dimension: &mut D,
    ) -> Result<(), AllocError> {
        let table = shape_of(records);
        let lines = self.lines.count_of(table.height, table.width);
        let across = self.lines.across();
        let width = across.count_of(table.height, table.width);
        if lines == 0 || self.index == 0 || self.index >= width {
            return Ok(());
        }
        let pieces = LinePieces::new(self.lines, self.behavior, self.index, lines, width)?;
        match self.display {
            Display::Clean => {
                let staying = staying_pieces(alloc, records, &pieces)?;
                let clean = CleanPieces { pieces, staying };
                let fitting = FittingSpans::of(alloc, cfg, table)?;
                records.cut(alloc, self.lines, self.behavior, self.index)?;
                lines::keep_some(self.lines, records, &clean.staying);
                fitting.carry_along(alloc, &clean, cfg);
            }
            Display::Retain => {
                let fitting = FittingSpans::of(alloc, cfg, table)?;
                records.cut(alloc, self.lines, self.behavior, self.index)?;
                fitting.carry_along(alloc, &pieces, cfg);
            }
        }
        Ok(())
    }

    fn hint_change(&self) -> Option<Entity> {
        Some(Entity::Global)
    }

    ghost acts_like = { Prim.search rules };
}
