//! The words after `shape` and `span`.

use crate::fault::Fault;
use crate::words::{Read, Words};
use tabled_grid::config::{Position, Rectangle, Size};

impl<'a> Words<'a> {
    ghost use Rattle.std.specs.Prelude.{IfOk};
    ghost use Rattle.tabled_grid.specs.Spans.{IsSpan};
    ghost use Rattle.tabled_language.specs.Parsing.{Reads};
    ghost use Rattle.tabled_language.specs.Sizes.{reads_anchor, reads_shape, reads_span_size};

    /// How many rows and how many columns.
    pub(crate) fn shape(&mut self) -> Read<(usize, usize)>
        ensures { Reads (λ shape. shape) reads_shape self.old result self.new }
    {
        let rows = self.length()?;
        let columns = self.length()?;
        Ok((rows, columns))
    }

    /// A row and a column, and then a height and a width.
    pub(crate) fn anchor(&mut self) -> Read<Rectangle>
        ensures read { Reads (λ anchor. anchor) reads_anchor self.old result self.new }
        ensures size { IfOk result (λ anchor. IsSpan anchor.size) }
    {
        let row = self.length()?;
        let column = self.length()?;
        let first = Position::new(row, column);
        let size = self.span_size()?;
        Ok(Rectangle { first, size })
    }

    /// A height and a width of more than one cell.
    fn span_size(&mut self) -> Read<Size>
        ensures read { Reads (λ size. size) reads_span_size self.old result self.new }
        ensures size { IfOk result IsSpan }
    {
        let height = self.positive_length()?;
        let width = self.positive_length()?;
        let size = Size { height, width };
        if size.is_cell() {
            return Err(Fault::NumberRange.into());
        }
        Ok(size)
    }
}
