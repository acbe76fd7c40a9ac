//! How the texts of columns are aligned: by their places, or by what stands in them.

ghost use Rattle.std.specs.Prelude.{◌≡◌, map};
ghost use Rattle.tabled_grid.specs.Grid.{map_grid};
ghost use Rattle.tabled_script.specs.Aligners.{alignment_by, has_below, is_of, rule_in};
ghost use Rattle.tabled_select.specs.Locators.{text_at};

use std::alloc::{AllocError, Global};
use tabled_decimal::Decimal;
use tabled_draw::Alignment;
use tabled_grid::config::Position;
use tabled_grid::records::{CellText, ExactRecords, PeekableRecords, Records};

/// How the texts of columns are aligned.
///
/// Of this project.
#[derive(Drop)]
pub enum Alignments {
    /// By places: the last alignment counts for all columns behind it, and without one texts stand to the left.
    Places(Vec<Alignment>),
    /// By rules: the last one counts that says something of a column. Where none does, texts stand to the left.
    Rules(Vec<AlignmentRule>),
}

/// What says how the texts of some columns are aligned.
///
/// Of this project.
#[derive(Drop)]
pub enum AlignmentRule {
    /// To the right where the texts below the first row are numbers or empty, and not all empty.
    Numbers,
    /// So where the text in the first row is this.
    Name(String, Alignment),
}

/// What a text below the first row is.
#[derive(Clone, Copy)]
pub(crate) enum TextKind {
    Number,
    /// Neither a number nor empty.
    Word,
}

impl Alignments {
    ghost use Rattle.std.specs.Prelude.{◌≡◌, IfOk};
    ghost use Rattle.tabled_grid.specs.Grid.{map_grid};
    ghost use Rattle.tabled_script.specs.Aligners.{aligner};

    /// The alignments of the columns of a store. It may be refused for memory.
    pub(crate) fn of_columns<R>(
        &self,
        alloc: Global,
        records: &R,
    ) -> Result<Vec<Alignment>, AllocError>
    where
        R: Records + ExactRecords + PeekableRecords,
        R::Cell: CellText,
        requires { R.is_well_formed records.now }
        ensures { IfOk result (λ found. found.items ≡ aligner self.now (map_grid R.Cell.text_of (R.grid records.now))) }
    {
        match self {
            Alignments::Places(list) => Vec::from_slice(alloc, list),
            Alignments::Rules(rules) => {
                let mut found = Vec::new(alloc);
                for column in 0..records.count_columns() {
                    found.push(alignment_by(rules, records, column))?;
                }
                Ok(found)
            }
        }
    }
}

/// The alignment of a column by rules.
fn alignment_by<R>(rules: &[AlignmentRule], records: &R, column: usize) -> Alignment
where
    R: Records + ExactRecords + PeekableRecords,
    R::Cell: CellText,
    requires { R.is_well_formed records.now }
    ensures { result ≡ alignment_by (map rule_in rules.now) (map_grid R.Cell.text_of (R.grid records.now)) column }
{
    let mut alignment = Alignment::left();
    for rule in rules {
        alignment = rule.says(records, column).unwrap_or(alignment);
    }
    alignment
}

impl AlignmentRule {
    ghost use Rattle.std.specs.Prelude.{◌≡◌};
    ghost use Rattle.tabled_grid.specs.Grid.{map_grid};
    ghost use Rattle.tabled_script.specs.Aligners.{rule_in};

    /// How a column is aligned, if that is said of it.
    fn says<R>(&self, records: &R, column: usize) -> Option<Alignment>
    where
        R: Records + ExactRecords + PeekableRecords,
        R::Cell: CellText,
        requires { R.is_well_formed records.now }
        ensures { result ≡ rule_in self.now (map_grid R.Cell.text_of (R.grid records.now)) column }
    {
        match self {
            AlignmentRule::Numbers => {
                if !has_below(records, column, TextKind::Word)
                    && has_below(records, column, TextKind::Number)
                {
                    return Some(Alignment::right());
                }
                None
            }
            AlignmentRule::Name(name, alignment) => {
                if text_in(
                    records,
                    Position {
                        row: 0,
                        col: column,
                    },
                ) == name.as_str()
                {
                    return Some(*alignment);
                }
                None
            }
        }
    }
}

/// Says whether a column has a text of a kind below the first row.
fn has_below<R>(records: &R, column: usize, kind: TextKind) -> bool
where
    R: Records + ExactRecords + PeekableRecords,
    R::Cell: CellText,
    requires { R.is_well_formed records.now }
    ensures { result ≡ has_below (is_of kind) (map_grid R.Cell.text_of (R.grid records.now)) column }
{
    for row in 1..records.count_rows() {
        if kind.is_that_of(text_in(records, Position { row, col: column })) {
            return true;
        }
    }
    false
}

/// The text at a place, an empty one outside the table.
fn text_in<R>(records: &R, pos: Position) -> &str
where
    R: Records + ExactRecords + PeekableRecords,
    R::Cell: CellText,
    requires { R.is_well_formed records.now }
    ensures { result.now ≡ text_at (map_grid R.Cell.text_of (R.grid records.now)) pos }
{
    if pos.row >= records.count_rows() {
        return "";
    }
    if pos.col >= records.count_columns() {
        return "";
    }
    records.get_text(pos)
}

impl TextKind {
    ghost use Rattle.std.specs.Prelude.{◌≡◌};
    ghost use Rattle.tabled_script.specs.Aligners.{is_of};

    /// Says whether a text is one of it.
    fn is_that_of(self, text: &str) -> bool
        ensures { result ≡ is_of self text.now }
    {
        let is_number = Decimal::parse(text).is_some();
        match self {
            TextKind::Number => is_number,
            TextKind::Word => !is_number && !text.is_empty(),
        }
    }
}
