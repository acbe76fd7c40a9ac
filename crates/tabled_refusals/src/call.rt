//! The calls.

use std::alloc::{AllocError, Global};
use tabled_grid::config::{Position, SpannedConfig};
use tabled_grid::records::{
    CellText, ExactRecords, PeekableRecords, Records, RecordsMut, Resizable,
};
use tabled_options::{Modify, OptionSlice, Settings, TableOption, TextRef};
use tabled_select::location::Locator;
use tabled_select::object::{Cell, Columns, Object, Rows, Segment};
use tabled_settings::duplicate::Dup;
use tabled_settings::format::Format;
use tabled_settings::formatting::Charset;
use tabled_settings::rotate::Rotate;
use tabled_settings::split::Split;
use tabled_spans::panel::Panel;
use tabled_spans::span::Span;
use tabled_steps::{Step, run};

/// A call. `Run`, `Both` and `List` do the steps that they are handed.
#[derive(Clone, Copy)]
pub(crate) enum Call {
    /// The steps by `run`.
    Run,
    /// Two steps as one, by `run`.
    Both,
    /// The steps as a list of options.
    List,
    /// Rows cut into pieces of one cell, and then columns into pieces of three, as a slice of options.
    Slice,
    /// A text on the first row and a turn to the left, as one option.
    Settings,
    /// Two texts, one after another, on each row.
    Modify,
    /// A span of two columns on each row.
    Spans,
    /// `!` behind each text.
    Content,
    /// Row and column behind each text.
    Positioned,
    /// `!` behind each line of the texts of the first row.
    Multiline,
    /// The vertical panel `A_wide_panel` before the second column, which is cut to three columns.
    VerticalPanel,
    /// The texts of the first row below it.
    Duplicate,
    /// The first column without control characters, with two blanks for a tab.
    Charset,
    /// A text without its control characters in the first cell.
    CharsetClean,
    /// `x` on cells of the text `a`.
    ByContent,
    /// `x` on the columns named `b`.
    ByColumnName,
    /// `x` on cells without text.
    ByCondition,
    /// `x` on the first cell of the longest text.
    ByValue,
    /// `x` on the second column, which a combination of selectors names.
    Combined,
    /// A turn to the left that first writes a text, which it may not leave.
    Faulty,
}

impl Call {
    pub(crate) fn of_name(name: &str) -> Option<Call> {
        match name {
            "run" => Some(Call::Run),
            "both" => Some(Call::Both),
            "list" => Some(Call::List),
            "slice" => Some(Call::Slice),
            "settings" => Some(Call::Settings),
            "modify" => Some(Call::Modify),
            "spans" => Some(Call::Spans),
            "content" => Some(Call::Content),
            "positioned" => Some(Call::Positioned),
            "multiline" => Some(Call::Multiline),
            "vertical_panel" => Some(Call::VerticalPanel),
            "duplicate" => Some(Call::Duplicate),
            "charset" => Some(Call::Charset),
            "charset_clean" => Some(Call::CharsetClean),
            "by_content" => Some(Call::ByContent),
            "by_column_name" => Some(Call::ByColumnName),
            "by_condition" => Some(Call::ByCondition),
            "by_value" => Some(Call::ByValue),
            "combined" => Some(Call::Combined),
            "faulty" => Some(Call::Faulty),
            _ => None,
        }
    }

    /// The steps that the call is handed: these, or the one that the last two are.
    pub(crate) fn joined(self, alloc: Global, mut steps: Vec<Step>) -> Option<Vec<Step>> {
        let Call::Both = self else {
            return Some(steps);
        };
        let second = Box::new(alloc, steps.pop()?).ok()?;
        let first = Box::new(alloc, steps.pop()?).ok()?;
        vec![in alloc; Step::Both(first, second)].ok()
    }

    /// The number that the call names where one of the steps is refused.
    pub(crate) fn index_of(self, step: usize) -> Option<usize> {
        match self {
            Call::Run => Some(step),
            Call::Both => Some(0),
            _ => None,
        }
    }

    /// Does the call to a table. Refused, it names the number of the step that is, if it knows that.
    pub(crate) fn does<R>(
        self,
        alloc: Global,
        records: &mut R,
        cfg: &mut SpannedConfig,
        steps: Vec<Step>,
    ) -> Result<(), Option<usize>>
    where
        R: Records + ExactRecords + PeekableRecords + Resizable,
        R: RecordsMut<String> + RecordsMut<&'static str>,
        R::Cell: CellText,
        requires { R.is_well_formed records.old }
        ensures { R.is_well_formed records.new }
    {
        match self {
            Call::Run | Call::Both => {
                run(alloc, records, cfg, steps).map_err(|(index, _)| Some(index))
            }
            _ => self.changes(alloc, records, cfg, steps).map_err(|_| None),
        }
    }

    /// Does the call by an option.
    fn changes<R>(
        self,
        alloc: Global,
        records: &mut R,
        cfg: &mut SpannedConfig,
        steps: Vec<Step>,
    ) -> Result<(), AllocError>
    where
        R: Records + ExactRecords + PeekableRecords + Resizable,
        R: RecordsMut<String> + RecordsMut<&'static str>,
        R::Cell: CellText,
        requires { R.is_well_formed records.old }
        ensures { R.is_well_formed records.new }
    {
        match self {
            Call::Run | Call::Both | Call::List => steps.change(alloc, records, cfg, &mut ()),
            Call::Slice => {
                let splits = [Split::column(1), Split::row(3)];
                OptionSlice(&splits).change(alloc, records, cfg, &mut ())
            }
            Call::Settings => Settings::empty()
                .modify(Rows::first(), TextRef("x"))
                .with(Rotate::Left)
                .change(alloc, records, cfg, &mut ()),
            Call::Modify => Modify::list(Rows::new(..), (TextRef("x"), TextRef("y"))).change(
                alloc,
                records,
                cfg,
                &mut (),
            ),
            Call::Spans => {
                Modify::list(Rows::new(..), Span::column(2)).change(alloc, records, cfg, &mut ())
            }
            Call::Content => Format::content(marked).change(alloc, records, cfg, &mut ()),
            Call::Positioned => Format::positioned(placed).change(alloc, records, cfg, &mut ()),
            Call::Multiline => Modify::list(
                Rows::first(),
                Format::content(marked).multiline(),
            ).change(alloc, records, cfg, &mut ()),
            Call::VerticalPanel => {
                let text = String::from_str(alloc, "A_wide_panel")?;
                let panel = Panel::vertical(1, text).width(alloc, 3)?;
                panel.change(alloc, records, cfg, &mut ())
            }
            Call::Duplicate => {
                Dup::new(Rows::new(1..), Rows::first()).change(alloc, records, cfg, &mut ())
            }
            Call::Charset => Modify::list(
                Columns::first(),
                Charset::new().clean().tab_size(2),
            ).change(alloc, records, cfg, &mut ()),
            Call::CharsetClean => {
                let text = Charset::charset_clean(alloc, "a_text\u{1}_of_more_than_15_bytes\r")?;
                Modify::list(Cell::new(0, 0), text).change(alloc, records, cfg, &mut ())
            }
            Call::ByContent => {
                let text = String::from_str(alloc, "a")?;
                Modify::list(Locator::content(text), TextRef("x")).change(
                    alloc,
                    records,
                    cfg,
                    &mut (),
                )
            }
            Call::ByColumnName => {
                let name = String::from_str(alloc, "b")?;
                Modify::list(Locator::column(name), TextRef("x")).change(
                    alloc,
                    records,
                    cfg,
                    &mut (),
                )
            }
            Call::ByCondition => Modify::list(
                Locator::by(|text| text.is_empty()),
                TextRef("x"),
            ).change(alloc, records, cfg, &mut ()),
            Call::ByValue => {
                let longest = Locator::value(Segment::all(), |text, held| text.len() > held.len());
                Modify::list(longest, TextRef("x")).change(alloc, records, cfg, &mut ())
            }
            Call::Combined => {
                let corner = Rows::first().and(Columns::first()).not(Cell::new(0, 1));
                let others = corner.intersect(Segment::all()).inverse();
                Modify::list(others, TextRef("x")).change(alloc, records, cfg, &mut ())
            }
            Call::Faulty => {
                Modify::list(Rows::first(), TextRef("x")).change(alloc, records, cfg, &mut ())?;
                Rotate::Left.change(alloc, records, cfg, &mut ())
            }
        }
    }
}

fn marked(alloc: Global, text: &str) -> Result<String, AllocError> {
    format!(in alloc; "{text}!")
}

fn placed(alloc: Global, text: &str, pos: Position) -> Result<String, AllocError> {
    format!(in alloc; "{text}{}:{}", pos.row, pos.col)
}
