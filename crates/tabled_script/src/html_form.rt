//! A table as HTML.

ghost use Rattle.std.specs.Io.KnownBytes.{Appends};
ghost use Rattle.std.specs.Prelude.{◌≡◌, IfErr, IfOk, OnOk, map};
ghost use Rattle.tabled_grid.specs.Grid.{IsEven, grid_of, map_items};
ghost use Rattle.tabled_html.specs.Elements.{html};
ghost use Rattle.tabled_script.specs.Html.{ShowsGrid, html_alignment, look_of, look_with};
ghost use Rattle.tabled_script.specs.InMemory.{texts_by};
ghost use Rattle.tabled_script.specs.Outcome.{OnlyFails};

use crate::alignments::Alignments;
use crate::outcome::{Outcome, Unwritten};
use std::alloc::{AllocError, Global};
use std::io::Write;
use tabled_draw::Alignment;
use tabled_grid::config::SpannedConfig;
use tabled_grid::records::CellText;
use tabled_html::{Page, WriteError, write_with};

/// How a table is written as HTML.
///
/// Of this project.
#[derive(Drop)]
pub struct HtmlPage {
    /// How many rows are its header.
    pub header: usize,
    pub caption: Option<String>,
    /// Where they are listed, and none is, nothing is said of how texts stand.
    pub alignments: Alignments,
    /// Whether it is a page of its own.
    pub is_whole: bool,
}

/// Writes a table as HTML with those of its merged cells that fit and that HTML can say, and flushes the writer. All
/// memory is asked for before the first byte: refused, nothing is written.
pub(crate) fn write_html<T: CellText, W: Write>(
    alloc: Global,
    records: &Vec<Vec<T>>,
    cfg: &SpannedConfig,
    page: &HtmlPage,
    writer: &mut W,
) -> Outcome
    requires { IsEven (grid_of (map_items records.now.items)) }
    ensures written { OnOk result (
        Appends (W.contents writer.old) (W.contents writer.new) (html (texts_by T.text_of records.now.items) cfg.now (look_of page.now (texts_by T.text_of records.now.items)))) }
    ensures shows { OnOk result (ShowsGrid page.now (texts_by T.text_of records.now.items) cfg.now) }
    ensures unwritten { IfErr result (OnlyFails (W.contents writer.old) (W.contents writer.new)) }
{
    let alignments = page.alignments.of_columns(alloc, records)?;
    let alignments = html_alignments(alloc, &alignments)?;
    let look = look_with(page, &alignments);
    match write_with(alloc, writer, records, cfg, &look) {
        Ok(()) => Ok(writer.flush()?),
        Err(WriteError::OutOfMemory) => Err(Unwritten::OutOfMemory),
        Err(WriteError::Failed(_)) => Err(Unwritten::Failed),
    }
}

/// How a table is written, as it is asked for, with these alignments.
fn look_with<'p>(page: &'p HtmlPage, alignments: &'p [tabled_html::Alignment]) -> Page<'p>
    ensures { result ≡ look_with page.now alignments.now }
{
    let look = Page::new().header(page.header).alignments(alignments);
    let look = match &page.caption {
        Some(caption) => look.caption(caption.as_str()),
        None => look,
    };
    if page.is_whole {
        return look.whole();
    }
    look
}

/// Where texts stand in their cells, as they stand in those of a picture.
fn html_alignments(
    alloc: Global,
    alignments: &[Alignment],
) -> Result<Vec<tabled_html::Alignment>, AllocError>
    ensures { IfOk result (λ aligned. aligned.items ≡ map html_alignment alignments.now) }
{
    let mut aligned = Vec::with_capacity(alloc, alignments.len())?;
    for alignment in alignments {
        aligned.push(html_alignment(*alignment))?;
    }
    Ok(aligned)
}

/// Where a text stands in its cell.
fn html_alignment(alignment: Alignment) -> tabled_html::Alignment
    ensures { result ≡ html_alignment alignment }
{
    match alignment {
        Alignment::Left => tabled_html::Alignment::Left,
        Alignment::Center => tabled_html::Alignment::Center,
        Alignment::Right => tabled_html::Alignment::Right,
    }
}
