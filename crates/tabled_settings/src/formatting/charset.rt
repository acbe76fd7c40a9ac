//! Tabs replaced and control characters taken out.

ghost use Rattle.std.specs.Prelude.{◌≡◌, ◌+◌, ◌*◌, ◌==◌, ◌++◌, ◌⊎◌, ◌&&◌, false, length, not, replicate, [], IfOk, IfSome, IsOk, OnErr, OnOk};
ghost use Rattle.std.specs.List.{count_by, flat_map, list_all};
ghost use Rattle.std.specs.String.{string_bytes};
ghost use Rattle.tabled_grid.specs.Entity.{inside};
ghost use Rattle.tabled_grid.specs.declared.config.entity.Entity.TheVariants.{Global};
ghost use Rattle.tabled_settings.specs.Charsets.{byte_stays, charset_writes, is_set, recoded, replaced};
ghost use Rattle.tabled_options.specs.Writes.{DoesFirstWrites, DoesWrites, FirstWritten, Written};
ghost use Rattle.std.proofs.Common.{rules};

use crate::rewrite::{Answers, rewrite};
use std::alloc::{AllocError, Global};
use std::marker::Model;
use tabled_grid::config::{Entity, Position};
use tabled_grid::records::{CellText, ExactRecords, PeekableRecords, Records, RecordsMut};
use tabled_options::{CellOption, TableOption};

/// Replaces tabs in the texts of cells, and takes control characters out. A contract sees it as whether it
/// cleans, and its tab size.
///
/// With nothing set it changes nothing. Refused for memory, it leaves the cells that it wrote.
///
/// Ported from `tabled::settings::formatting::Charset`.
#[derive(Debug, Default, Clone, Copy, PartialEq, Eq, PartialOrd, Ord)]
pub struct Charset {
    clean: bool,
    tab_size: Option<usize>,
}

impl Model for Charset {
    ghost use Rattle.std.specs.Prelude.{ℕ, Bool, Option};

    ghost Value = { Bool × Option ℕ };

    ghost view = { λ a. (a.clean, a.tab_size) };

    ghost inverse = { λ s. record { clean = s.0; tab_size = s.1 } };
}

impl Charset {
    ghost use Rattle.std.specs.Prelude.{◌≡◌, IfOk, None, Some, false, true};
    ghost use Rattle.std.specs.String.{string_bytes};
    ghost use Rattle.tabled_settings.specs.Charsets.{clean_text, is_set};

    /// Nothing set.
    ///
    /// Ported from `tabled::settings::formatting::Charset::new`.
    pub fn new() -> Self
        ensures { result ≡ (false, None) }
    {
        Charset {
            clean: false,
            tab_size: None,
        }
    }

    /// What takes control characters but the newline out, too. A tab becomes as many spaces as are set, and none
    /// where no size is.
    ///
    /// Ported from `tabled::settings::formatting::Charset::clean`.
    pub fn clean(self) -> Self
        ensures { result ≡ (true, self.1) }
    {
        Charset {
            clean: true,
            tab_size: self.tab_size,
        }
    }

    /// What replaces a tab by n spaces, too.
    ///
    /// Ported from `tabled::settings::formatting::Charset::tab_size`.
    pub fn tab_size(self, size: usize) -> Self
        ensures { result ≡ (self.0, Some size) }
    {
        Charset {
            clean: self.clean,
            tab_size: Some(size),
        }
    }

    /// Whether something is set.
    fn is_set(&self) -> bool
        ensures { result ≡ is_set self.now }
    {
        self.clean || self.tab_size.is_some()
    }

    /// The text without control characters but the newline, with 4 spaces for each tab.
    ///
    /// Refused where memory runs out. The text is only read.
    ///
    /// Ported from `tabled::settings::formatting::Charset::charset_clean`.
    pub fn charset_clean(alloc: Global, s: &str) -> Result<String, AllocError>
        ensures { IfOk result (λ new. string_bytes new ≡ clean_text 4 s.now) }
    {
        replaced(alloc, s, true, 4)
    }
}

impl<R, C> CellOption<R, C> for Charset
where
    R: Records + ExactRecords + PeekableRecords + RecordsMut<String>,
    R::Cell: CellText,
{
    ghost does = { λ s e. DoesWrites R.Cell.text_of (charset_writes s e) };

    ghost leaves = { λ s e. DoesFirstWrites R.Cell.text_of (charset_writes s e) };

    ghost never_refused = { λ s e g _. (is_set s ≡ false) ⊎ (inside e g.rows g.columns ≡ []) };

    fn change(
        self,
        alloc: Global,
        records: &mut R,
        _cfg: &mut C,
        entity: Entity,
    ) -> Result<(), AllocError> {
        recode(alloc, records, entity, self)
    }

    fn hint_change(&self) -> Option<Entity> {
        Some(Entity::Global)
    }

    ghost acts_like = { Prim.search rules };
}

/// Recodes the texts of all cells of the table.
impl<R, C, D> TableOption<R, C, D> for Charset
where
    R: Records + ExactRecords + PeekableRecords + RecordsMut<String>,
    R::Cell: CellText,
{
    ghost does = { λ s. DoesWrites R.Cell.text_of (charset_writes s Global) };

    ghost leaves = { λ s. DoesFirstWrites R.Cell.text_of (charset_writes s Global) };

    ghost never_refused = { λ s g _. (is_set s ≡ false) ⊎ (inside Global g.rows g.columns ≡ []) };

    fn change(
        self,
        alloc: Global,
        records: &mut R,
        _cfg: &mut C,
        _dimension: &mut D,
    ) -> Result<(), AllocError> {
        recode(alloc, records, Entity::Global, self)
    }

    fn hint_change(&self) -> Option<Entity> {
        Some(Entity::Global)
    }

    ghost acts_like = { Prim.search rules };
}

/// Writes to each cell inside that an entity names what a charset makes of its text.
fn recode<R>(
    alloc: Global,
    records: &mut R,
    entity: Entity,
    charset: Charset,
) -> Result<(), AllocError>
where
    R: Records + ExactRecords + PeekableRecords + RecordsMut<String>,
    R::Cell: CellText,
    requires well { R.is_well_formed records.old }
    ensures well { R.is_well_formed records.new }
    ensures ok { OnOk result (Written R.Cell.text_of (charset_writes charset entity) (R.grid records.old) (R.grid records.new)) }
    ensures err { OnErr result (FirstWritten R.Cell.text_of (charset_writes charset entity) (R.grid records.old) (R.grid records.new)) }
    ensures promised { (is_set charset ≡ false) ⊎ (inside entity (R.grid records.old).rows (R.grid records.old).columns ≡ []) → IsOk result }
{
    if !charset.is_set() {
        return Ok(());
    }
    rewrite(alloc, records, entity, charset)
}

impl Answers for Charset {
    ghost asks = { λ s p old new t. (t ≡ s) × (new ≡ recoded s old) };

    ghost can_answer = { λ _. Unit {0} };

    fn keeps(&self, _pos: Position, text: &str) -> bool {
        is_plain(text.as_bytes(), self.clean)
    }

    fn answer(&mut self, alloc: Global, _pos: Position, text: &str) -> Result<String, AllocError> {
        match self.tab_size {
            Some(size) => replaced(alloc, text, self.clean, size),
            None if self.clean => replaced(alloc, text, true, 0),
            None => String::from_str(alloc, text),
        }
    }
}

/// Says whether a text has no tab and, if it is to be cleaned, no other control character but the newline.
fn is_plain(text: &[u8], cleans: bool) -> bool
    ensures { result ≡ list_all (λ b. not (b == 9) && byte_stays cleans b) text.now }
{
    text.iter().all(|byte| *byte != b'\t' && (!cleans || *byte == b'\n' || *byte >= b' '))
}

/// The text with n spaces for each tab and, if it is to be cleaned, without control characters but
/// the newline.
fn replaced(alloc: Global, text: &str, cleans: bool, tab_size: usize) -> Result<String, AllocError>
    ensures { IfOk result (λ new. string_bytes new ≡ flat_map (replaced cleans tab_size) text.now) }
{
    let room = room_for(text, tab_size).ok_or(AllocError)?;
    let mut out = String::with_capacity(alloc, room)?;
    for c in text.chars() {
        if c == '\t' {
            push_spaces(&mut out, tab_size)?;
        } else if stays(cleans, c) {
            out.push(c)?;
        }
    }
    Ok(out)
}

/// Room enough for that text, as if nothing were taken out but its tabs; none where no number says it.
fn room_for(text: &str, tab_size: usize) -> Option<usize>
    ensures { IfSome result (λ room. room ≡ count_by (λ b. b == 9) text.now * tab_size + length text.now) }
{
    count_tabs(text.as_bytes())
        .checked_mul(tab_size)?
        .checked_add(text.len())
}

/// How many bytes are tabs.
fn count_tabs(bytes: &[u8]) -> usize
    ensures { result ≡ count_by (λ b. b == 9) bytes.now }
{
    bytes.iter().filter(|byte| **byte == b'\t').count()
}

/// Whether a character that is no tab stays.
fn stays(cleans: bool, c: char) -> bool
    ensures { result ≡ byte_stays cleans c }
{
    !cleans || c == '\n' || c >= ' '
}

/// Appends n spaces.
fn push_spaces(out: &mut String, count: usize) -> Result<(), AllocError>
    ensures { OnOk result (string_bytes out.new ≡ string_bytes out.old ++ replicate count 32) }
{
    let mut left = count;
    while left > 0 {
        out.push(' ')?;
        left -= 1;
    }
    Ok(())
}
