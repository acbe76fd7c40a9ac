//! Which lines entities name whole.

ghost use Rattle.std.specs.Prelude.{◌≡◌, ◌<◌, ◌≤◌, ◌+◌, ◌&&◌, ◌||◌, ℕ, false, true, get_or, length, nat_le, nat_lt, IfOk, List, Ok, []};
ghost use Rattle.std.specs.Iterator.{AlwaysYields, IsFinite};
ghost use Rattle.tabled_grid.specs.declared.config.entity.Entity.{Entity};
ghost use Rattle.tabled_spans.specs.Lines.{AreMany, AreNamedBy, is_among, names_line};
ghost use Rattle.tabled_spans.specs.declared.merge.lines.NamedLines.TheVariants.{Nothing};

use std::alloc::{AllocError, Global};
use tabled_grid::config::Entity;
use tabled_grid::records::Axis;

/// Some of the lines of a table: of its columns where runs go along the rows, of its rows where they go along
/// the columns.
#[derive(Drop)]
pub(super) enum NamedLines {
    /// None.
    Nothing,
    /// Those that one entity names whole. They take no memory.
    Of(Entity),
    /// Those with a mark.
    Marked(Vec<bool>),
}

impl NamedLines {
    /// Those of the first n lines that some entities name whole.
    ///
    /// It takes memory for the marks alone, and none for the lines of one entity.
    pub(super) fn named_by<I>(
        alloc: Global,
        axis: Axis,
        many: usize,
        entities: I,
    ) -> Result<Self, AllocError>
    where
        I: Iterator<Item = Entity> + Drop,
        requires next { I.can_next entities }
        requires ends { IsFinite (I.remaining entities) }
        ensures many { IfOk result (λ lines. AreMany many lines) }
        ensures named { (items : List Entity) → AlwaysYields I.next_gives (λ e. e) entities items → IfOk result (λ lines. AreNamedBy axis many items lines) }
        ensures nothing { AlwaysYields I.next_gives (λ e. e) entities [] → result ≡ Ok Nothing }
    {
        let mut lines = NamedLines::Nothing;
        let mut entities = entities;
        while let Some(entity) = entities.next() {
            lines = lines.with(alloc, axis, many, entity)?;
        }
        Ok(lines)
    }

    /// The same, and those of the first n lines that another entity names whole.
    fn with(
        self,
        alloc: Global,
        axis: Axis,
        many: usize,
        entity: Entity,
    ) -> Result<Self, AllocError>
        requires many { AreMany many self }
        ensures many { IfOk result (λ lines. AreMany many lines) }
        ensures named { IfOk result (λ lines. (line : ℕ) → line < many → is_among axis lines line ≡ (is_among axis self line || names_line axis entity line)) }
    {
        let (_, count) = lines_named(axis, many, entity);
        if count == 0 {
            return Ok(self);
        }
        let mut marks = match self {
            NamedLines::Nothing => return Ok(NamedLines::Of(entity)),
            NamedLines::Of(first) => marks_of(alloc, axis, many, first)?,
            NamedLines::Marked(marks) => marks,
        };
        mark(&mut marks, axis, entity);
        Ok(NamedLines::Marked(marks))
    }
}

/// A mark for each of the first n lines, set where an entity names the line whole.
fn marks_of(alloc: Global, axis: Axis, many: usize, entity: Entity) -> Result<Vec<bool>, AllocError>
    ensures length { IfOk result (λ marks. length marks.items ≡ many) }
    ensures marked { IfOk result (λ marks. (line : ℕ) → line < many → get_or marks.items line false ≡ names_line axis entity line) }
{
    let mut marks = vec![in alloc; false; many]?;
    mark(&mut marks, axis, entity);
    Ok(marks)
}

/// The first of the first n lines that an entity names whole, and how many it names.
fn lines_named(axis: Axis, many: usize, entity: Entity) -> (usize, usize)
    ensures within { result.0 + result.1 ≤ many }
    ensures named { (line : ℕ) → line < many → names_line axis entity line ≡ (nat_le result.0 line && nat_lt line (result.0 + result.1)) }
{
    match (axis, entity) {
        (_, Entity::Global) => (0, many),
        (Axis::Rows, Entity::Column(line)) if line < many => (line, 1),
        (Axis::Columns, Entity::Row(line)) if line < many => (line, 1),
        _ => (0, 0),
    }
}

/// Marks the lines that an entity names whole.
fn mark(marks: &mut [bool], axis: Axis, entity: Entity)
    ensures length { length marks.new ≡ length marks.old }
    ensures marked { (line : ℕ) → line < length marks.old → get_or marks.new line false ≡ (get_or marks.old line false || names_line axis entity line) }
{
    let (first, count) = lines_named(axis, marks.len(), entity);
    marks[first..first + count].fill(true);
}

/// The first line with a mark, and how many lines there are from it to the last one with a mark.
pub(super) fn marked_range(marks: &[bool]) -> (usize, usize)
    ensures within { result.0 + result.1 ≤ length marks.now }
    ensures marked { (line : ℕ) → get_or marks.now line false ≡ true → (result.0 ≤ line) × (line < result.0 + result.1) }
{
    let mut end = marks.len();
    while end > 0 && !marks[end - 1] {
        end -= 1;
    }
    let mut first = 0;
    while first < end && !marks[first] {
        first += 1;
    }
    (first, end - first)
}
