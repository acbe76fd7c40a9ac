//! Which cells of a table are hidden, for quick answers.

ghost use Rattle.std.specs.Prelude.{◌≡◌, ◌+◌, ◌*◌, ◌<◌, ◌≤◌, ◌^◌, IfOk, IsOk, take};
ghost use Rattle.tabled_grid.specs.CellCounts.{CountsBlock, IsFew, IsMany, counts_of};
ghost use Rattle.tabled_grid.specs.Covers.{IsCoverOf, area, hider_counts};
ghost use Rattle.tabled_grid.specs.Entity.{place};
ghost use Rattle.tabled_grid.specs.Hidden.{is_hidden};
ghost use Rattle.tabled_grid.specs.Rectangles.{In};
ghost use Rattle.tabled_grid.specs.Spans.{AreSorted, SpanMap, rectangle, rectangles, size_at, sized, with_size};

use crate::config::hiders::{count_each, follow};
use crate::config::position::Position;
use crate::config::rectangle::Rectangle;
use crate::config::size::Size;
use crate::config::spanned_config::SpannedConfig;
use std::alloc::{AllocError, Global};
use std::marker::Model;

/// So many cells need no memory.
const FEW: usize = 8;

/// How many anchors hide each cell of a block.
#[derive(Drop)]
enum CellCounts {
    /// Those of a small block, which stand in the map itself. No table has more cells than such a number counts.
    Few([u128; FEW]),
    /// Those of a larger one.
    Many(Vec<usize>),
}

/// For each cell of a block, how many other anchors' rectangles hold it. So it answers at once what
/// `SpannedConfig::is_cell_visible` looks through all anchors for.
///
/// A contract sees it as its block and these numbers, row by row. They are those of a finite map from anchors
/// to sizes (`IsCoverOf`), whose anchors may stand outside of the block.
#[derive(Drop)]
pub struct CoverMap {
    counts: CellCounts,
    block: Rectangle,
}

impl Model for CoverMap {
    ghost use Rattle.std.specs.Prelude.{◌<◌, ◌^◌};
    ghost use Rattle.tabled_grid.specs.CellCounts.{CountsBlock, counts_of};
    ghost use Rattle.tabled_grid.specs.Covers.{Cover, area};

    ghost Value = { Cover };

    ghost view = { λ a. record { block = a.block; hiders = counts_of (area a.block.size) a.counts } };

    ghost invariant = { λ a. record { count : area a.block.size < 2 ^ 64; counts : CountsBlock a.counts a.block } };
}

impl CoverMap {
    /// What the merged cells of `cfg` cover of a shape (`rows x columns`).
    ///
    /// Up to eight cells take no memory. A number of cells past `usize::MAX` is a growth refused.
    ///
    /// Of this project.
    pub fn new(
        alloc: Global,
        cfg: &SpannedConfig,
        rows: usize,
        columns: usize,
    ) -> Result<Self, AllocError>
        ensures block { IfOk result (λ cover. cover.block ≡ rectangle (place 0 0) (sized rows columns)) }
        ensures cover { IfOk result (IsCoverOf cfg.now) }
        ensures promised { rows * columns ≤ 8 → IsOk result }
    {
        let size = Size {
            height: rows,
            width: columns,
        };
        let first = Position { row: 0, col: 0 };
        CoverMap::of_block(alloc, cfg, Rectangle { first, size })
    }

    /// What the merged cells of `cfg` cover of a block. It takes memory for the block alone, and none for up to
    /// eight cells.
    ///
    /// A row or a column past `usize::MAX` is a growth refused, and so is, of a larger block, a number past it of
    /// cells of the table up to the block's last one.
    pub fn of_block(
        alloc: Global,
        cfg: &SpannedConfig,
        block: Rectangle,
    ) -> Result<Self, AllocError>
        ensures block { IfOk result (λ cover. cover.block ≡ block) }
        ensures cover { IfOk result (IsCoverOf cfg.now) }
        ensures promised { area block.size ≤ 8 → block.first.row + block.size.height < 2 ^ 64 → block.first.col + block.size.width < 2 ^ 64 → IsOk result }
    {
        let Rectangle { first, size } = block;
        let bottom = first.row.checked_add(size.height);
        let right = first.col.checked_add(size.width);
        if bottom.is_none() || right.is_none() {
            return Err(AllocError);
        }
        let counts = CellCounts::of(alloc, cfg.rectangles(), block)?;
        Ok(CoverMap { counts, block })
    }

    /// Says whether another anchor's rectangle holds a cell of the block.
    pub fn is_hidden(&self, pos: Position) -> bool
        requires inside { In self.now.block pos }
        ensures hidden { (m : SpanMap) → IsCoverOf m self.now → result ≡ is_hidden m pos }
    {
        let Rectangle { first, size } = self.block;
        let row = pos.row - first.row;
        let col = pos.col - first.col;
        let k = row * size.width + col;
        match &self.counts {
            CellCounts::Few(counts) => counts[k] > 0,
            CellCounts::Many(counts) => counts[k] > 0,
        }
    }

    /// Follows a map whose size at a place becomes another. That of one cell stands for no anchor, and so does a new one
    /// with a side of 0: the size that the map then has is that of one cell. It takes no memory.
    ///
    /// What is left is promised where `old` is the size that the map had.
    pub fn replace(&mut self, pos: Position, old: Size, new: Size)
        ensures block { self.new.block ≡ self.old.block }
        ensures cover { (m : SpanMap) → IsCoverOf m self.old → size_at m pos ≡ old → IsCoverOf (with_size m pos new) self.new }
    {
        let block = self.block;
        self.counts.follow(block, pos, old, new);
    }
}

impl CellCounts {
    /// Counts the anchors that hide each cell of a block.
    fn of(alloc: Global, anchors: &[Rectangle], block: Rectangle) -> Result<Self, AllocError>
        requires sorted { AreSorted anchors.now }
        requires bottom { block.first.row + block.size.height < 2 ^ 64 }
        requires right { block.first.col + block.size.width < 2 ^ 64 }
        ensures count { IfOk result (λ _. area block.size < 2 ^ 64) }
        ensures counts { IfOk result (λ counts. CountsBlock counts block) }
        ensures counted { IfOk result (λ counts. counts_of (area block.size) counts ≡ hider_counts anchors.now block) }
        ensures promised { area block.size ≤ 8 → IsOk result }
    {
        if let Some(count) = block.size.height.checked_mul(block.size.width) {
            if count <= FEW {
                return Ok(CellCounts::Few(count_few(anchors, block)));
            }
        }
        Ok(CellCounts::Many(count_many(alloc, anchors, block)?))
    }

    /// Follows a map whose size at a place becomes another.
    fn follow(&mut self, block: Rectangle, pos: Position, old: Size, new: Size)
        requires count { area block.size < 2 ^ 64 }
        requires counts { CountsBlock self.old block }
        ensures counts { CountsBlock self.new block }
        ensures map { (m : SpanMap) → size_at m pos ≡ old → counts_of (area block.size) self.old ≡ hider_counts (rectangles m) block → counts_of (area block.size) self.new ≡ hider_counts (rectangles (with_size m pos new)) block }
    {
        match self {
            CellCounts::Few(counts) => {
                let mut few = *counts;
                let count = block.size.height * block.size.width;
                follow(&mut few[..count], block, pos, old, new);
                *counts = few;
            }
            CellCounts::Many(counts) => follow(counts, block, pos, old, new),
        }
    }
}

/// Counts the anchors that hide each cell of a small block.
fn count_few(anchors: &[Rectangle], block: Rectangle) -> [u128; FEW]
    requires sorted { AreSorted anchors.now }
    requires few { area block.size ≤ 8 }
    requires bottom { block.first.row + block.size.height < 2 ^ 64 }
    requires right { block.first.col + block.size.width < 2 ^ 64 }
    ensures is_few { IsFew result block }
    ensures counted { take (area block.size) result ≡ hider_counts anchors.now block }
{
    let mut counts = [0; FEW];
    let count = block.size.height * block.size.width;
    count_each(&mut counts[..count], anchors, block);
    counts
}

/// Counts the anchors that hide each cell of a block, if all of the table's cells up to its last one can be
/// numbered.
fn count_many(
    alloc: Global,
    anchors: &[Rectangle],
    block: Rectangle,
) -> Result<Vec<usize>, AllocError>
    requires sorted { AreSorted anchors.now }
    requires bottom { block.first.row + block.size.height < 2 ^ 64 }
    requires right { block.first.col + block.size.width < 2 ^ 64 }
    ensures is_many { IfOk result (λ counts. IsMany counts.items block) }
    ensures counted { IfOk result (λ counts. counts.items ≡ hider_counts anchors.now block) }
{
    let Rectangle { first, size } = block;
    let Some(_cells) = (first.row + size.height).checked_mul(first.col + size.width) else {
        return Err(AllocError);
    };
    let mut counts = vec![in alloc; 0; size.height * size.width]?;
    count_each(&mut counts, anchors, block);
    Ok(counts)
}
