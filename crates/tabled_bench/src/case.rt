//! The cases.

use crate::spans::Merged;
use crate::stores::Change;
use crate::tables::{Shape, Store};
use crate::watch::Watch;
use crate::{builders, selectors, spans, stores, tables};
use std::alloc::{AllocError, Global};
use tabled_grid::records::Text;

/// What is timed.
#[derive(Clone, Copy)]
pub(crate) enum Case {
    Push,
    Widen,
    Clean,
    Transpose,
    Frame,
    NotFrame,
    And,
    Pairs,
    Flat(stores::Call),
    Nested(stores::Call),
    Spans(Merged, spans::Call),
    Table(Shape, tables::Change),
}

impl Case {
    pub(crate) fn of_name(name: &str) -> Option<Case> {
        match name {
            "push" => Some(Case::Push),
            "widen" => Some(Case::Widen),
            "clean" => Some(Case::Clean),
            "transpose" => Some(Case::Transpose),
            "frame" => Some(Case::Frame),
            "not_frame" => Some(Case::NotFrame),
            "and" => Some(Case::And),
            "pairs" => Some(Case::Pairs),
            _ => Case::of_store(name)
                .or(Case::of_spans(name))
                .or(Case::of_table(name)),
        }
    }

    fn of_store(name: &str) -> Option<Case> {
        let (store, call) = name.split_once('_')?;
        let call = match call {
            "store" => stores::Call::Growth,
            "row" => stores::Call::Change(Change::MiddleRow),
            "column" => stores::Call::Change(Change::MiddleColumn),
            "rows" => stores::Call::Change(Change::Rows),
            "columns" => stores::Call::Change(Change::Columns),
            _ => return None,
        };
        match store {
            "flat" => Some(Case::Flat(call)),
            "nested" => Some(Case::Nested(call)),
            _ => None,
        }
    }

    fn of_spans(name: &str) -> Option<Case> {
        let (merged, call) = name.split_once('_')?;
        let merged = match merged {
            "flatspans" => Merged::Flat,
            "tallspans" => Merged::Tall,
            "staggeredspans" => Merged::Staggered,
            "coveredspans" => Merged::Covered,
            "tenthspans" => Merged::Tenths,
            "flatsharing" => Merged::FlatSharing,
            "tallsharing" => Merged::TallSharing,
            "staggeredsharing" => Merged::StaggeredSharing,
            _ => return None,
        };
        let call = match call {
            "fits" => spans::Call::Fits,
            "drop" => spans::Call::DropHidden,
            "keep" => spans::Call::KeepFitting,
            "cover" => spans::Call::Cover,
            _ => return None,
        };
        Some(Case::Spans(merged, call))
    }

    fn of_table(name: &str) -> Option<Case> {
        let (shape, change) = name.split_once('_')?;
        Some(Case::Table(Shape::of_name(shape)?, tables::Change::of_name(change)?))
    }

    /// Does the calls once, timed by a watch, and counts something of what comes out.
    pub(crate) fn run(
        self,
        alloc: Global,
        size: usize,
        watch: &mut Watch,
    ) -> Result<usize, AllocError> {
        match self {
            Case::Push => builders::push(alloc, size, watch),
            Case::Widen => builders::widen(alloc, size, watch),
            Case::Clean => builders::clean(alloc, size, watch),
            Case::Transpose => builders::transpose(alloc, size, watch),
            Case::Frame => selectors::frame(alloc, size, watch),
            Case::NotFrame => selectors::not_frame(alloc, size, watch),
            Case::And => selectors::and(alloc, size, watch),
            Case::Pairs => selectors::pairs(alloc, size, watch),
            Case::Flat(call) => {
                let store = Store::new(alloc, Vec::new(alloc))?;
                stores::run(alloc, store, size, call, watch)
            }
            Case::Nested(call) => {
                let store: Vec<Vec<Text<String>>> = Vec::new(alloc);
                stores::run(alloc, store, size, call, watch)
            }
            Case::Spans(merged, call) => spans::run(alloc, size, merged, call, watch),
            Case::Table(shape, change) => tables::run(alloc, size, shape, change, watch),
        }
    }
}
