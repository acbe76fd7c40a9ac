//! Rows, read: arrays of values.

ghost use Rattle.std.specs.Prelude.{◌≡◌, ℕ, List, IfOk};
ghost use Rattle.tabled_json.specs.Faults.{RowFault};
ghost use Rattle.tabled_json.specs.Grammar.{RowAt};
ghost use Rattle.tabled_texts.specs.Texts.{texts_of};

use crate::fault::{Fault, PartError};
use crate::kind::Kind;
use crate::list::{Element, list};
use std::alloc::{AllocError, Global};
use tabled_texts::Spare;

impl<'a> Element<'a> for Vec<&'a str> {
    ghost Shown = { List (List ℕ) };

    ghost shown = { texts_of };

    ghost is_at = { RowAt };

    ghost is_fault = { RowFault };

    fn read(
        alloc: Global,
        bytes: &'a [u8],
        scratch: &mut Vec<u8>,
        spare: &mut Spare<'a>,
    ) -> Result<(Self, &'a [u8]), PartError> {
        list(Kind::Array, Fault::NoArray, alloc, bytes, scratch, spare)
    }

    fn settle(_alloc: Global, rows: Vec<Self>) -> Result<Vec<Self>, AllocError>
        ensures { IfOk result (λ all. all.items ≡ rows.entry.items) }
    {
        Ok(rows)
    }
}
