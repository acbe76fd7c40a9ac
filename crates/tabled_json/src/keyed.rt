//! Rows that are records: their keys differ, and each of their texts has a key.

ghost use Rattle.std.specs.Prelude.{◌≡◌, ◌<◌, ◌≤◌, [], IfErr, OnOk, length};
ghost use Rattle.tabled_json.specs.Tables.{AreDistinct};
ghost use Rattle.tabled_texts.specs.Texts.{row_at};
ghost use Rattle.tabled_json.specs.Writes.{AreKeyed, AreNarrow, IsRefused, IsWhy};

use crate::fault::WriteError;
use crate::keys::Keys;
use std::alloc::Global;
use tabled_texts::Rows;

/// Says whether the texts of the first row differ.
fn check_keys<R: Rows>(alloc: Global, rows: &R) -> Result<(), WriteError>
    requires well { R.is_well rows.now }
    requires some { 0 < length (R.texts rows.now) }
    ensures distinct { OnOk result (AreDistinct (row_at (R.texts rows.now) 0)) }
    ensures why { IfErr result (IsWhy (R.texts rows.now)) }
    ensures unfailed { IfErr result IsRefused }
{
    let mut keys = Keys::new(alloc);
    for j in 0..rows.width(0) {
        let text = rows.text(0, j);
        if let Some(first) = keys.add(text)? {
            return Err(WriteError::EqualKeys { first, second: j });
        }
    }
    Ok(())
}

/// Says whether no row has more texts than the first.
fn check_rows<R: Rows>(rows: &R) -> Result<(), WriteError>
    requires well { R.is_well rows.now }
    requires some { 0 < length (R.texts rows.now) }
    ensures narrow { OnOk result (AreNarrow (R.texts rows.now)) }
    ensures why { IfErr result (IsWhy (R.texts rows.now)) }
    ensures unfailed { IfErr result IsRefused }
{
    let count = rows.width(0);
    for i in 0..rows.count() {
        if count < rows.width(i) {
            return Err(WriteError::LongRow { row: i });
        }
    }
    Ok(())
}

/// Says whether rows are records, and if not, why.
pub(crate) fn check<R: Rows>(alloc: Global, rows: &R) -> Result<(), WriteError>
    requires { R.is_well rows.now }
    ensures keyed { OnOk result (AreKeyed (R.texts rows.now)) }
    ensures why { IfErr result (IsWhy (R.texts rows.now)) }
    ensures unfailed { IfErr result IsRefused }
{
    if rows.count() == 0 {
        return Ok(());
    }
    check_keys(alloc, rows)?;
    check_rows(rows)?;
    Ok(())
}
