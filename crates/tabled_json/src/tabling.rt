//! The table of records, and the tables that bytes mean.

ghost use Rattle.std.specs.Prelude.{◌≡◌, [], IfErr, IfOk, MatchResult, OnOk, map};
ghost use Rattle.tabled_json.specs.Faults.{IsTableFault, TableFault};
ghost use Rattle.tabled_json.specs.Meanings.{HoldsTable, MeansNoTable, MeansTable, begins_rows};
ghost use Rattle.tabled_json.specs.Places.{AtFault, IsPlace};
ghost use Rattle.tabled_json.specs.Records.{all_of, list_of};
ghost use Rattle.tabled_json.specs.Space.{behind_space};
ghost use Rattle.tabled_json.specs.Tables.{AreListed, keys_of, row_of, table_of, with_members};
ghost use Rattle.tabled_texts.specs.Texts.{rows_of, text_of, texts_of};
ghost use Rattle.tabled_texts.specs.Marks.{behind_mark};
ghost use Rattle.tabled_texts.specs.Reading.{Shows};

use crate::fault::{PartError, ReadError};
use crate::keys::Keys;
use crate::list::whole_array;
use crate::member::Member;
use crate::place::told;
use crate::record::records;
use crate::space::{behind_byte, behind_space};
use std::alloc::{AllocError, Global};
use tabled_texts::{Room, Spare, behind_mark};

/// Adds the keys of an object that aren't there.
fn add_keys<'a>(keys: &mut Keys<'a>, object: &[Member<'a>]) -> Result<(), AllocError>
    requires { AreListed keys.old }
    ensures keys { OnOk result (texts_of keys.new.texts ≡ with_members (texts_of keys.old.texts) (list_of object.now)) }
    ensures listed { OnOk result (AreListed keys.new) }
{
    for member in object {
        keys.add(member.key)?;
    }
    Ok(())
}

/// The keys of objects, in the order in which they are first met.
fn keys_of<'a>(alloc: Global, objects: &[Vec<Member<'a>>]) -> Result<Keys<'a>, AllocError>
    ensures keys { IfOk result (λ keys. texts_of keys.texts ≡ keys_of (all_of objects.now)) }
    ensures listed { IfOk result AreListed }
{
    let mut keys = Keys::new(alloc);
    for object in objects {
        add_keys(&mut keys, object.as_slice())?;
    }
    Ok(keys)
}

/// An empty text for each key.
fn blanks<'a>(alloc: Global, keys: &[&str]) -> Result<Vec<&'a str>, AllocError>
    ensures { IfOk result (λ row. texts_of row ≡ row_of (map text_of keys.now) []) }
{
    let mut row = Vec::with_capacity(alloc, keys.len())?;
    for key in keys {
        // A text for this key, whatever it is.
        let _ = key;
        row.push("")?;
    }
    Ok(row)
}

/// Puts the texts of an object's values into a row of empty texts, each into the column of its key.
fn fill<'a>(row: &mut [&'a str], keys: &Keys<'a>, object: &[Member<'a>])
    requires listed { AreListed keys.now }
    requires blank { map text_of row.old ≡ row_of (texts_of keys.now.texts) [] }
    ensures { map text_of row.new ≡ row_of (texts_of keys.now.texts) (list_of object.now) }
{
    for member in object {
        if let Some(column) = keys.column(member.key) {
            row[column] = member.text;
        }
    }
}

/// The texts of an object's values, one for each key.
fn row<'a>(
    alloc: Global,
    keys: &Keys<'a>,
    object: &[Member<'a>],
) -> Result<Vec<&'a str>, AllocError>
    requires { AreListed keys.now }
    ensures { IfOk result (λ row. texts_of row ≡ row_of (texts_of keys.now.texts) (list_of object.now)) }
{
    let mut row = blanks(alloc, keys.texts.as_slice())?;
    fill(row.as_mut_slice(), keys, object);
    Ok(row)
}

/// The table of objects: its first row is the keys in the order in which they are first met, and then comes a row for
/// each object. An object without a key has the empty text there; where it has one twice, the last one counts. Where
/// there is no object, there is no row.
///
/// Of this project.
pub fn table<'a>(
    alloc: Global,
    objects: &[Vec<Member<'a>>],
) -> Result<Vec<Vec<&'a str>>, AllocError>
    ensures { IfOk result (λ rows. rows_of rows.items ≡ table_of (all_of objects.now)) }
{
    let mut rows = Vec::new(alloc);
    if objects.is_empty() {
        return Ok(rows);
    }
    let keys = keys_of(alloc, objects)?;
    rows.reserve(objects.len().saturating_add(1))?;
    for object in objects {
        let texts = row(alloc, &keys, object.as_slice())?;
        rows.push(texts)?;
    }
    rows.insert(0, keys.texts)?;
    Ok(rows)
}

/// Whether bytes begin with an array that holds an array first.
fn begins_rows(bytes: &[u8]) -> bool
    ensures { result ≡ begins_rows (behind_space bytes.now) }
{
    let Some(inner) = behind_byte(b'[', behind_space(bytes)) else {
        return false;
    };
    behind_byte(b'[', behind_space(inner)).is_some()
}

/// The table that bytes are: their rows as they are, or that of their records.
fn whole_table<'a>(
    alloc: Global,
    bytes: &'a [u8],
    spare: &mut Spare<'a>,
) -> Result<Vec<Vec<&'a str>>, PartError>
    ensures { MatchResult result (λ rows. HoldsTable bytes.now (rows_of rows.items)) (Shows (TableFault bytes.now)) }
{
    let mut scratch = Vec::new(alloc);
    if begins_rows(bytes) {
        return whole_array(alloc, bytes, &mut scratch, spare);
    }
    let objects = records(alloc, bytes, &mut scratch, spare)?;
    let rows = table(alloc, objects.as_slice())?;
    Ok(rows)
}

/// The table that bytes mean as JSON: where they are one array of arrays these are its rows, as they are, and else it
/// is the table of the records that `read` gives. A byte order mark in front is passed over.
///
/// Rows may differ in length. The texts are those that `read` gives, lent as it lends them.
///
/// Of this project.
pub fn read_table<'a>(
    alloc: Global,
    bytes: &'a [u8],
    room: &'a mut Room,
) -> Result<Vec<Vec<&'a str>>, ReadError>
    ensures table { IfOk result (λ rows. MeansTable bytes.now (rows_of rows.items)) }

    // A fault is told where it shows first, and no table is the meaning of these bytes.
    ensures fault { IfErr result (AtFault (IsTableFault bytes.now)) }
    ensures place { IfErr result (AtFault (λ line column fault. IsPlace (behind_mark bytes.now) line column)) }
    ensures none { IfErr result (AtFault (λ line column fault. MeansNoTable bytes.now)) }
{
    read_table_with(alloc, bytes, &mut Spare::new(room))
}

/// The table that bytes mean as JSON, as `read_table` gives it. What a room has left may serve for several.
///
/// Of this project.
pub fn read_table_with<'a>(
    alloc: Global,
    bytes: &'a [u8],
    spare: &mut Spare<'a>,
) -> Result<Vec<Vec<&'a str>>, ReadError>
    ensures table { IfOk result (λ rows. MeansTable bytes.now (rows_of rows.items)) }

    // A fault is told where it shows first, and no table is the meaning of these bytes.
    ensures fault { IfErr result (AtFault (IsTableFault bytes.now)) }
    ensures place { IfErr result (AtFault (λ line column fault. IsPlace (behind_mark bytes.now) line column)) }
    ensures none { IfErr result (AtFault (λ line column fault. MeansNoTable bytes.now)) }
{
    let text = behind_mark(bytes);
    match whole_table(alloc, text, spare) {
        Ok(rows) => Ok(rows),
        Err(error) => Err(told(text, error)),
    }
}
