//! Records, read.

ghost use Rattle.std.specs.Prelude.{◌≡◌, ◌<◌, ℕ, List, IfErr, IfOk, MatchResult, length};
ghost use Rattle.tabled_json.specs.Faults.{IsFault, LinesFault, MemberFault, ObjectFault, RecordsFault};
ghost use Rattle.tabled_json.specs.Grammar.{AreLines, IsRecords, MemberAt, ObjectAt};
ghost use Rattle.tabled_json.specs.Places.{AtFault, IsPlace};
ghost use Rattle.tabled_json.specs.Records.{MeansNoRecords, MeansRecords, member_of, members_of, objects_of};
ghost use Rattle.tabled_texts.specs.Marks.{behind_mark};
ghost use Rattle.tabled_texts.specs.Reading.{Shows};

use crate::cell::{behind_quote, cell, text_of};
use crate::fault::{Fault, PartError, ReadError};
use crate::kind::Kind;
use crate::list::{Element, exact, list, whole_array};
use crate::member::Member;
use crate::place::told;
use crate::space::{behind_byte, behind_space};
use crate::value::key;
use std::alloc::{AllocError, Global};
use tabled_texts::{Room, Spare, behind_mark};

/// The member at the front, and the bytes behind it.
fn read_member<'a>(
    alloc: Global,
    bytes: &'a [u8],
    scratch: &mut Vec<u8>,
    spare: &mut Spare<'a>,
) -> Result<(Member<'a>, &'a [u8]), PartError>
    ensures read { MatchResult result (λ r. MemberAt bytes.now (member_of r.0) r.1.now) (Shows (MemberFault bytes.now)) }
    ensures shorter { IfOk result (λ r. length r.1.now < length bytes.now) }
{
    let value = key(bytes, scratch)?;
    let name = text_of(behind_quote(bytes), scratch.as_slice(), spare, bytes.len())?;
    let (text, after) = cell(alloc, value, scratch, spare)?;
    Ok((Member { key: name, text }, after))
}

impl<'a> Element<'a> for Member<'a> {
    ghost Shown = { List ℕ × List ℕ };

    ghost shown = { member_of };

    ghost is_at = { MemberAt };

    ghost is_fault = { MemberFault };

    fn read(
        alloc: Global,
        bytes: &'a [u8],
        scratch: &mut Vec<u8>,
        spare: &mut Spare<'a>,
    ) -> Result<(Self, &'a [u8]), PartError> {
        read_member(alloc, bytes, scratch, spare)
    }

    // Most objects have few members: what would be left over counts, and shrinking leaves holes.
    fn settle(alloc: Global, members: Vec<Self>) -> Result<Vec<Self>, AllocError>
        ensures { IfOk result (λ all. all.items ≡ members.entry.items) }
    {
        exact(alloc, members.as_slice())
    }
}

/// An object.
impl<'a> Element<'a> for Vec<Member<'a>> {
    ghost Shown = { List (List ℕ × List ℕ) };

    ghost shown = { members_of };

    ghost is_at = { ObjectAt };

    ghost is_fault = { ObjectFault };

    fn read(
        alloc: Global,
        bytes: &'a [u8],
        scratch: &mut Vec<u8>,
        spare: &mut Spare<'a>,
    ) -> Result<(Self, &'a [u8]), PartError> {
        object(alloc, bytes, scratch, spare)
    }

    fn settle(_alloc: Global, objects: Vec<Self>) -> Result<Vec<Self>, AllocError>
        ensures { IfOk result (λ all. all.items ≡ objects.entry.items) }
    {
        Ok(objects)
    }
}

/// The object at the front, and the bytes behind it.
fn object<'a>(
    alloc: Global,
    bytes: &'a [u8],
    scratch: &mut Vec<u8>,
    spare: &mut Spare<'a>,
) -> Result<(Vec<Member<'a>>, &'a [u8]), PartError>
    ensures read { MatchResult result (λ r. ObjectAt bytes.now (members_of r.0) r.1.now) (Shows (ObjectFault bytes.now)) }
    ensures shorter { IfOk result (λ r. length r.1.now < length bytes.now) }
{
    list(Kind::Object, Fault::NoObject, alloc, bytes, scratch, spare)
}

/// Objects one after another, to the end.
fn lines<'a>(
    alloc: Global,
    bytes: &'a [u8],
    scratch: &mut Vec<u8>,
    spare: &mut Spare<'a>,
) -> Result<Vec<Vec<Member<'a>>>, PartError>
    ensures { MatchResult result (λ all. AreLines bytes.now (objects_of all)) (Shows (LinesFault bytes.now)) }
{
    let mut objects = Vec::new(alloc);
    let mut rest = bytes;
    'lines: loop {
        let first = behind_space(rest);
        if first.is_empty() {
            return Ok(objects);
        }
        let (found, behind) = object(alloc, first, scratch, spare)?;
        objects.push(found)?;
        rest = behind;
    }
}

/// The objects that bytes are: those of one array, or one after another.
pub(crate) fn records<'a>(
    alloc: Global,
    bytes: &'a [u8],
    scratch: &mut Vec<u8>,
    spare: &mut Spare<'a>,
) -> Result<Vec<Vec<Member<'a>>>, PartError>
    ensures { MatchResult result (λ all. IsRecords bytes.now (objects_of all)) (Shows (RecordsFault bytes.now)) }
{
    let first = behind_space(bytes);
    let Some(_inner) = behind_byte(91, first) else {
        let all = lines(alloc, bytes, scratch, spare)?;
        return Ok(all);
    };
    whole_array(alloc, bytes, scratch, spare)
}

/// The objects that bytes mean as JSON: those of one array, or one after another with whitespace between them or not.
/// A byte order mark in front is passed over.
///
/// The text of a string is what it stands for, a number's is as it is written, `null` has the empty one, and that of
/// an array or an object in an object is the JSON itself, as it is written. Members are in the order in which they
/// stand, also where two have one key. Texts are lent, by the bytes or, where an escape stands in one, by the room.
///
/// Of this project.
pub fn read<'a>(
    alloc: Global,
    bytes: &'a [u8],
    room: &'a mut Room,
) -> Result<Vec<Vec<Member<'a>>>, ReadError>
    ensures records { IfOk result (λ all. MeansRecords bytes.now (objects_of all)) }

    // A fault is told where it shows first, and no objects are the meaning of these bytes.
    ensures fault { IfErr result (AtFault (IsFault bytes.now)) }
    ensures place { IfErr result (AtFault (λ line column fault. IsPlace (behind_mark bytes.now) line column)) }
    ensures none { IfErr result (AtFault (λ line column fault. MeansNoRecords bytes.now)) }
{
    let text = behind_mark(bytes);
    let mut scratch = Vec::new(alloc);
    match records(alloc, text, &mut scratch, &mut Spare::new(room)) {
        Ok(objects) => Ok(objects),
        Err(error) => Err(told(text, error)),
    }
}
