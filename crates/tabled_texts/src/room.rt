//! Memory for texts that are lent.

ghost use Rattle.std.specs.Prelude.{◌≡◌, ◌-◌, ◌≤◌, IfOk, IsOk, OnErr, OnOk, length};

use std::alloc::{AllocError, Global};
use std::marker::Model;
use std::mem;

/// How many bytes the first part has at least. Each other one has twice as many as the one before.
const FIRST: usize = 4096;

/// How many parts there are: all of them together would be longer than any memory.
const PARTS: usize = 64;

/// Memory for texts that don't stand in what is read as they are. It is lent to them, and is asked for as they are made, in
/// parts that are each twice as long as the one before.
///
/// Of this project.
#[derive(Drop)]
pub struct Room {
    parts: Vec<Vec<u8>>,
}

impl Room {
    /// Room that has no memory for texts yet, but for a list of its parts, which are empty. Refused where there is none
    /// for this list.
    ///
    /// Of this project.
    pub fn new(alloc: Global) -> Result<Self, AllocError> {
        let mut parts = Vec::with_capacity(alloc, PARTS)?;
        for _ in 0..PARTS {
            parts.push(Vec::new(alloc))?;
        }
        Ok(Room { parts })
    }
}

/// What is left of a room. A contract sees how many bytes can be had with no more memory.
///
/// Of this project.
#[derive(Drop)]
pub struct Spare<'a> {
    bytes: &'a mut [u8],
    parts: &'a mut [Vec<u8>],
    next: usize,
}

impl<'a> Model for Spare<'a> {
    ghost use Rattle.std.specs.Prelude.{ℕ, length};

    ghost Value = { ℕ };

    ghost view = { λ s. length s.bytes.now };
}

impl<'a> Spare<'a> {
    /// All of a room: each byte is still to be asked for.
    ///
    /// Of this project.
    pub fn new(room: &'a mut Room) -> Self
        ensures { result ≡ 0 }
    {
        Spare {
            bytes: &mut [],
            parts: room.parts.as_mut_slice(),
            next: FIRST,
        }
    }

    /// Sees to it that so many bytes can be had.
    fn hold(&mut self, len: usize) -> Result<(), AllocError>
        ensures held { OnOk result (len ≤ self.new) }
        ensures same { OnOk result (len ≤ self.old → self.new ≡ self.old) }
        ensures promised { len ≤ self.old → IsOk result }
        ensures refused { OnErr result (self.new ≡ self.old) }
    {
        if len <= self.bytes.len() {
            return Ok(());
        }
        let Some((part, parts)) = mem::take(&mut self.parts).split_first_mut() else {
            return Err(AllocError);
        };
        self.parts = parts;
        part.resize(len.max(self.next), 0)?;
        self.bytes = part.as_mut_slice();
        self.next = self.next.saturating_mul(2);
        Ok(())
    }

    /// So many bytes for a text. Refused, as many can be had as before.
    ///
    /// Of this project.
    pub fn take(&mut self, len: usize) -> Result<&'a mut [u8], AllocError>
        ensures long { IfOk result (λ bytes. length bytes.now ≡ len) }

        // Where so many can be had, no memory is taken.
        ensures left { OnOk result (len ≤ self.old → self.new ≡ self.old - len) }
        ensures promised { len ≤ self.old → IsOk result }
        ensures refused { OnErr result (self.new ≡ self.old) }
    {
        self.hold(len)?;
        let (bytes, rest) = mem::take(&mut self.bytes).split_at_mut(len);
        self.bytes = rest;
        Ok(bytes)
    }
}
