//! Bytes that are held until there are many to send.

ghost use Rattle.std.specs.Prelude.{◌≡◌, ◌∷◌, [], IfOk, MatchResult, None, Some, decimal, replicate};
ghost use Rattle.tabled_held.specs.Sent.{GrowsBy};

use crate::sending::write_all;
use std::alloc::{AllocError, Global};
use std::io::{self, Write};
use std::marker::Model;

/// How many bytes are held at most.
pub(crate) const ROOM: usize = 16_384;

/// Bytes that are held for a writer, and how it did so far: once it has failed, it gets no more, and its failure is kept.
/// Their room never grows.
///
/// Of this project.
// To put bytes into their places takes less time than to add them to a vector, which asks whether it has to grow.
#[derive(Drop)]
pub struct Held {
    room: Vec<u8>,
    len: usize,
    outcome: io::Result<()>,
}

impl Model for Held {
    ghost use Rattle.std.specs.Prelude.{◌≡◌, ◌≤◌, length, take};
    ghost use Rattle.std.specs.Result.{result_err};
    ghost use Rattle.tabled_held.specs.Sent.{Kept};
    ghost use Rattle.tabled_held.specs.declared.held.TheConstants.{ROOM};

    ghost Value = { Kept };

    ghost view = { λ a. record { bytes = take a.len a.room.items; failure = result_err a.outcome } };

    ghost invariant = { λ a. (a.len ≤ ROOM) × (length a.room.items ≡ ROOM) };
}

impl Held {
    /// Room where nothing is held, for a writer that has not failed.
    ///
    /// Of this project.
    pub fn new(alloc: Global) -> Result<Self, AllocError>
        ensures empty { IfOk result (λ held. held.bytes ≡ []) }
        ensures works { IfOk result (λ held. held.failure ≡ None) }
    {
        let room = Vec::from_elem(alloc, 0, ROOM)?;
        Ok(Held {
            room,
            len: 0,
            outcome: Ok(()),
        })
    }

    /// How the writer did so far. Once it has failed, each call tells this failure.
    pub(crate) fn outcome(&self) -> io::Result<()>
        ensures { MatchResult result (λ _. self.now.failure ≡ None) (λ failure. self.now.failure ≡ Some failure) }
    {
        self.outcome
    }

    /// Sends what is held.
    pub(crate) fn send<W: Write>(&mut self, writer: &mut W)
        ensures sends { GrowsBy (W.contents writer.old) self.old (W.contents writer.new) self.new [] }
        ensures empty { self.new.bytes ≡ [] }
    {
        if self.outcome.is_ok() {
            self.outcome = write_all(writer, &self.room[..self.len]);
        }
        self.len = 0;
    }

    /// Sends a byte, or holds it.
    #[inline(always)]
    pub(crate) fn push<W: Write>(&mut self, writer: &mut W, byte: u8)
        ensures { GrowsBy (W.contents writer.old) self.old (W.contents writer.new) self.new (byte ∷ []) }
    {
        match self.room.get_mut(self.len) {
            Some(place) => {
                *place = byte;
                self.len += 1;
            }
            None => self.send_after(writer, &[byte]),
        }
    }

    /// Holds bytes, or sends them after what is held, if there is no room.
    #[inline(always)]
    pub(crate) fn write<W: Write>(&mut self, writer: &mut W, bytes: &[u8])
        ensures { GrowsBy (W.contents writer.old) self.old (W.contents writer.new) self.new bytes.now }
    {
        if bytes.len() > ROOM - self.len {
            self.send_after(writer, bytes);
            return;
        }
        let end = self.len + bytes.len();
        self.room[self.len..end].copy_from_slice(bytes);
        self.len = end;
    }

    /// Holds a byte and bytes behind it, or sends them after what is held, if there is no room.
    // Together they are asked once whether they have room.
    #[inline(always)]
    pub(crate) fn write_behind<W: Write>(&mut self, writer: &mut W, byte: u8, bytes: &[u8])
        ensures { GrowsBy (W.contents writer.old) self.old (W.contents writer.new) self.new (byte ∷ bytes.now) }
    {
        if ROOM - self.len <= bytes.len() {
            self.send_each(writer, byte, bytes);
            return;
        }
        let start = self.len + 1;
        let end = start + bytes.len();
        self.room[self.len] = byte;
        self.room[start..end].copy_from_slice(bytes);
        self.len = end;
    }

    /// Sends a byte, or holds it, and then bytes behind it.
    #[inline(never)]
    fn send_each<W: Write>(&mut self, writer: &mut W, byte: u8, bytes: &[u8])
        ensures { GrowsBy (W.contents writer.old) self.old (W.contents writer.new) self.new (byte ∷ bytes.now) }
    {
        self.push(writer, byte);
        self.write(writer, bytes);
    }

    /// Holds a number's digits, or sends them, one after another.
    pub(crate) fn write_number<W: Write>(&mut self, writer: &mut W, number: usize)
        ensures { GrowsBy (W.contents writer.old) self.old (W.contents writer.new) self.new (decimal number) }
    {
        if number < 10 {
            self.push(writer, b'0' + number as u8);
            return;
        }
        self.write_number(writer, number / 10);
        self.push(writer, b'0' + (number % 10) as u8);
    }

    /// Sends bytes after what is held.
    #[inline(never)]
    fn send_after<W: Write>(&mut self, writer: &mut W, bytes: &[u8])
        ensures { GrowsBy (W.contents writer.old) self.old (W.contents writer.new) self.new bytes.now }
    {
        self.send(writer);
        if self.outcome.is_ok() {
            self.outcome = write_all(writer, bytes);
        }
    }

    /// Sends a byte many times, or holds it as often.
    #[inline(always)]
    pub(crate) fn repeat<W: Write>(&mut self, writer: &mut W, byte: u8, count: usize)
        ensures { GrowsBy (W.contents writer.old) self.old (W.contents writer.new) self.new (replicate count byte) }
    {
        if count == 0 {
            return;
        }
        if count > ROOM - self.len {
            for _ in 0..count {
                self.push(writer, byte);
            }
            return;
        }
        let end = self.len + count;
        self.room[self.len..end].fill(byte);
        self.len = end;
    }
}
