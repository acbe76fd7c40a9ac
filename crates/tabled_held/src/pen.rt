//! A pen: a writer, and what is held for it.

ghost use Rattle.std.specs.Prelude.{◌≡◌, ◌∷◌, [], decimal, is_some, replicate};

use crate::held::Held;
use std::io::{self, Write};
use std::marker::Model;

/// A writer, and what is held for it until it is much. Each call sends its bytes behind all those before, as far as a
/// contract can see: some are held until the pen is finished. Once the writer has failed, it gets no more. No call takes
/// memory, or flushes the writer.
///
/// Of this project.
#[derive(Drop)]
pub struct Pen<'w, W: Write> {
    writer: &'w mut W,
    held: Held,
}

impl<'w, W: Write> Model for Pen<'w, W> {
    ghost use Rattle.tabled_held.specs.Sent.{Writing};

    ghost Value = { Writing W };

    ghost view = { λ pen. record { writer = pen.writer; held = pen.held } };
}

impl<'w, W: Write> Pen<'w, W> {
    ghost use Rattle.tabled_held.specs.Pens.{IsDone, Sends};

    /// A pen for a writer.
    ///
    /// Of this project.
    pub fn new(writer: &'w mut W, held: Held) -> Self
        ensures same_writer { result.writer.ghost_name ≡ writer.entry.ghost_name }
        ensures unchanged { result.writer.now ≡ writer.old }
        ensures held { result.held ≡ held }
    {
        Pen { writer, held }
    }

    /// Sends bytes.
    ///
    /// Of this project.
    #[inline(always)]
    pub fn send(&mut self, bytes: &[u8])
        ensures { Sends W.contents self.old self.new bytes.now }
    {
        self.held.write(self.writer, bytes);
    }

    /// Sends a byte.
    ///
    /// Of this project.
    #[inline(always)]
    pub fn send_byte(&mut self, byte: u8)
        ensures { Sends W.contents self.old self.new (byte ∷ []) }
    {
        self.held.push(self.writer, byte);
    }

    /// Sends a byte, and bytes behind it.
    ///
    /// Of this project.
    #[inline(always)]
    pub fn send_behind(&mut self, byte: u8, bytes: &[u8])
        ensures { Sends W.contents self.old self.new (byte ∷ bytes.now) }
    {
        self.held.write_behind(self.writer, byte, bytes);
    }

    /// Sends a number's digits.
    ///
    /// Of this project.
    pub fn send_number(&mut self, number: usize)
        ensures { Sends W.contents self.old self.new (decimal number) }
    {
        self.held.write_number(self.writer, number);
    }

    /// Sends a byte many times.
    ///
    /// Of this project.
    #[inline(always)]
    pub fn send_again(&mut self, byte: u8, count: usize)
        ensures { Sends W.contents self.old self.new (replicate count byte) }
    {
        self.held.repeat(self.writer, byte, count);
    }

    /// Says whether the writer has failed.
    ///
    /// Of this project.
    pub fn has_failed(&self) -> bool
        ensures { result ≡ is_some self.now.held.failure }
    {
        self.held.outcome().is_err()
    }

    /// Sends what is held, and gives the writer back, and how it did.
    ///
    /// Of this project.
    pub fn finish(self) -> (&'w mut W, io::Result<()>)
        ensures { IsDone W.contents self.entry result.0 result.1 }
    {
        let Pen { writer, mut held } = self;
        held.send(writer);
        let outcome = held.outcome();
        (writer, outcome)
    }
}
