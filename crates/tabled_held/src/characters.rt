//! Characters that a pen draws.

ghost use Rattle.std.specs.Prelude.{◌≡◌, ◌∷◌, [], encode_utf8, replicate};
ghost use Rattle.tabled_held.specs.Runs.{run_of};

use crate::pen::Pen;
use crate::run::RUN;
use std::io::Write;

impl<'w, W: Write> Pen<'w, W> {
    ghost use Rattle.tabled_held.specs.Pens.{Draws};

    /// Draws a character.
    ///
    /// Of this project.
    #[inline(always)]
    pub fn draw(&mut self, c: char)
        ensures { Draws W.contents self.old self.new (c ∷ []) }
    {
        if c.is_ascii() {
            self.send_byte(c as u8);
        } else {
            self.draw_wide(c);
        }
    }

    /// Draws a character of some bytes.
    fn draw_wide(&mut self, c: char)
        ensures { Draws W.contents self.old self.new (c ∷ []) }
    {
        let mut bytes = [0; 4];
        self.send(c.encode_utf8(&mut bytes).as_bytes());
    }

    /// Draws a character whose bytes are known.
    ///
    /// Of this project.
    #[inline(always)]
    pub fn draw_known(&mut self, c: char, bytes: &[u8])
        requires { bytes.now ≡ encode_utf8 c }
        ensures { Draws W.contents self.old self.new (c ∷ []) }
    {
        if c.is_ascii() {
            self.send_byte(c as u8);
        } else {
            self.send(bytes);
        }
    }

    /// Draws a character many times. A run of it is known.
    ///
    /// Of this project.
    #[inline(always)]
    pub fn draw_many(&mut self, c: char, run: &[u8], count: usize)
        requires { run.now ≡ run_of c }
        ensures { Draws W.contents self.old self.new (replicate count c) }
    {
        for _ in 0..count / RUN {
            self.send(run);
        }
        self.send(&run[..count % RUN * (run.len() / RUN)]);
    }

    /// Draws blanks.
    ///
    /// Of this project.
    #[inline(always)]
    pub fn draw_blanks(&mut self, count: usize)
        ensures { Draws W.contents self.old self.new (replicate count 32) }
    {
        self.send_again(b' ', count);
    }

    /// Ends a line.
    ///
    /// Of this project.
    #[inline(always)]
    pub fn end_line(&mut self)
        ensures { Draws W.contents self.old self.new (10 ∷ []) }
    {
        self.send_byte(b'\n');
    }
}
