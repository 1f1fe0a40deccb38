// A place in a lent buffer, where bytes are put one after the other.
ghost use Rattle.std.specs.Prelude.{◌≤◌, length};

use crate::{put_decimal, put_text};

// The buffer, and the place of the next byte. A byte past the end of the buffer is left out.
#[derive(Drop)]
pub struct Cursor<'a> {
    pub out: &'a mut [u8],
    pub at: usize,
    ghost inside: { at ≤ length out.now },
}

impl<'a> Cursor<'a> {
    ghost use Rattle.text.specs.Cursors.{Puts};
    ghost use Rattle.text.specs.Text.{decimal};

    // Words, or any bytes as they are.
    pub fn text(&mut self, text: &[u8])
        ensures { Puts text.now self.old self.new }
    {
        self.at = put_text(self.out, self.at, text);
    }

    // A number in decimal.
    pub fn number(&mut self, n: u64)
        ensures { Puts (decimal n) self.old self.new }
    {
        self.at = put_decimal(self.out, self.at, n);
    }
}
