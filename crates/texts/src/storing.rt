// A room that is written from its front on: bytes of a text, numbers in decimal, and a number behind its label.
ghost use Rattle.std.specs.Prelude.{◌++◌};
ghost use Rattle.texts.specs.Texts.{decimal};
ghost use Rattle.texts.specs.Inner.StoredTexts.{HasRoom, Wrote};

use super::numbers;

// The room, and the place behind what is written.
#[derive(Drop)]
pub struct Writer<'a> {
    pub room: &'a mut [u8],
    pub at: usize,
}

impl Writer<'_> {
    // The bytes of a text.
    pub fn write_text(&mut self, text: &[u8])
        requires { HasRoom self.old text.now }
        ensures { Wrote self.old text.now self.new }
    {
        let end = self.at + text.len();
        self.room[self.at..end].copy_from_slice(text);
        self.at = end;
    }

    // The digits of x. The lowest is found first, so they are stored from the last place down. `write!` would want an `impl fmt::Write` for the room, with
    // an error where it is full, which it never is.
    pub fn write_decimal(&mut self, x: usize)
        requires { HasRoom self.old (decimal x) }
        ensures { Wrote self.old (decimal x) self.new }
    {
        let end = self.at + numbers::size_decimal(x);
        let digits = &mut self.room[self.at..end];
        let mut rest = x;
        for i in (0..digits.len()).rev() {
            digits[i] = b'0' + (rest % 10) as u8;
            rest /= 10;
        }
        self.at = end;
    }

    // A label and the number behind it.
    pub fn write_labelled(&mut self, label: &[u8], x: usize)
        requires { HasRoom self.old (label.now ++ decimal x) }
        ensures { Wrote self.old (label.now ++ decimal x) self.new }
    {
        self.write_text(label);
        self.write_decimal(x);
    }
}
