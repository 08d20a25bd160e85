// Text written to the front of a lent buffer, where it stays.
ghost use Rattle.std.specs.Prelude.{◌≡◌, ◌≤◌, length, decimal};

use itoa::write_digits;

#[derive(Drop)]
pub(crate) struct Page<'a> {
    pub(crate) buffer: &'a mut [u8],
    // Where what is written ends.
    pub(crate) end: usize,
    ghost within: { end ≤ length buffer.now },
}

// What writes a line is written out where it is called, so that the end of the text need not be read back after each byte.
impl Page<'_> {
    ghost use Rattle.std.specs.Prelude.{◌+◌, [], ◌∷◌};
    ghost use Rattle.listing.specs.Listing.{fields};
    ghost use Rattle.listing.specs.Put.{Wrote};

    #[inline(always)]
    pub(crate) fn byte(&mut self, byte: u8)
        requires { self.old.end + 1 ≤ length self.old.buffer.now }
        ensures { Wrote (byte ∷ []) self.old self.new }
    {
        self.buffer[self.end] = byte;
        self.end += 1;
    }

    pub(crate) fn text(&mut self, text: &[u8])
        requires { self.old.end + length text.now ≤ length self.old.buffer.now }
        ensures { Wrote text.now self.old self.new }
    {
        let end = self.end + text.len();
        self.buffer[self.end..end].copy_from_slice(text);
        self.end = end;
    }

    // A number in decimal.
    #[inline(always)]
    pub(crate) fn number(&mut self, n: u32)
        requires { self.old.end + length (decimal n) ≤ length self.old.buffer.now }
        ensures { Wrote (decimal n) self.old self.new }
    {
        let end = self.end + count_digits(n);
        write_digits(u64::from(n), self.buffer, end);
        self.end = end;
    }

    // The fields of a line after its first, and the end of the line.
    #[inline(always)]
    pub(crate) fn fields(&mut self, numbers: &[u32])
        requires { self.old.end + length (fields numbers.now) ≤ length self.old.buffer.now }
        ensures { Wrote (fields numbers.now) self.old self.new }
    {
        for n in numbers {
            self.byte(b' ');
            self.number(*n);
        }
        self.byte(b'\n');
    }

    // A line of a letter and numbers.
    #[inline(always)]
    pub(crate) fn lettered(&mut self, letter: u8, numbers: &[u32])
        requires { self.old.end + (1 + length (fields numbers.now)) ≤ length self.old.buffer.now }
        ensures { Wrote (letter ∷ fields numbers.now) self.old self.new }
    {
        self.byte(letter);
        self.fields(numbers);
    }
}

// How many digits a number has in decimal.
fn count_digits(n: u32) -> usize
    ensures { result ≡ length (decimal n) }
{
    n.checked_ilog10().unwrap_or(0) as usize + 1
}
