// The pieces of a printed line, written into lent bytes behind the text that stands there: a number's digits, a number with a byte behind it, a word.
#![tactic(auto)]

ghost use Rattle.std.specs.Prelude.{◌+◌, ◌<◌, ◌≤◌, ◌≡◌, length};
ghost use Rattle.text.specs.Decimals.{decimal, field, glyph as Decimals·glyph};
ghost use Rattle.pieces.specs.Texts.{Adds};

// Lent bytes, and where the text in them ends. A piece is written there, and leaves the other bytes.
#[derive(Drop)]
pub struct Text<'a> {
    pub bytes: &'a mut [u8],
    pub end: usize,
}

impl<'a> Text<'a> {
    // No text yet.
    pub fn new(bytes: &'a mut [u8]) -> Text<'a>
        ensures { (result.bytes.ghost_name ≡ bytes.entry.ghost_name) × (result.bytes.now ≡ bytes.old) × (result.end ≡ 0) }
    {
        Text { bytes, end: 0 }
    }

    // A number, and one byte behind it.
    pub fn field(&mut self, n: u64, byte: u8)
        requires { self.old.end + 21 ≤ length self.old.bytes.now }
        ensures { Adds self.old (field n byte) self.new × (self.new.end ≤ self.old.end + 21) }
    {
        self.number(n);
        self.bytes[self.end] = byte;
        self.end += 1;
    }

    // A number's decimal digits: those before the last one first.
    // Kept: std's writer of digits (core::fmt::int) is private, and those of the kit's itoa and io are a dependency more, with a buffer of their own to copy from.
    pub fn number(&mut self, n: u64)
        requires { self.old.end + length (decimal n) ≤ length self.old.bytes.now }
        ensures { Adds self.old (decimal n) self.new }
    {
        if n >= 10 {
            self.number(n / 10);
        }
        self.bytes[self.end] = glyph(n % 10);
        self.end += 1;
    }

    // A word.
    pub fn word(&mut self, word: &[u8])
        requires { self.old.end + length word.now ≤ length self.old.bytes.now }
        ensures { Adds self.old word.now self.new }
    {
        let end = self.end + word.len();
        self.bytes[self.end..end].copy_from_slice(word);
        self.end = end;
    }
}

fn glyph(d: u64) -> u8
    requires { d < 10 }
    ensures { result ≡ Decimals·glyph d }
{
    b'0' + d as u8
}
