// Text with words and numbers in decimal, in a caller's buffer.
#![tactic(auto)]

ghost use Rattle.std.specs.Prelude.{[], ◌∷◌};
ghost use Rattle.decimal.specs.Decimal.{digits, field};
ghost use Rattle.decimal.specs.Facts.{Appended, Room};

// A text in a buffer: its first `len` bytes. The bytes behind it are as they were.
#[derive(Drop)]
pub struct Text<'a> {
    pub out: &'a mut [u8],
    pub len: usize,
}

impl Text<'_> {
    // Appends the byte b.
    pub fn put_byte(&mut self, b: u8)
        requires { Room (b ∷ []) self.old }
        ensures { Appended (b ∷ []) self.old self.new }
    {
        self.out[self.len] = b;
        self.len += 1;
    }

    // Appends a word.
    pub fn put_word(&mut self, word: &[u8])
        requires { Room word.now self.old }
        ensures { Appended word.now self.old self.new }
    {
        let end = self.len + word.len();
        self.out[self.len..end].copy_from_slice(word);
        self.len = end;
    }

    // Appends the digits of x.
    pub fn put_decimal(&mut self, x: u64)
        requires { Room (digits x) self.old }
        ensures { Appended (digits x) self.old self.new }
    {
        if x < 10 {
            self.put_byte(48 + x as u8);
        } else {
            self.put_decimal(x / 10);
            self.put_byte(48 + (x % 10) as u8);
        }
    }

    // Appends a word and a number behind it.
    pub fn put_field(&mut self, word: &[u8], x: u64)
        requires { Room (field word.now x) self.old }
        ensures { Appended (field word.now x) self.old self.new }
    {
        self.put_word(word);
        self.put_decimal(x);
    }
}
