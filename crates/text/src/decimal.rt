// Decimal numerals, written and read.
ghost use Rattle.std.specs.Prelude.{◌≡◌, ◌++◌, ◌+◌, ◌%◌};
ghost use Rattle.text.specs.Decimal.{decimal, starts, numeral_of};
ghost use Rattle.text.specs.Puts.{Puts, Room};

use crate::writer::Writer;

fn digit(n: u64) -> u8
    ensures { result ≡ 48 + n % 10 }
{
    b'0' + (n % 10) as u8
}

impl<'a> Writer<'a> {
    pub fn put_decimal(&mut self, n: u64)
        requires { Room self.old.text.now self.old.at (decimal n) }
        ensures puts { Puts self.old.text.now self.old.at (decimal n) self.new.text.now self.new.at }
        ensures same_text { self.new.text.ghost_name ≡ self.old.text.ghost_name }
    {
        if n >= 10 {
            self.put_decimal(n / 10);
        }
        self.put_byte(digit(n));
    }

    // A phrase, and a numeral after it.
    pub fn put_counted(&mut self, word: &[u8], n: u64)
        requires { Room self.old.text.now self.old.at (word.now ++ decimal n) }
        ensures puts { Puts self.old.text.now self.old.at (word.now ++ decimal n) self.new.text.now self.new.at }
        ensures same_text { self.new.text.ghost_name ≡ self.old.text.ghost_name }
    {
        self.put_phrase(word);
        self.put_decimal(n);
    }
}

fn starts(bytes: &[u8]) -> bool
    ensures { result ≡ starts bytes.now }
{
    if bytes.len() < 2 {
        return bytes.len() == 1;
    }
    bytes[0] != b'0'
}

pub fn parse_decimal(bytes: &[u8]) -> Option<u64>
    ensures { result ≡ numeral_of bytes.now }
{
    if !starts(bytes) {
        return None;
    }
    let mut value = 0u64;
    for &b in bytes {
        if !b.is_ascii_digit() {
            return None;
        }
        let d = u64::from(b - b'0');
        value = value.checked_mul(10)?.checked_add(d)?;
    }
    Some(value)
}
