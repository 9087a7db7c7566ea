// Text of at most 512 bytes; what goes beyond is left out.
// No `fmt::Write`, whose calls return a `Result`: adding to a text can't fail.
ghost use Rattle.std.specs.Prelude.{◌≡◌, ◌≤◌, [], ◌∷◌, ◌++◌, decimal, length};
ghost use Rattle.text.specs.Texts.{cut};

use std::marker::Model;

// No `String` or `ArrayString`: nothing is on the heap, a text is `Copy`, and what fits may end inside a letter.
#[derive(Clone, Copy)]
pub struct Text {
    bytes: [u8; 512],
    len: usize,
}

// Clauses see the bytes that were written. The others are 0, so that these give the fields back, as `Copy` wants.
impl Model for Text {
    ghost use Rattle.std.specs.Prelude.{ℕ, List, length, take};
    ghost use Rattle.text.specs.Texts.{padded, Padded};
    ghost use Rattle.text.specs.Padding.{fields_back};

    ghost Value = { List ℕ };

    ghost view = { λ t. take t.len t.bytes };

    ghost invariant = { λ t. Padded t.len t.bytes };

    ghost inverse = { λ bs. record { bytes = padded bs; len = length bs } };

    ghost inverse_ok = { λ t p. fields_back t p };
}

impl Text {
    pub fn new() -> Text
        ensures { result ≡ [] }
    {
        Text {
            bytes: [0; 512],
            len: 0,
        }
    }

    fn push(&mut self, byte: u8)
        ensures { self.new ≡ cut (self.old ++ (byte ∷ [])) }
    {
        if self.len < 512 {
            self.bytes[self.len] = byte;
            self.len += 1;
        }
    }

    // Adds a word.
    pub fn word(&mut self, word: &str)
        ensures { self.new ≡ cut (self.old ++ word.now) }
    {
        let bytes = word.as_bytes();
        let added = bytes.len().min(512 - self.len);
        let end = self.len + added;
        self.bytes[self.len..end].copy_from_slice(&bytes[..added]);
        self.len = end;
    }

    // Adds a number in decimal.
    pub fn number(&mut self, n: u64)
        ensures { self.new ≡ cut (self.old ++ decimal n) }
    {
        if n >= 10 {
            self.number(n / 10);
        }
        self.push(b'0' + (n % 10) as u8);
    }

    pub fn as_bytes(&self) -> &[u8]
        ensures bytes { result.now ≡ self.now }
        ensures fits { length self.now ≤ 512 }
    {
        &self.bytes[..self.len]
    }
}

#[cfg(test)]
mod tests {
    use crate::text::Text;

    #[test]
    fn words_and_numbers(rt: HostRuntime) {
        let mut text = Text::new();
        text.word("rest ");
        text.number(0);
        text.word(" ");
        text.number(18_446_744_073_709_551_615);
        assert!(rt; text.as_bytes() == b"rest 0 18446744073709551615".as_slice());
    }

    #[test]
    fn no_more_than_512_bytes(rt: HostRuntime) {
        let mut text = Text::new();
        for _ in 0..512 {
            text.word("a");
        }
        text.number(7);
        let bytes = text.as_bytes();
        assert!(rt; bytes.len() == 512);
        assert!(rt; bytes.last() == Some(&b'a'));
    }
}
