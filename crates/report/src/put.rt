// What the lines are made of, each put behind the text that a lent buffer holds so far. Part by part: no clause
// of the library's `write!` says that it succeeds, which the listing's promise needs. The room that a part needs is a clause,
// another for each part.
ghost use Rattle.std.specs.Prelude.{◌+◌, ◌≤◌, ◌≡◌, [], ◌∷◌, length};
ghost use Rattle.tonnage.specs.Text.{text_of};
ghost use Rattle.report.specs.Put.{Puts};
ghost use Rattle.report.specs.Listing.{decimal, verdict_word};

use tonnage::digits;

// The word of a verdict: its letters in front, and how many they are.
#[derive(Clone, Copy)]
struct Word {
    text: [u8; 6],
    length: usize,
}

// The words of the verdicts from 0 on: document 01's fixed table.
const WORDS: [Word; 4] = [
    Word {
        text: *b"kept  ",
        length: 4,
    },
    Word {
        text: *b"stale ",
        length: 5,
    },
    Word {
        text: *b"cycle ",
        length: 5,
    },
    Word {
        text: *b"failed",
        length: 6,
    },
];

// The text in front of a lent buffer, and where it ends.
#[derive(Drop)]
pub struct Text<'a> {
    pub out: &'a mut [u8],
    pub end: usize,
}

impl<'a> Text<'a> {
    // No text yet.
    pub fn new(out: &'a mut [u8]) -> Text<'a>
        ensures same_buffer { result.out.ghost_name ≡ out.entry.ghost_name }
        ensures empty { (result.end ≡ 0) × (result.out.now ≡ out.old) }
    {
        Text { out, end: 0 }
    }

    // One byte.
    pub fn put_byte(&mut self, byte: u8)
        requires { self.old.end + 1 ≤ length self.old.out.now }
        ensures { Puts 1 (byte ∷ []) self.old self.new }
    {
        self.out[self.end] = byte;
        self.end += 1;
    }

    // Bytes.
    pub fn put_bytes(&mut self, bytes: &[u8])
        requires { self.old.end + length bytes.now ≤ length self.old.out.now }
        ensures { Puts (length bytes.now) bytes.now self.old self.new }
    {
        let end = self.end + bytes.len();
        self.out[self.end..end].copy_from_slice(bytes);
        self.end = end;
    }

    // A number in decimal.
    pub fn put_number(&mut self, n: u32)
        requires { self.old.end + 10 ≤ length self.old.out.now }
        ensures { Puts 10 (decimal n) self.old self.new }
    {
        let count = digits::width(n as u64);
        digits::put(self.out, self.end, count, n as u64);
        self.end += count;
    }

    // The word of a verdict, a number as in a lent list; nothing for what is no verdict.
    pub fn put_word(&mut self, verdict: u8)
        requires { self.old.end + 6 ≤ length self.old.out.now }
        ensures { Puts 6 (verdict_word verdict) self.old self.new }
    {
        if let Some(word) = WORDS.get(verdict as usize) {
            self.put_bytes(&word.text[..word.length]);
        }
    }

    // A figure in tonnes.
    pub fn put_tonnes(&mut self, value: i64)
        requires { self.old.end + 25 ≤ length self.old.out.now }
        ensures { Puts 25 (text_of value) self.old self.new }
    {
        let written = tonnage::text::write_tonnage(&mut self.out[self.end..], value);
        if let Ok(length) = written {
            self.end += length;
        }
    }
}
