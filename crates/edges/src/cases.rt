// A case as it is unpacked; tools/edges.py says the same. First numbers, three of eight bytes and then of four: what the service
// is asked with (n, the page index or the kilograms); what must be given: count, figure, number, place; the lengths of the
// lists; where the sentence, the bytes that are lent to be read and the state's three lists end. Then the transaction that is
// lent and the one that must be given, the sentence, those bytes, the state, and last what must be left in each list that is
// lent for writing: the buffer of a page or a text; verdicts, order and out batch of a plan; verdicts and state of a commit;
// verdicts, order and state of the joined call.
use crate::given::Given;
use crate::readers::{FromCase, Reader};
use ledger::Transaction;

// Where the sentence stands.
const SENTENCE: usize = 1396;

// The lengths of the lists that are lent.
#[derive(Clone, Copy)]
pub struct Lengths {
    // Of the verdicts, or of the buffer of a page or a text.
    pub verdicts: usize,
    pub order: usize,
    pub out: usize,
    pub blocks: usize,
    pub places: usize,
    pub values: usize,
}

impl FromCase for Lengths {
    fn from_case(from: &mut Reader<'_>) -> Lengths {
        Lengths {
            verdicts: from.number(),
            order: from.number(),
            out: from.number(),
            blocks: from.number(),
            places: from.number(),
            values: from.number(),
        }
    }
}

// Where the parts of a case end that have no length of their own.
#[derive(Clone, Copy)]
struct Ends {
    sentence: usize,
    bytes: usize,
    blocks: usize,
    places: usize,
    values: usize,
}

impl FromCase for Ends {
    fn from_case(from: &mut Reader<'_>) -> Ends {
        Ends {
            sentence: from.number(),
            bytes: from.number(),
            blocks: from.number(),
            places: from.number(),
            values: from.number(),
        }
    }
}

impl FromCase for Given {
    fn from_case(from: &mut Reader<'_>) -> Given {
        Given {
            count: from.read(),
            figure: from.read(),
            number: from.read(),
            place: from.read(),
        }
    }
}

// A case: what a service is asked with and lent, and what it must give.
#[derive(Drop)]
pub struct Case<'a> {
    whole: &'a [u8],
    asked: u64,
    given: Given,
    pub lengths: Lengths,
    ends: Ends,
    pub lent: Transaction,
    pub due: Transaction,
}

impl<'a> Case<'a> {
    pub fn new(whole: &'a [u8]) -> Case<'a> {
        let mut from = Reader::new(whole, 0);
        Case {
            whole,
            asked: from.read(),
            given: from.read(),
            lengths: from.read(),
            ends: from.read(),
            lent: from.read(),
            due: from.read(),
        }
    }

    // A part of the case; nothing where the case ends before it does.
    fn part(&self, start: usize, end: usize) -> &'a [u8] {
        self.whole.get(start..end).unwrap_or(&[])
    }

    // The sentence that the case comes from.
    pub fn sentence(&self) -> &'a [u8] {
        self.part(SENTENCE, self.ends.sentence)
    }

    // The page, the batch or the text that is lent to be read.
    pub fn bytes(&self) -> &'a [u8] {
        self.part(self.ends.sentence, self.ends.bytes)
    }

    // The number of the batch.
    pub fn number(&self) -> u32 {
        (self.asked & 0xffff_ffff) as u32
    }

    // The index of the page.
    pub fn index(&self) -> usize {
        self.asked as usize
    }

    pub fn kilograms(&self) -> i64 {
        self.asked.cast_signed()
    }

    // The blocks of the state that is lent, and what follows them in the case, up to a number of them. A line for each list, as
    // each has its place and its type.
    pub fn blocks<const N: usize>(&self) -> [u32; N] {
        Reader::new(self.whole, self.ends.bytes).read()
    }

    // The same for its places.
    pub fn places<const N: usize>(&self) -> [u16; N] {
        Reader::new(self.whole, self.ends.blocks).read()
    }

    // The same for its values.
    pub fn values<const N: usize>(&self) -> [i64; N] {
        Reader::new(self.whole, self.ends.places).read()
    }

    // What must be left in the lists that are lent for writing.
    pub fn left(&self) -> Reader<'a> {
        Reader::new(self.whole, self.ends.values)
    }

    // Whether just this must be given, and the lists that are left were the same up to the end of the case.
    pub fn is_right(&self, given: Given, left: Reader<'_>) -> bool {
        left.is_at_end() && given == self.given
    }
}
