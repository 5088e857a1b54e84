// Reads what stands in a case, lowest byte first; what lies beyond its end counts as 0.
use ledger::{Read, Transaction, Version, Write};
use std::array;

// A case, read from a place on.
#[derive(Drop)]
pub struct Reader<'a> {
    case: &'a [u8],
    at: usize,
}

impl<'a> Reader<'a> {
    pub fn new(case: &'a [u8], at: usize) -> Reader<'a> {
        Reader { case, at }
    }

    fn byte(&mut self) -> u8 {
        let byte = self.case.get(self.at).copied().unwrap_or(0);
        self.at = self.at.saturating_add(1);
        byte
    }

    pub fn read<T: FromCase>(&mut self) -> T {
        T::from_case(self)
    }

    // A place or a length, which has four bytes.
    pub fn number(&mut self) -> usize {
        self.read::<u32>() as usize
    }

    // Whether just this list comes next.
    pub fn meets<T: FromCase + PartialEq + Drop>(&mut self, list: &[T]) -> bool {
        list.iter().all(|x| *x == self.read::<T>())
    }

    // Whether nothing is left, and nothing beyond the end was read.
    pub fn is_at_end(&self) -> bool {
        self.at == self.case.len()
    }
}

// What can stand in a case. An impl for each width, since the library converts by a function of each type.
pub trait FromCase {
    fn from_case(from: &mut Reader<'_>) -> Self;
}

impl FromCase for u8 {
    fn from_case(from: &mut Reader<'_>) -> u8 {
        from.byte()
    }
}

impl FromCase for u16 {
    fn from_case(from: &mut Reader<'_>) -> u16 {
        u16::from_le_bytes(from.read())
    }
}

impl FromCase for u32 {
    fn from_case(from: &mut Reader<'_>) -> u32 {
        u32::from_le_bytes(from.read())
    }
}

impl FromCase for u64 {
    fn from_case(from: &mut Reader<'_>) -> u64 {
        u64::from_le_bytes(from.read())
    }
}

impl FromCase for usize {
    fn from_case(from: &mut Reader<'_>) -> usize {
        usize::from_le_bytes(from.read())
    }
}

impl FromCase for i64 {
    fn from_case(from: &mut Reader<'_>) -> i64 {
        i64::from_le_bytes(from.read())
    }
}

impl<T: FromCase, const N: usize> FromCase for [T; N] {
    fn from_case(from: &mut Reader<'_>) -> [T; N] {
        array::from_fn(|_| from.read::<T>())
    }
}

// As on a page: the place of a version stands before its block.
impl FromCase for Version {
    fn from_case(from: &mut Reader<'_>) -> Version {
        let place = from.read();
        let block = from.read();
        Version { block, place }
    }
}

impl FromCase for Read {
    fn from_case(from: &mut Reader<'_>) -> Read {
        Read {
            key: from.read(),
            version: from.read(),
        }
    }
}

impl FromCase for Write {
    fn from_case(from: &mut Reader<'_>) -> Write {
        Write {
            key: from.read(),
            kind: from.read(),
            value: from.read(),
        }
    }
}

// Ticket, counts, then 32 reads and 32 writes, whatever the counts.
impl FromCase for Transaction {
    fn from_case(from: &mut Reader<'_>) -> Transaction {
        Transaction {
            ticket: from.read(),
            r: from.read(),
            w: from.read(),
            reads: from.read(),
            writes: from.read(),
        }
    }
}
