// What a page holds, read where it lies.
ghost use Rattle.std.specs.Prelude.{◌≡◌, ◌+◌, ◌≤◌, ◌<◌, length};
ghost use Rattle.ledger.specs.Tx.{read_of, write_of};
ghost use Rattle.ledger.specs.Page.{page_tx, write_at};
ghost use Rattle.ledger.specs.Inner.{Counted};

use crate::page::entry::PageEntry;
use crate::{Counts, Read, Write, layout};
use octets::bytes;

// The bytes of a page whose counts are good. That all of it is good is a clause of the three functions that need it: a second
// type would be longer.
#[derive(Clone, Copy)]
pub struct Page<'a> {
    pub bytes: &'a [u8],
    ghost counted: { Counted bytes.now },
}

// The ticket of bytes that are no `Page` yet: the gate takes it before it looks at the page.
pub fn ticket(page: &[u8]) -> u32
    requires { 8 ≤ length page.now }
    ensures { result ≡ (page_tx page.now).ticket }
{
    bytes::le4(page, layout::TICKET)
}

// The write in the bytes from `at` on.
pub fn write_at(page: &[u8], at: usize) -> Write
    requires { at + 12 ≤ length page.now }
    ensures { result ≡ write_at page.now at }
{
    Write {
        key: bytes::le2(page, at),
        kind: bytes::le2(page, at + 2),
        value: bytes::signed(bytes::le8(page, at + 4)),
    }
}

impl Page<'_> {
    // The ticket.
    pub fn ticket(self) -> u32
        ensures { result ≡ (page_tx self.entry.bytes.now).ticket }
    {
        ticket(self.bytes)
    }

    // How many reads there are.
    pub fn reads(self) -> usize
        ensures { result ≡ length (page_tx self.entry.bytes.now).reads }
    {
        self.bytes[layout::READ_COUNT] as usize
    }

    // How many writes there are.
    pub fn writes(self) -> usize
        ensures { result ≡ length (page_tx self.entry.bytes.now).writes }
    {
        self.bytes[layout::WRITE_COUNT] as usize
    }

    // Both counts.
    pub(crate) fn counts(self) -> Counts
        ensures { let x = page_tx self.entry.bytes.now in
            result ≡ record { reads = length x.reads; writes = length x.writes } }
    {
        Counts {
            reads: self.reads() as u32,
            writes: self.writes() as u32,
        }
    }

    // Read `i`.
    pub fn read(self, i: usize) -> Read
        requires { i < length (page_tx self.bytes.now).reads }
        ensures { result ≡ read_of (page_tx self.entry.bytes.now).reads i }
    {
        Read::at(self.bytes, layout::read_start(i))
    }

    // Write `i`.
    pub fn write(self, i: usize) -> Write
        requires { i < length (page_tx self.bytes.now).writes }
        ensures { result ≡ write_of (page_tx self.entry.bytes.now).writes i }
    {
        write_at(self.bytes, layout::write_start(self.reads(), i))
    }
}
