// The entries of one kind on a page, reads or writes, where they lie: each question about entries is asked once for both.
ghost use Rattle.std.specs.Prelude.{◌≡◌, ◌+◌, ◌*◌, ◌<◌, length, get_or};
ghost use Rattle.ledger.specs.Page.{read_at, write_at, page_tx};
ghost use Rattle.ledger.specs.Listed.{Lie, listed};

use crate::page::entry::PageEntry;
use crate::{Page, Read, Write, layout};
use std::marker::PhantomData;

// The entries of one kind on a page: `count` of them, the first at `from`.
#[derive(Drop)]
pub(crate) struct Entries<'a, E: PageEntry> {
    page: &'a [u8],
    pub(crate) from: usize,
    pub(crate) count: usize,
    kind: PhantomData<E>,
    ghost lie: { Lie page.now E.SIZE from count },
}

impl<E: PageEntry> Entries<'_, E> {
    // Entry `i`.
    pub(crate) fn get(&self, i: usize) -> E
        requires { i < self.now.count }
        ensures { result ≡ get_or (listed E.at E.SIZE self.now.page.now self.now.from self.now.count) i E.NONE }
    {
        E::at(self.page, self.from + E::SIZE * i)
    }
}

impl<'a> Page<'a> {
    // The reads, where they lie.
    pub(crate) fn all_reads(self) -> Entries<'a, Read>
        ensures starts { result.from ≡ 8 }
        ensures are { listed read_at 8 result.page.now result.from result.count ≡ (page_tx self.entry.bytes.now).reads }
    {
        Entries {
            page: self.bytes,
            from: layout::HEAD,
            count: self.reads(),
            kind: PhantomData,
        }
    }

    // The writes, which stand behind the reads.
    pub(crate) fn all_writes(self) -> Entries<'a, Write>
        ensures starts { result.from ≡ 8 + 8 * length (page_tx self.entry.bytes.now).reads }
        ensures are { listed write_at 12 result.page.now result.from result.count ≡ (page_tx self.entry.bytes.now).writes }
    {
        Entries {
            page: self.bytes,
            from: layout::writes_at(self.reads()),
            count: self.writes(),
            kind: PhantomData,
        }
    }
}
