// Whether a page has no fault: one question, which nearly every page answers with yes.
ghost use Rattle.std.specs.Prelude.{◌≡◌, ◌+◌, ◌*◌};
ghost use Rattle.refusals.specs.Fault.{first, is_clear};
ghost use Rattle.refusals.specs.Outcome.{number_of};
ghost use Rattle.ledger.specs.Page.{page_tx, page_fault, entry_rows};
ghost use Rattle.ledger.specs.Listed.{listed, rows_of};
ghost use Rattle.ledger.specs.Good.{framed, closed};

use crate::page::counts;
use crate::page::entries::Entries;
use crate::page::entry::PageEntry;
use crate::{Page, layout};
use octets::{bytes, weight};

// 1 and 3 to 5: the length, the mark, byte 3 and the counts.
fn framed(page: &[u8]) -> bool
    ensures { result ≡ framed page.now }
{
    if page.len() != layout::PAGE {
        return false;
    }
    if page[0] != layout::MARK {
        return false;
    }
    if page[layout::ZERO] != 0 {
        return false;
    }
    let r = page[layout::READ_COUNT] as usize;
    let w = page[layout::WRITE_COUNT] as usize;
    counts::count_fault(r, w).is_ok()
}

// 2 and 10: no spare byte is set, and the check is the sum of the bytes that are used.
fn closed(page: Page<'_>) -> bool
    ensures { result ≡ closed page.entry.bytes.now }
{
    let spare = layout::spare_at(page.reads(), page.writes());
    if bytes::any_set(page.bytes, spare, layout::CHECK) {
        return false;
    }
    weight::weigh_used(page.bytes, spare) == bytes::le4(page.bytes, layout::CHECK)
}

impl<E: PageEntry> Entries<'_, E> {
    // 6 and 7, or 8 and 9: one search over the entries. Keys that rise are at most 1023 where the last one is.
    fn are_good(&self) -> bool
        ensures { result
            ≡ is_clear (first (rows_of (number_of E.KEYS) (number_of E.FORM) (λ i. self.now.from + E.SIZE * i) E.NONE E.key E.wrong
            (listed E.at E.SIZE self.now.page.now self.now.from self.now.count))) }
    {
        if self.count == 0 {
            return true;
        }
        let last = self.get(self.count - 1);
        if last.key() > layout::LAST_KEY {
            return false;
        }
        let mut floor: u32 = 0;
        for i in 0..self.count {
            let entry = self.get(i);
            let key = entry.key() as u32;
            if key < floor {
                return false;
            }
            if entry.is_wrong() {
                return false;
            }
            floor = key + 1;
        }
        true
    }
}

// 6 to 9: the entries.
pub(crate) fn entries_good(page: Page<'_>) -> bool
    ensures { result ≡ is_clear (first (entry_rows (page_tx page.entry.bytes.now))) }
{
    page.all_reads().are_good() && page.all_writes().are_good()
}

// Whether a page has no fault: what nearly every page is asked.
pub(crate) fn good(bytes: &[u8]) -> bool
    ensures { result ≡ is_clear (page_fault bytes.now) }
{
    if !framed(bytes) {
        return false;
    }
    let page = Page { bytes };
    closed(page) && entries_good(page)
}
