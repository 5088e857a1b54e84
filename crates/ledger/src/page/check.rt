// The check of a page, on the bytes where they lie. Only a page that is not good is searched for its first fault and
// for the byte that shows it: each search gives where it stopped.
ghost use Rattle.std.specs.Prelude.{◌≡◌, ◌+◌, ◌*◌, get_or, ◌∷◌};
ghost use Rattle.lists.specs.Search.{found_in};
ghost use Rattle.refusals.specs.Fault.{first, finding};
ghost use Rattle.refusals.specs.Outcome.{outcome, number_of};
ghost use Rattle.ledger.specs.Tx.{out_of_turn};
ghost use Rattle.ledger.specs.Page.{page_tx, length_row, head_rows, entry_rows};
ghost use Rattle.ledger.specs.Listed.{listed, rows_of};
ghost use Rattle.ledger.specs.Services.{check_page};

use crate::page::entries::Entries;
use crate::page::entry::PageEntry;
use crate::page::{counts, good};
use crate::{Counts, Page, layout, rules};
use octets::{bytes, weight};
use refusals::{Reason, Refusal};

// 1 to 5: the length, the check, the mark and the counts.
fn head_fault(page: &[u8]) -> Result<(), Refusal>
    ensures { finding result ≡ first (length_row page.now ∷ head_rows page.now) }
{
    if page.len() != layout::PAGE {
        return Err(Reason::PageLength.at(0));
    }
    if weight::weigh(page) != bytes::le4(page, layout::CHECK) {
        return Err(Reason::Check.at(layout::CHECK as u32));
    }
    if page[0] != layout::MARK {
        return Err(Reason::Mark.at(0));
    }
    if page[layout::ZERO] != 0 {
        return Err(Reason::Mark.at(layout::ZERO as u32));
    }
    counts::count_fault(
        page[layout::READ_COUNT] as usize,
        page[layout::WRITE_COUNT] as usize,
    )
}

impl<E: PageEntry> Entries<'_, E> {
    // The first entry whose key is out of turn.
    fn first_key(&self) -> Option<usize>
        ensures { let xs = listed E.at E.SIZE self.now.page.now self.now.from self.now.count in
            result ≡ found_in (out_of_turn (λ i. E.key (get_or xs i E.NONE))) 0 self.now.count }
    {
        let mut floor: u32 = 0;
        for i in 0..self.count {
            let key = self.get(i).key();
            if rules::key_wrong(floor, key) {
                return Some(i);
            }
            floor = (key as u32) + 1;
        }
        None
    }

    // The first entry that is wrong behind its key.
    fn first_wrong(&self) -> Option<usize>
        ensures { let xs = listed E.at E.SIZE self.now.page.now self.now.from self.now.count in
            result ≡ found_in (λ i. E.wrong (get_or xs i E.NONE)) 0 self.now.count }
    {
        for i in 0..self.count {
            if self.get(i).is_wrong() {
                return Some(i);
            }
        }
        None
    }

    // 6 and 7, or 8 and 9. A key is told at its first byte, what stands behind it at the byte after the key.
    fn fault(&self) -> Result<(), Refusal>
        ensures { finding result
            ≡ first (rows_of (number_of E.KEYS) (number_of E.FORM) (λ i. self.now.from + E.SIZE * i) E.NONE E.key E.wrong
            (listed E.at E.SIZE self.now.page.now self.now.from self.now.count)) }
    {
        if let Some(i) = self.first_key() {
            return Err(E::KEYS.at((self.from + E::SIZE * i) as u32));
        }
        if let Some(i) = self.first_wrong() {
            let at = self.from + E::SIZE * i + layout::KEY;
            return Err(E::FORM.at(at as u32));
        }
        Ok(())
    }
}

// 6 to 9: the entries, searched only where they are not good.
pub(crate) fn entry_fault(page: Page<'_>) -> Result<(), Refusal>
    ensures { finding result ≡ first (entry_rows (page_tx page.entry.bytes.now)) }
{
    if good::entries_good(page) {
        return Ok(());
    }
    page.all_reads().fault()?;
    page.all_writes().fault()
}

// The exact check: the tests in turn, up to the first that fails.
fn exactly(bytes: &[u8]) -> Result<Counts, Refusal>
    ensures { outcome result ≡ check_page bytes.now }
{
    head_fault(bytes)?;
    let page = Page { bytes };
    entry_fault(page)?;
    let spare = layout::spare_at(page.reads(), page.writes());
    let set = bytes::first_set(bytes, spare, layout::CHECK);
    if set < layout::CHECK {
        return Err(Reason::SpareByte.at(set as u32));
    }
    Ok(page.counts())
}

// Checks a page of any length: refusals 1 to 10 in turn, asked only of a page that is not good.
pub fn check_page(bytes: &[u8]) -> Result<Counts, Refusal>
    ensures { outcome result ≡ check_page bytes.now }
{
    if !good::good(bytes) {
        return exactly(bytes);
    }
    let page = Page { bytes };
    Ok(page.counts())
}
