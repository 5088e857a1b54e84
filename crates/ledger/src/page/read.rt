// Reading a page into a transaction by value.
ghost use Rattle.std.specs.Prelude.{◌≡◌, ◌++◌, ◌-◌, length, replicate};
ghost use Rattle.octets.specs.Bytes.{Small};
ghost use Rattle.ledger.specs.Tx.{padded, TransactionFits};
ghost use Rattle.ledger.specs.Page.{page_tx};
ghost use Rattle.ledger.specs.Listed.{listed};
ghost use Rattle.ledger.specs.Services.{taken, read_page};

use crate::page::check;
use crate::page::entries::Entries;
use crate::page::entry::PageEntry;
use crate::{Page, Transaction, layout};
use refusals::Refusal;

impl<E: PageEntry> Entries<'_, E> {
    // The entries, and zeros beyond them.
    fn to_array(&self) -> [E; layout::MOST_ENTRIES]
        ensures { let xs = listed E.at E.SIZE self.now.page.now self.now.from self.now.count in
            result ≡ xs ++ replicate (32 - length xs) E.NONE }
    {
        let mut xs = [E::NONE; layout::MOST_ENTRIES];
        for i in 0..self.count {
            xs[i] = self.get(i);
        }
        xs
    }
}

// The transaction on a page of good counts.
fn transaction(page: Page<'_>) -> Transaction
    ensures { result ≡ padded (page_tx page.entry.bytes.now) }
{
    let reads = page.all_reads().to_array();
    let writes = page.all_writes().to_array();
    Transaction {
        ticket: page.ticket(),
        r: page.reads(),
        w: page.writes(),
        reads,
        writes,
    }
}

// Reads a page of any length: refusals 1 to 10 in turn.
pub fn read_page(bytes: &[u8]) -> Result<Transaction, Refusal>
    ensures { taken result ≡ read_page bytes.now }
{
    check::check_page(bytes)?;
    let page = Page { bytes };
    Ok(transaction(page))
}

// A value of the program is within the ranges of its types.
pub fn fitted(t: Transaction)
    ensures { TransactionFits t }
{}

// Nothing: at a call, a proof is told what each lent slice holds.
fn told() {}

// Any slice of bytes holds bytes.
pub fn small(page: &[u8])
    ensures { Small page.now }
{
    told();
}
