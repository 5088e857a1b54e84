// Writing a page in place, in the middle of a lent batch.
ghost use Rattle.std.specs.Prelude.{◌≡◌};
ghost use Rattle.ledger.specs.Inner.{write_laid};
ghost use Rattle.ledger.specs.Services.{wrote_page, write_page};

use crate::page::{check, counts, fill};
use crate::{Page, Transaction, layout};
use refusals::{Reason, Refusal};

// Writes the bytes that are laid out, with their check, at a page index of a batch of any length: refusals 6 to 9, then 17.
// The entries are checked where they are laid out, so that a refusal leaves the batch as it was.
pub fn write_laid(batch: &mut [u8], index: usize, laid: Page<'_>) -> Result<(), Refusal>
    ensures { wrote_page result batch.new ≡ write_laid batch.old index laid.entry.bytes.now }
{
    check::entry_fault(laid)?;
    if index >= batch.len() / layout::PAGE {
        return Err(Reason::PageIndex.at(0));
    }
    let start = index * layout::PAGE;
    let end = start + layout::PAGE;
    fill::fill(&mut batch[start..end], laid.bytes);
    Ok(())
}

// Writes a page at a page index of a batch of any length: refusals 4 to 9, then 17.
pub fn write_page(batch: &mut [u8], index: usize, t: Transaction) -> Result<(), Refusal>
    ensures { wrote_page result batch.new ≡ write_page batch.old index t }
{
    counts::count_fault(t.r, t.w)?;
    let mut laid = [0u8; layout::PAGE];
    fill::lay(&mut laid, t);
    let page = Page { bytes: &laid };
    write_laid(batch, index, page)
}
