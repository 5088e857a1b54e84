// The version check and commit of a batch.
ghost use Rattle.std.specs.Prelude.{◌≡◌, false, ℕ, ◌≤◌, ◌<◌, length, get_or};
ghost use Rattle.ledger.specs.Page.{page_tx};
ghost use Rattle.ledger.specs.Tx.{wrong_kind};
ghost use Rattle.ledger.specs.State.{lent, held, SameLists, keys, versions};
ghost use Rattle.lists.specs.Tables.{tab};
ghost use Rattle.ledger.specs.Gate.{pages, tx_at};
ghost use Rattle.ledger.specs.Commit.{passes, left, write, after_page, committed, commit_batch};
ghost use Rattle.ledger.specs.Inner.{Level, Ready, Batch, Commitment, txs_in, applied};

use crate::page::content;
use crate::verdict::Verdict;
use crate::{Entry, Page, Stamp, State, StateMut, Version, Write, batch, layout, rules};
use refusals::Refusal;

// The verdicts of commit, as a lent list has them.
pub const PASSED: u8 = Verdict::PASSED as u8;

pub const FAILED: u8 = Verdict::Failed as u8;

// Whether each read of a page names the version that its key has. What the gate found of a page, and of a batch, is a clause
// here and below (`Ready`, `Batch`): it speaks of the page and of the state's keys, which no type of ours holds together.
pub fn passes(page: Page<'_>, state: State<'_>) -> bool
    requires ready { Ready (keys (lent state)) page.bytes.now }
    requires places_len { length state.places.now ≡ length state.blocks.now }
    ensures { result ≡ passes (versions (lent state.entry)) (page_tx page.entry.bytes.now) }
{
    for i in 0..page.reads() {
        let x = page.read(i);
        if !x.version.same(state.version(x.key as usize)) {
            return false;
        }
    }
    true
}

// What a write leaves: its value, which is 0 for a delete, under the stamp, which a delete marks.
fn left(x: Write, stamp: Stamp) -> Entry
    requires x_value { wrong_kind x ≡ false }
    requires place_bound { stamp.place ≤ 63 }
    ensures { result ≡ left stamp x }
{
    let version = if x.kind == rules::PUT {
        Version::at(stamp.number, stamp.place)
    } else {
        Version::deleted(stamp.number, stamp.place)
    };
    Entry {
        version,
        value: x.value,
    }
}

// Stores all that a page writes. Its counts are read once: a store could change them, for all that the compiler knows.
fn apply(page: Page<'_>, state: &mut StateMut<'_>, stamp: Stamp)
    requires ready { Ready (keys (held state.old)) page.bytes.now }
    requires level { Level (held state.old) }
    requires place_bound { stamp.place ≤ 63 }
    ensures same_lists { SameLists state.old state.new }
    ensures left { held state.new ≡ write stamp (held state.old) (page_tx page.entry.bytes.now).writes }
{
    let from = layout::writes_at(page.reads());
    for j in 0..page.writes() {
        let x = content::write_at(page.bytes, from + layout::WRITE * j);
        state.store(x.key as usize, left(x, stamp));
    }
}

// Commits one page at place i, and says whether it passes.
fn commit_page(page: Page<'_>, state: &mut StateMut<'_>, n: u32, i: u16) -> bool
    requires ready { Ready (keys (held state.old)) page.bytes.now }
    requires level { Level (held state.old) }
    requires i_bound { i ≤ 63 }
    ensures same_lists { SameLists state.old state.new }
    ensures value { result ≡ passes (versions (held state.old)) (page_tx page.entry.bytes.now) }
    ensures left_after { held state.new ≡ after_page n i (held state.old) (page_tx page.entry.bytes.now) }
{
    if !passes(page, state.lent()) {
        return false;
    }
    let stamp = Stamp {
        number: n,
        place: i,
    };
    apply(page, state, stamp);
    true
}

// Commits the pages in batch order, and gives the number that pass. Verdicts are stored by index, as tickets are.
fn commit_pages(batch: &[u8], state: &mut StateMut<'_>, n: u32, verdicts: &mut [u8]) -> usize
    requires batch { Batch (keys (held state.old)) batch.now (pages batch.now) }
    requires level { Level (held state.old) }
    requires enough { pages batch.now ≤ length verdicts.old }
    ensures same_lists { SameLists state.old state.new }
    ensures value { Commitment (tab (pages batch.now) (tx_at batch.now)) (held state.old) n verdicts.old result (held state.new) verdicts.new }
{
    let mut count = 0;
    for (i, bytes) in batch.chunks_exact(layout::PAGE).enumerate() {
        let page = Page { bytes };
        if commit_page(page, state, n, i as u16) {
            verdicts[i] = PASSED;
            count += 1;
        } else {
            verdicts[i] = FAILED;
        }
    }
    count
}

// Applies the pages that an order names, each at its place there: what committing them leaves where each of them passes.
pub fn apply_pages(batch: &[u8], order: &[u8], state: &mut StateMut<'_>, n: u32)
    requires batch { Batch (keys (held state.old)) batch.now (pages batch.now) }
    requires level { Level (held state.old) }
    requires few { length order.now ≤ 64 }
    requires by_index { (i : ℕ) → i < length order.now → get_or order.now i 0 < pages batch.now }
    ensures same_lists { SameLists state.old state.new }
    ensures left { held state.new ≡ applied n 0 (held state.old) (txs_in batch.now order.now (length order.now)) }
{
    for (i, index) in order.iter().enumerate() {
        let bytes = layout::page_at(batch, *index as usize);
        let page = Page { bytes };
        let place = i as u16;
        let stamp = Stamp { number: n, place };
        apply(page, state, stamp);
    }
}

// Commits a batch under the number n: the gate's refusals.
pub fn commit_batch(
    batch: &[u8],
    state: &mut StateMut<'_>,
    n: u32,
    verdicts: &mut [u8],
) -> Result<usize, Refusal>
    ensures same_lists { SameLists state.old state.new }
    ensures value { committed result (held state.new) verdicts.new ≡ commit_batch batch.now (held state.old) n verdicts.old }
{
    let m = batch.len() / layout::PAGE;
    let short = verdicts.len() < m;
    let mut tickets = [0u32; layout::MOST_PAGES];
    batch::gate_fault(batch, state.lent(), n, short, &mut tickets)?;
    Ok(commit_pages(batch, state, n, verdicts))
}
