// Rule 2: who must stand before whom. Pages are named by their rank in ticket order; `pages` has the page of each rank.
ghost use Rattle.std.specs.Prelude.{◌≡◌, not, ◌&&◌, ◌||◌, ℕ, ◌<◌, length, get_or, eqb, ltb};
ghost use Rattle.lists.specs.Members.{any};
ghost use Rattle.sets.specs.Set.{member};
ghost use Rattle.refusals.specs.Fault.{clear};
ghost use Rattle.ledger.specs.Tx.{keys_written, reader};
ghost use Rattle.ledger.specs.Page.{page_tx, page_fault};
ghost use Rattle.ledger.specs.Gate.{tx_at};
ghost use Rattle.planner.specs.Ranks.{demands, nth, Ranked};
ghost use Rattle.planning.specs.Plan.{before};

use ledger::{Page, layout};
use sets::Set;

// Puts a rank into the set of readers of each key that its page reads.
fn add_reads(page: Page<'_>, rank: usize, readers: &mut [Set])
    requires page_value { page_fault page.bytes.now ≡ clear }
    requires rank_bound { (rank < 64) × (length readers.old ≡ 1024) }
    ensures { (k j : ℕ) → k < 1024
        → member (get_or readers.new k 0) j
        ≡ (member (get_or readers.old k 0) j || (eqb rank j && reader (page_tx page.entry.bytes.now) k)) }
{
    for i in 0..page.reads() {
        let x = page.read(i);
        let key = x.key as usize;
        readers[key] = readers[key].with(rank);
    }
}

// The ranks that read each key.
fn all_readers(batch: &[u8], pages: &[u8]) -> [Set; layout::MOST_KEYS]
    requires { Ranked batch.now pages.now (length pages.now) }
    ensures { (k j : ℕ) → k < 1024
        → member (get_or result k 0) j ≡ (ltb j (length pages.now) && reader (tx_at batch.now (nth pages.now j)) k) }
{
    let mut readers = [Set::EMPTY; layout::MOST_KEYS];
    for (rank, page) in pages.iter().enumerate() {
        let bytes = layout::page_at(batch, *page as usize);
        add_reads(Page { bytes }, rank, &mut readers);
    }
    readers
}

// The readers of the keys that a page writes, without its own rank.
fn blockers_of(page: Page<'_>, rank: usize, readers: &[Set; layout::MOST_KEYS]) -> Set
    requires page_value { page_fault page.bytes.now ≡ clear }
    requires rank_bound { rank < 64 }
    ensures { (j : ℕ)
        → member result j
        ≡ (any (λ k. member (get_or readers.now k 0) j) (keys_written (page_tx page.entry.bytes.now))
        && not (eqb rank j)) }
{
    let mut all = Set::EMPTY;
    for i in 0..page.writes() {
        let x = page.write(i);
        let key = x.key as usize;
        all = all.union(readers[key]);
    }
    all.without(rank)
}

// For each rank the set of those that must stand before it. Stored by index: a walk over the sets would take
// the pages by index.
pub fn blockers(batch: &[u8], pages: &[u8]) -> [Set; layout::MOST_PAGES]
    requires { Ranked batch.now pages.now (length pages.now) }
    ensures { (r s : ℕ) → r < length pages.now → s < length pages.now
        → demands result r s
        ≡ before (tx_at batch.now) (nth pages.now r) (nth pages.now s) }
{
    let readers = all_readers(batch, pages);
    let mut blockers = [Set::EMPTY; layout::MOST_PAGES];
    for (rank, page) in pages.iter().enumerate() {
        let bytes = layout::page_at(batch, *page as usize);
        blockers[rank] = blockers_of(Page { bytes }, rank, &readers);
    }
    blockers
}
