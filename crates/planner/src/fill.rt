// What a plan leaves in the lent lists.
ghost use Rattle.std.specs.Prelude.{◌≡◌, ◌++◌, ℕ, ◌*◌, ◌+◌, ◌≤◌, ◌<◌, length, get_or, drop, eqb, cond};
ghost use Rattle.lists.specs.Members.{any};
ghost use Rattle.sets.specs.Set.{member};
ghost use Rattle.lists.specs.Tables.{tab};
ghost use Rattle.planning.specs.Plan.{gathered};

use ledger::layout;
use ledger::verdict::Verdict;
use octets::bytes;
use sets::Set;

// The page indexes of an order, as a set.
pub fn placed(order: &[u8]) -> Set
    requires by_index { (j : ℕ) → j < length order.now → get_or order.now j 0 < 64 }
    ensures { (i : ℕ) → member result i ≡ any (eqb i) order.now }
{
    let mut set = Set::EMPTY;
    for page in order {
        set = set.with(*page as usize);
    }
    set
}

// The verdict of a page.
fn verdict(current: bool, kept: bool) -> Verdict
    ensures { result ≡ cond current (cond kept Verdict.Kept Verdict.Cycle) Verdict.Stale }
{
    if !current {
        return Verdict::Stale;
    }
    if kept { Verdict::Kept } else { Verdict::Cycle }
}

// Fills the verdicts, one for each page.
pub fn fill_verdicts(verdicts: &mut [u8], current: Set, kept: Set)
    requires { length verdicts.old ≤ 64 }
    ensures { verdicts.new
        ≡ tab (length verdicts.old) (λ i. cond (member current i) (cond (member kept i) 0 2) 1) }
{
    for (i, out) in verdicts.iter_mut().enumerate() {
        *out = verdict(current.has(i), kept.has(i)) as u8;
    }
}

// Fills the front of the out batch with the pages of the order. By place: of pieces that are lent to be written a proof knows the
// length and not what is in them.
pub fn fill_out(batch: &[u8], order: &[u8], out: &mut [u8])
    requires room { length order.now * 512 ≤ length out.old }
    requires by_index { (j : ℕ) → j < length order.now → get_or order.now j 0 * 512 + 512 ≤ length batch.now }
    ensures { out.new
        ≡ gathered batch.now order.now ++ drop (512 * length order.now) out.old }
{
    for (j, page) in order.iter().enumerate() {
        let start = j * layout::PAGE;
        let end = start + layout::PAGE;
        bytes::copy(layout::page_at(batch, *page as usize), &mut out[start..end]);
    }
}
