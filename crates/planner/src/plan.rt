// The plan of a batch.
ghost use Rattle.std.specs.Prelude.{◌≡◌, ◌&&◌, ℕ, ◌≤◌, ◌<◌, length, ltb};
ghost use Rattle.sets.specs.Set.{member};
ghost use Rattle.ledger.specs.State.{lent, keys, versions};
ghost use Rattle.ledger.specs.Gate.{pages, tx_at};
ghost use Rattle.ledger.specs.Inner.{Batch, TicketsOf};
ghost use Rattle.planner.specs.Ranks.{Differ, Planned};
ghost use Rattle.planning.specs.Plan.{current, short_lists, planned, plan_batch};

use crate::{admission, demand, fill, ranks, schedule};
use ledger::{Page, State, batch, commit, layout};
use refusals::Refusal;
use sets::Set;

// Rule 1: the current pages, as a set. What the gate found is a clause, as it speaks of the batch and of the state's keys.
fn current(batch: &[u8], state: State<'_>) -> Set
    requires batch { Batch (keys (lent state)) batch.now (pages batch.now) }
    requires places_len { length state.places.now ≡ length state.blocks.now }
    ensures { (i : ℕ)
        → member result i
        ≡ (ltb i (pages batch.now) && current (versions (lent state.entry)) (tx_at batch.now) i) }
{
    let mut set = Set::EMPTY;
    for (i, bytes) in batch.chunks_exact(layout::PAGE).enumerate() {
        if commit::passes(Page { bytes }, state) {
            set = set.with(i);
        }
    }
    set
}

// 14: whether the verdicts or the order are shorter than `m`.
pub fn lists_short(verdicts: &[u8], order: &[u8], m: usize) -> bool
    ensures { result ≡ short_lists m verdicts.now order.now }
{
    verdicts.len() < m || order.len() < m
}

// Rules 1 to 4 on a batch that the gate lets through: fills verdicts and order, and gives the kept count.
pub fn plan_pages(
    batch: &[u8],
    tickets: &[u32; layout::MOST_PAGES],
    state: State<'_>,
    verdicts: &mut [u8],
    order: &mut [u8],
) -> usize
    requires batch { Batch (keys (lent state)) batch.now (pages batch.now) }
    requires places_len { length state.places.now ≡ length state.blocks.now }
    requires differ { Differ batch.now (pages batch.now) }
    requires tickets_of { TicketsOf batch.now (pages batch.now) tickets.now }
    requires room { (pages batch.now ≤ length verdicts.old) × (pages batch.now ≤ length order.old) }
    ensures { Planned batch.now (versions (lent state.entry)) (pages batch.now) verdicts.old order.old result verdicts.new
        order.new }
{
    let m = batch.len() / layout::PAGE;
    let current = current(batch, state);
    let mut pages = [0u8; layout::MOST_PAGES];
    let count = ranks::by_ticket(current, m, tickets, &mut pages);
    let blockers = demand::blockers(batch, &pages[..count]);
    let kept = admission::admitted(&blockers, count);
    let k = schedule::fill_order(&blockers, kept, &pages, order);
    fill::fill_verdicts(&mut verdicts[..m], current, fill::placed(&order[..k]));
    k
}

// Plans a batch under the number n: the gate's refusals.
pub fn plan_batch(
    batch: &[u8],
    state: State<'_>,
    n: u32,
    verdicts: &mut [u8],
    order: &mut [u8],
    out: &mut [u8],
) -> Result<usize, Refusal>
    ensures { planned result verdicts.new order.new out.new
        ≡ plan_batch batch.now (lent state.entry) n verdicts.old order.old out.old }
{
    let m = batch.len() / layout::PAGE;
    let short = lists_short(verdicts, order, m) || out.len() < m * layout::PAGE;
    let mut tickets = [0u32; layout::MOST_PAGES];
    batch::gate_fault(batch, state, n, short, &mut tickets)?;
    let count = plan_pages(batch, &tickets, state, verdicts, order);
    fill::fill_out(batch, &order[..count], out);
    Ok(count)
}
