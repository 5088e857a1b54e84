// The joined call: the plan of a batch and its commit.
ghost use Rattle.std.specs.Prelude.{◌≡◌};
ghost use Rattle.ledger.specs.State.{held, SameLists};
ghost use Rattle.planning.specs.Joined.{joined, plan_and_commit};

use crate::plan;
use ledger::{StateMut, batch, commit, layout};
use refusals::Refusal;

// Plans a batch under the number n and commits the kept pages where they lie, in the plan's order: the gate's refusals.
// Each of them passes in its turn, which is proved, so none is asked again.
pub fn plan_and_commit(
    batch: &[u8],
    state: &mut StateMut<'_>,
    n: u32,
    verdicts: &mut [u8],
    order: &mut [u8],
) -> Result<usize, Refusal>
    ensures same_lists { SameLists state.old state.new }
    ensures value { joined result (held state.new) verdicts.new order.new
        ≡ plan_and_commit batch.now (held state.old) n verdicts.old order.old }
{
    let m = batch.len() / layout::PAGE;
    let short = plan::lists_short(verdicts, order, m);
    let mut tickets = [0u32; layout::MOST_PAGES];
    let lent = state.lent();
    batch::gate_fault(batch, lent, n, short, &mut tickets)?;
    let count = plan::plan_pages(batch, &tickets, lent, verdicts, order);
    commit::apply_pages(batch, &order[..count], state, n);
    Ok(count)
}
