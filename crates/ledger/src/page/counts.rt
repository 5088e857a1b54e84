// 4 and 5: the counts of a page or a transaction, each told at the byte of a count.
ghost use Rattle.std.specs.Prelude.{◌≡◌};
ghost use Rattle.ledger.specs.Page.{count_rows};
ghost use Rattle.refusals.specs.Fault.{first, finding};

use crate::layout;
use refusals::{Reason, Refusal};

// The first fault of the counts.
pub fn count_fault(r: usize, w: usize) -> Result<(), Refusal>
    ensures { finding result ≡ first (count_rows r w) }
{
    if r > layout::MOST_ENTRIES {
        return Err(Reason::Counts.at(layout::READ_COUNT as u32));
    }
    if w > layout::MOST_ENTRIES {
        return Err(Reason::Counts.at(layout::WRITE_COUNT as u32));
    }
    if layout::spare_at(r, w) > layout::CHECK {
        return Err(Reason::Size.at(layout::READ_COUNT as u32));
    }
    Ok(())
}
