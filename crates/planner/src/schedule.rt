// Rule 4: the order of the kept, by rank.
ghost use Rattle.std.specs.Prelude.{◌≡◌, false, ◌++◌, map, ◌≤◌, ◌<◌, ◌↔◌, length, drop, IsSome, IfSome};
ghost use Rattle.orders.specs.Arrange.{schedule};
ghost use Rattle.orders.specs.Chain.{cyclic};
ghost use Rattle.orders.specs.Walk.{Next};
ghost use Rattle.sets.specs.Set.{member, members};
ghost use Rattle.planner.specs.Ranks.{demands, nth};

use ledger::layout;
use sets::Set;

// The lowest of those left that no other of them must stand before: document 01's nested search,
// in which each candidate is left by label as soon as a blocker is found.
fn next_free(blockers: &[Set; layout::MOST_PAGES], left: Set) -> Option<usize>
    requires { cyclic (demands blockers.now) (members left 64) ≡ false }
    ensures some { IsSome result ↔ (0 < left) }
    ensures value { IfSome result (Next (demands blockers.now) (member left)) }
{
    'tickets: for p in left.members() {
        let mut others = blockers[p];
        // By hand: document 01 names a search that is left as soon as a blocker is found, and an iterator takes each one out
        // before it is asked: a third more work.
        while let Some(q) = others.first() {
            if left.has(q) {
                continue 'tickets;
            }
            others = others.drop_lowest();
        }
        return Some(p);
    }
    None
}

// Fills the front of the order list with the pages of the kept in schedule order, and gives how many there are.
pub fn fill_order(
    blockers: &[Set; layout::MOST_PAGES],
    kept: Set,
    pages: &[u8; layout::MOST_PAGES],
    order: &mut [u8],
) -> usize
    requires kept_in_bounds { length (members kept 64) ≤ length order.old }
    requires kept_value { cyclic (demands blockers.now) (members kept 64) ≡ false }
    ensures value { result ≡ length (members kept 64) }
    ensures order_after { order.new
        ≡ map (nth pages.now) (schedule (demands blockers.now) (λ x. x) (members kept 64))
        ++ drop result order.old }
{
    let mut left = kept;
    let mut k = 0;
    // The set shrinks by a member that each turn finds anew, so no iterator walks it, and the place is counted here.
    while let Some(p) = next_free(blockers, left) {
        left = left.without(p);
        order[k] = pages[p];
        k += 1;
    }
    k
}
