// Rule 3: who is kept, by rank. `blockers` has for each rank the set of those that must stand before it.
ghost use Rattle.std.specs.Prelude.{◌≡◌, true, ◌↔◌, [], ◌≤◌, ◌<◌};
ghost use Rattle.lists.specs.Tables.{upto};
ghost use Rattle.orders.specs.Admission.{admit};
ghost use Rattle.orders.specs.Walk.{Lists, Way};
ghost use Rattle.sets.specs.Set.{member};
ghost use Rattle.planner.specs.Ranks.{demands, Awaits};

use ledger::layout;
use sets::Set;

// Whether demands lead from t back to t by way of the kept: a walk from t to those that must stand before it, and on.
fn leads_back(blockers: &[Set; layout::MOST_PAGES], kept: Set, t: usize) -> bool
    requires { t < 64 }
    ensures { (result ≡ true) ↔ Way (demands blockers.now) (member kept) t t }
{
    let mut reached = Set::only(t);
    let mut done = Set::EMPTY;
    // The set grows as it is walked, so no iterator walks it.
    while let Some(d) = reached.minus(done).first() {
        let next = blockers[d];
        if next.has(t) {
            return true;
        }
        done = done.with(d);
        reached = reached.union(next.both(kept));
    }
    false
}

// Whether t closes a cycle with the kept: only one that t itself or a kept one waits for can.
// `awaited` has all that a kept one waits for.
fn closes_cycle(blockers: &[Set; layout::MOST_PAGES], kept: Set, awaited: Set, t: usize) -> bool
    requires t_bound { t < 64 }
    requires awaits { Awaits blockers.now kept awaited }
    ensures { (result ≡ true) ↔ Way (demands blockers.now) (member kept) t t }
{
    awaited.union(blockers[t]).has(t) && leads_back(blockers, kept, t)
}

// The kept among the first `count` ranks, taken in rising order.
// All sets are lent and not their front: whatever member a set has is an index then.
pub fn admitted(blockers: &[Set; layout::MOST_PAGES], count: usize) -> Set
    requires { count ≤ 64 }
    ensures { Lists (member result) (admit (demands blockers.now) [] (upto count)) }
{
    let mut kept = Set::EMPTY;
    let mut awaited = Set::EMPTY;
    for t in 0..count {
        if !closes_cycle(blockers, kept, awaited, t) {
            kept = kept.with(t);
            awaited = awaited.union(blockers[t]);
        }
    }
    kept
}
