// The verdicts of a plan and of a commit.

// What a page is told, by its number: a lent list of verdicts holds `verdict as u8`.
#[derive(Clone, Copy, PartialEq, Eq)]
pub enum Verdict {
    Kept = 0,
    Stale = 1,
    Cycle = 2,
    Failed = 3,
}

impl Verdict {
    // A page that passes commit is told the number of a kept one.
    pub const PASSED: Verdict = Verdict::Kept;
}
