// The ledger: pages, the state, the gate of a batch, version check and commit.
#![tactic(auto)]

// A version: a block number and a place. Its kind is told by the place, as in the bytes of a page and in C's lists.
#[derive(Clone, Copy, PartialEq, Eq)]
pub struct Version {
    pub block: u32,
    pub place: u16,
}

// A read: a key, and the version that it names.
#[derive(Clone, Copy, PartialEq, Eq)]
pub struct Read {
    pub key: u16,
    pub version: Version,
}

// "Kind 0 puts, kind 1 deletes".
#[derive(Clone, Copy, PartialEq, Eq)]
pub enum Kind {
    Put = 0,
    Delete = 1,
}

// A write: a key, a kind, and the value that is put. The kind is a number, since a page may have any: refusal 9 tells of it.
#[derive(Clone, Copy, PartialEq, Eq)]
pub struct Write {
    pub key: u16,
    pub kind: u16,
    pub value: i64,
}

// What stands at a key: a version, and a value in kilograms.
#[derive(Clone, Copy, PartialEq, Eq)]
pub struct Entry {
    pub version: Version,
    pub value: i64,
}

// What the writes of a page are marked with: the number of the batch, and the page's place in it. That a place is below 64 is a
// clause, since the definition of a stamp takes any.
#[derive(Clone, Copy, PartialEq, Eq)]
pub struct Stamp {
    pub number: u32,
    pub place: u16,
}

// A transaction: `r` reads and `w` writes; entries beyond these count for nothing. Arrays and counts, since nothing is allocated.
#[derive(Clone, Copy, PartialEq, Eq)]
pub struct Transaction {
    pub ticket: u32,
    pub r: usize,
    pub w: usize,
    pub reads: [Read; layout::MOST_ENTRIES],
    pub writes: [Write; layout::MOST_ENTRIES],
}

// The counts of a good page.
#[derive(Clone, Copy, PartialEq, Eq)]
pub struct Counts {
    pub reads: u32,
    pub writes: u32,
}

pub mod batch;
pub mod commit;
pub mod layout;
pub mod page;
mod rules;
pub mod state;
pub mod verdict;
mod versions;

pub use page::content::Page;
pub use state::{State, StateMut};
