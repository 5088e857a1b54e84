// The ledger's state: what is read of it, what is stored in it, and its faults under a number.
ghost use Rattle.std.specs.Prelude.{◌≡◌, not, ◌<◌, length, get_or};
ghost use Rattle.lists.specs.Search.{found_in, some_in};
ghost use Rattle.refusals.specs.Fault.{first, finding};
ghost use Rattle.ledger.specs.State.{lent, held, SameLists, keys, versions, entry, store, present_under, wrong_entry, wrong_lengths, state_rows};
ghost use Rattle.ledger.specs.Inner.{Level};

use crate::{Entry, Version, layout};
use refusals::{Reason, Refusal};

// The ledger's state, lent to be read: block numbers, places and values; key k is index k. Three lists, as C lends them, and
// of any lengths, since a service answers for each of them: that they have one length is a clause of what stands behind the
// gate. Types that hold it, one to read and one to write, would be made at seven calls, and be longer than these clauses.
#[derive(Clone, Copy)]
pub struct State<'a> {
    pub blocks: &'a [u32],
    pub places: &'a [u16],
    pub values: &'a [i64],
}

// The same three lists, lent to be written: another type, as `IterMut` is beside `Iter`.
#[derive(Drop)]
pub struct StateMut<'a> {
    pub blocks: &'a mut [u32],
    pub places: &'a mut [u16],
    pub values: &'a mut [i64],
}

impl Version {
    // Whether a present entry may have it: a place of 0 to 63 of a block below n.
    fn is_present_under(self, n: u32) -> bool
        ensures { result ≡ present_under n self }
    {
        self.is_present() & (self.block < n)
    }
}

impl Entry {
    // Neither present under n, nor deleted under n with value 0, nor absent with value 0.
    fn is_wrong(self, n: u32) -> bool
        ensures { result ≡ wrong_entry n self }
    {
        let version = self.version;
        if version.is_present() {
            return version.block >= n;
        }
        if self.value != 0 {
            return true;
        }
        if version.is_deleted() {
            return version.block >= n;
        }
        !version.same(Version::ABSENT)
    }
}

impl State<'_> {
    // How many keys there are.
    pub fn keys(self) -> usize
        ensures { result ≡ keys (lent self.entry) }
    {
        self.blocks.len()
    }

    // Whether the three lists are unequal, empty or too long.
    pub fn has_wrong_lengths(self) -> bool
        ensures { result ≡ wrong_lengths (lent self.entry) }
    {
        let keys = self.blocks.len();
        if self.places.len() != keys {
            return true;
        }
        if self.values.len() != keys {
            return true;
        }
        if keys == 0 {
            return true;
        }
        keys > layout::MOST_KEYS
    }

    // The version at a key.
    pub fn version(self, key: usize) -> Version
        requires { (key < length self.blocks.now) × (key < length self.places.now) }
        ensures { result ≡ versions (lent self.entry) key }
    {
        Version::at(self.blocks[key], self.places[key])
    }

    // The entry at a key.
    pub fn entry(self, key: usize) -> Entry
        requires { (key < length self.blocks.now) × (key < length self.places.now) × (key < length self.values.now) }
        ensures { result ≡ entry (lent self.entry) key }
    {
        Entry {
            version: self.version(key),
            value: self.values[key],
        }
    }

    // Whether each key has a version that a present entry may have. None ends the loop, so it is vector code.
    fn is_present_throughout(self, n: u32) -> bool
        requires { Level (lent self) }
        ensures { result
            ≡ not (some_in (λ k. not (present_under n (versions (lent self.entry) k))) 0
            (keys (lent self.entry))) }
    {
        let mut other = false;
        for k in 0..self.blocks.len() {
            other = other | !self.version(k).is_present_under(n);
        }
        !other
    }

    // The lowest key whose entry is wrong. Where all are present there is none.
    fn first_wrong(self, n: u32) -> Option<usize>
        requires { Level (lent self) }
        ensures { result
            ≡ found_in (λ k. wrong_entry n (entry (lent self.entry) k)) 0 (keys (lent self.entry)) }
    {
        if self.is_present_throughout(n) {
            return None;
        }
        for k in 0..self.blocks.len() {
            if self.entry(k).is_wrong(n) {
                return Some(k);
            }
        }
        None
    }

    // 12 and 13: the first fault under the number n.
    pub fn fault(self, n: u32) -> Result<(), Refusal>
        ensures { finding result ≡ first (state_rows (lent self.entry) n) }
    {
        if self.has_wrong_lengths() {
            return Err(Reason::StateLength.at(0));
        }
        if let Some(key) = self.first_wrong(n) {
            return Err(Reason::StateEntry.at(key as u32));
        }
        Ok(())
    }
}

impl StateMut<'_> {
    // The same lists, to be read.
    pub fn lent(&self) -> State<'_>
        ensures { lent result ≡ held self.now }
    {
        State {
            blocks: &*self.blocks,
            places: &*self.places,
            values: &*self.values,
        }
    }

    // Stores an entry at a key.
    pub(crate) fn store(&mut self, key: usize, e: Entry)
        requires level { Level (held self.old) }
        requires key_in_bounds { key < keys (held self.old) }
        ensures same_lists { SameLists self.old self.new }
        ensures left { held self.new ≡ store (held self.old) key e }
    {
        self.blocks[key] = e.version.block;
        self.places[key] = e.version.place;
        let value = e.value;
        self.values[key] = value;
    }
}
