// The version type: absent, at a block and place, deleted, same; and which of them a version is.
ghost use Rattle.std.specs.Prelude.{◌≡◌, ◌≤◌};
ghost use Rattle.ledger.specs.Version.{absent, at, deleted, same, is_present, is_deleted};

use crate::{Version, layout};

impl Version {
    // "Absent is block 0, place 65535."
    pub const ABSENT: Version = Version {
        block: layout::NO_BLOCK,
        place: layout::NO_PLACE,
    };

    // The constant as a function, as document 01 names it.
    pub fn absent() -> Version
        ensures { result ≡ absent }
    {
        Version::ABSENT
    }

    pub fn at(block: u32, place: u16) -> Version
        ensures { result ≡ at block place }
    {
        Version { block, place }
    }

    // What a delete leaves, by the page at a place of a block.
    pub fn deleted(block: u32, place: u16) -> Version
        requires { place ≤ 63 }
        ensures { result ≡ deleted block place }
    {
        let marked = place + layout::DELETED;
        Version {
            block,
            place: marked,
        }
    }

    // Document 01 names `same`, so it stands beside `==`.
    pub fn same(self, other: Version) -> bool
        ensures { result ≡ same self other }
    {
        self == other
    }

    // Whether the place is one of 0 to 63.
    pub fn is_present(self) -> bool
        ensures { result ≡ is_present self }
    {
        self.place <= layout::LAST_PLACE
    }

    // Whether the place is one of 32768 to 32831.
    pub fn is_deleted(self) -> bool
        ensures { result ≡ is_deleted self }
    {
        (self.place >= layout::DELETED) & (self.place <= layout::LAST_DELETED)
    }
}
