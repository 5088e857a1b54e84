// The rules for one entry of a transaction.
ghost use Rattle.std.specs.Prelude.{◌≡◌};
ghost use Rattle.ledger.specs.Tx.{wrong_key, wrong_version, wrong_kind};

use crate::{Kind, Version, Write, layout};

// The kinds of a write, as a page has them: a page may have any number.
pub const PUT: u16 = Kind::Put as u16;

pub const DELETE: u16 = Kind::Delete as u16;

// A key that is below the least that may stand here, or above 1023.
pub fn key_wrong(floor: u32, key: u16) -> bool
    ensures { result ≡ wrong_key floor key }
{
    (key as u32) < floor || key > layout::LAST_KEY
}

// A version that is neither present nor deleted nor absent.
// Absent is tested field by field: `same` would be worked out for present ones too.
pub fn version_wrong(v: Version) -> bool
    ensures { result ≡ wrong_version v }
{
    if v.is_present() {
        return false;
    }
    if v.is_deleted() {
        return false;
    }
    if v.block != layout::NO_BLOCK {
        return true;
    }
    v.place != layout::NO_PLACE
}

// A kind that is neither put nor delete, or a delete with a value.
pub fn kind_wrong(x: Write) -> bool
    ensures { result ≡ wrong_kind x }
{
    if x.kind == PUT {
        return false;
    }
    // The value between two tests of the kind, so that the kind is read as one word.
    if x.value != 0 {
        return true;
    }
    x.kind != DELETE
}
