// An entry of a page: what a read and a write have in common.
ghost use Rattle.std.specs.Prelude.{◌≡◌, ℕ, ◌+◌, ◌≤◌, Bool, List, length};
ghost use Rattle.std.proofs.lemmas.List.Edits.{sets};
ghost use Rattle.refusals.specs.declared.Reason.{Reason};
ghost use Rattle.refusals.specs.declared.Reason.TheVariants.{ReadKeys, ReadVersion, WriteKeys, WriteKind};
ghost use Rattle.ledger.specs.Tx.{no_read, no_write, wrong_version, wrong_kind};
ghost use Rattle.ledger.specs.Page.{read_at, write_at, read_bytes, write_bytes};
ghost use Rattle.octets.proofs.Stored.{length-entry};
ghost use Rattle.std.proofs.Math.Nat.{le_refl, le-add_right};

use crate::page::{content, fill};
use crate::{Read, Version, Write, layout, rules};
use octets::bytes;
use refusals::Reason;

// Each ghost member is the definition of specs/ for the kind; the last two are facts of it.
pub(crate) trait PageEntry: Copy {
    // How many bytes it has.
    const SIZE: usize;

    ghost SIZE: { ℕ };

    // One of zeros.
    const NONE: Self;

    ghost NONE: { Self };

    // Why a key out of turn is refused, and why what stands behind a key.
    const KEYS: Reason;

    ghost KEYS: { Reason };

    const FORM: Reason;

    ghost FORM: { Reason };

    // What the functions below give.
    ghost at: { List ℕ → ℕ → Self };

    ghost key: { Self → ℕ };

    ghost wrong: { Self → Bool };

    ghost bytes: { Self → List ℕ };

    // The one in the bytes from `start` on.
    fn at(page: &[u8], start: usize) -> Self
        requires { start + SIZE ≤ length page.now }
        ensures { result ≡ at page.now start };

    // Its key.
    fn key(self) -> u16
        ensures { result ≡ key self };

    // Whether what stands behind its key is wrong.
    fn is_wrong(self) -> bool
        ensures { result ≡ wrong self };

    // Stores its bytes from `start` on.
    fn put(self, p: &mut [u8], start: usize)
        requires { start + SIZE ≤ length p.old }
        ensures { p.new ≡ sets p.old start (bytes self) };

    // An entry has as many bytes as its size says.
    ghost long: { (x : Self) → length (bytes x) ≡ SIZE };

    // "reads of 8 bytes", "writes of 12 bytes": what a test of the size may rest on.
    ghost sized: { (8 ≤ SIZE) × (SIZE ≤ 12) };
}

impl PageEntry for Read {
    const SIZE: usize = layout::READ;

    ghost SIZE = { 8 };

    const NONE: Read = Read {
        key: 0,
        version: Version { block: 0, place: 0 },
    };

    ghost NONE = { no_read };

    const KEYS: Reason = Reason::ReadKeys;

    ghost KEYS = { ReadKeys };

    const FORM: Reason = Reason::ReadVersion;

    ghost FORM = { ReadVersion };

    ghost at = { read_at };

    ghost key = { λ x. x.key };

    ghost wrong = { λ x. wrong_version x.version };

    ghost bytes = { read_bytes };

    ghost long = { λ x. length-entry _ _ 4 _ };

    ghost sized = { (le_refl 8, le-add_right 8 4) };

    fn at(page: &[u8], start: usize) -> Read {
        let place = bytes::le2(page, start + 2);
        let block = bytes::le4(page, start + 4);
        Read {
            key: bytes::le2(page, start),
            version: Version::at(block, place),
        }
    }

    fn key(self) -> u16 {
        self.key
    }

    fn is_wrong(self) -> bool {
        rules::version_wrong(self.version)
    }

    fn put(self, p: &mut [u8], start: usize) {
        fill::put_read(p, start, self);
    }
}

impl PageEntry for Write {
    const SIZE: usize = layout::WRITE;

    ghost SIZE = { 12 };

    const NONE: Write = Write {
        key: 0,
        kind: 0,
        value: 0,
    };

    ghost NONE = { no_write };

    const KEYS: Reason = Reason::WriteKeys;

    ghost KEYS = { WriteKeys };

    const FORM: Reason = Reason::WriteKind;

    ghost FORM = { WriteKind };

    ghost at = { write_at };

    ghost key = { λ x. x.key };

    ghost wrong = { wrong_kind };

    ghost bytes = { write_bytes };

    ghost long = { λ x. length-entry _ _ 8 _ };

    ghost sized = { (le-add_right 8 4, le_refl 12) };

    fn at(page: &[u8], start: usize) -> Write {
        content::write_at(page, start)
    }

    fn key(self) -> u16 {
        self.key
    }

    fn is_wrong(self) -> bool {
        rules::kind_wrong(self)
    }

    fn put(self, p: &mut [u8], start: usize) {
        fill::put_write(p, start, self);
    }
}
