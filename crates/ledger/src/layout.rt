// The layout of a page and of a batch: every offset, size and limit of document 01, and how they hang together.
ghost use Rattle.std.specs.Prelude.{◌≡◌, ◌+◌, ◌*◌, ◌≤◌, length};
ghost use Rattle.ledger.specs.Page.{size, read_start, write_start, page_at};

// "0: mark, hex 54"; "1, 2: number of reads r, of writes w"; "3: zero"; "4 to 7: ticket".
pub const MARK: u8 = 0x54;

pub const READ_COUNT: usize = 1;

pub const WRITE_COUNT: usize = 2;

pub const ZERO: usize = 3;

pub const TICKET: usize = 4;

// "8 on: r reads": the bytes before them.
pub const HEAD: usize = 8;

// "reads of 8 bytes", "writes of 12 bytes".
pub const READ: usize = 8;

pub const WRITE: usize = 12;

// "key 2": the bytes of a key, with which each entry begins.
pub const KEY: usize = 2;

// "8r + 12w is at most 500".
pub const ROOM: usize = 500;

// "508 to 511: check".
pub const CHECK: usize = HEAD + ROOM;

pub const PAGE: usize = CHECK + 4;

// "number of reads r, of writes w, each 0 to 32".
pub const MOST_ENTRIES: usize = 32;

// "Keys are 0 to 1023".
pub const LAST_KEY: u16 = 1023;

pub const MOST_KEYS: usize = LAST_KEY as usize + 1;

// "a place of 0 to 63": the index of a page in its batch.
pub const LAST_PLACE: u16 = 63;

pub const MOST_PAGES: usize = LAST_PLACE as usize + 1;

pub const MOST_BYTES: usize = MOST_PAGES * PAGE;

// "version (n, i + 32768)": what the place of a delete is marked with.
pub const DELETED: u16 = 32768;

pub const LAST_DELETED: u16 = DELETED + LAST_PLACE;

// "Absent is block 0, place 65535".
pub const NO_BLOCK: u32 = 0;

pub const NO_PLACE: u16 = 65535;

// Where read `i` starts.
pub fn read_start(i: usize) -> usize
    requires { i ≤ 32 }
    ensures { result ≡ read_start i }
{
    HEAD + READ * i
}

// "then: w writes": where the writes start, behind `r` reads. The sum of `read_start`, for another thing that the document names.
pub fn writes_at(r: usize) -> usize
    requires { r ≤ 32 }
    ensures { result ≡ 8 + 8 * r }
{
    HEAD + READ * r
}

// Where write `i` starts, behind `r` reads.
pub fn write_start(r: usize, i: usize) -> usize
    requires { (r ≤ 32) × (i ≤ 32) }
    ensures { result ≡ write_start r i }
{
    writes_at(r) + WRITE * i
}

// "up to 507: zero": where the spare bytes start, behind `r` reads and `w` writes.
pub fn spare_at(r: usize, w: usize) -> usize
    requires { (r ≤ 32) × (w ≤ 32) }
    ensures { result ≡ 8 + size r w }
{
    writes_at(r) + WRITE * w
}

// Page `i` of a batch.
pub fn page_at(batch: &[u8], i: usize) -> &[u8]
    requires { i * 512 + 512 ≤ length batch.now }
    ensures { result.now ≡ page_at batch.now i }
{
    let start = i * PAGE;
    let end = start + PAGE;
    &batch[start..end]
}
